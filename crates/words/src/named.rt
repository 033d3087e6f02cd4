// The names of the commands, of the orders, and of the ways in which a sheet is given.
ghost use Rattle.std.specs.Prelude.{◌≡◌};
ghost use Rattle.words.specs.Saying.{call_of, other_of, name_of, order_of, source_of};

use super::line::OrderKind;

#[derive(Clone, Copy, Debug, PartialEq, Eq)]
pub enum Name {
    Order,
    Draw,
    Below,
    Under,
    Opens,
    List,
    Load,
    Admit,
    Close,
    Dump,
    Poke,
    Post,
    Step,
    Recall,
    Show,
    Audit,
}

// The ways in which a sheet is given.
#[derive(Clone, Copy, Debug, PartialEq, Eq)]
pub enum Source {
    Hex,
    File,
}

// The calls on a live network.
fn call_of(word: &[u8]) -> Option<Name>
    ensures answer { result ≡ call_of word.now }
{
    if word == b"recall".as_slice() {
        return Some(Name::Recall);
    }
    match word {
        b"post" => Some(Name::Post),
        b"step" => Some(Name::Step),
        b"show" => Some(Name::Show),
        b"audit" => Some(Name::Audit),
        _ => None,
    }
}

// The commands that are no such call.
fn other_of(word: &[u8]) -> Option<Name>
    ensures answer { result ≡ other_of word.now }
{
    match word {
        b"order" => Some(Name::Order),
        b"draw" => Some(Name::Draw),
        b"below" => Some(Name::Below),
        b"under" => Some(Name::Under),
        b"opens" => Some(Name::Opens),
        b"list" => Some(Name::List),
        b"load" => Some(Name::Load),
        b"admit" => Some(Name::Admit),
        b"close" => Some(Name::Close),
        b"dump" => Some(Name::Dump),
        b"poke" => Some(Name::Poke),
        _ => None,
    }
}

pub(crate) fn name_of(word: &[u8]) -> Option<Name>
    ensures answer { result ≡ name_of word.now }
{
    match call_of(word) {
        Some(name) => Some(name),
        None => other_of(word),
    }
}

pub(crate) fn order_of(word: &[u8]) -> Option<OrderKind>
    ensures answer { result ≡ order_of word.now }
{
    match word {
        b"drawn" => Some(OrderKind::Drawn),
        b"rights" => Some(OrderKind::Rights),
        _ => None,
    }
}

pub(crate) fn source_of(word: &[u8]) -> Option<Source>
    ensures answer { result ≡ source_of word.now }
{
    match word {
        b"hex" => Some(Source::Hex),
        b"file" => Some(Source::File),
        _ => None,
    }
}
