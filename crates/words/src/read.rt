// Reads what a line says, word by word from the left.
ghost use Rattle.std.specs.Prelude.{◌≡◌, Some, IfSome};
ghost use Rattle.words.specs.Cutting.{texts};
ghost use Rattle.words.specs.Saying.{Reads, order_asked, below_asked, under_asked, opens_asked, draw_asked, given, sheet_from, sheet_asked, alone, poke_asked, post_asked, position_asked, step_asked, recall_asked, show_asked, asked, asked_of, asked_by, is_note, said_by, said, said_of};

use super::argument::Arguments;
use super::cut::cut;
use super::line::{Call, Command, Sheet};
use super::named::{Name, Source, name_of};
use super::unclear::{LineError, Unclear, Why};
use std::alloc::Global;

fn order(words: &[&[u8]]) -> Result<Command, Unclear>
    ensures answer { asked result ≡ order_asked (texts words.now) }
{
    let mut arguments = Arguments::of(words);
    let kind = arguments.order()?;
    arguments.end()?;
    Ok(Command::Order(kind))
}

fn below(words: &[&[u8]]) -> Result<Command, Unclear>
    ensures answer { asked result ≡ below_asked (texts words.now) }
{
    let mut arguments = Arguments::of(words);
    let a = arguments.role_code()?;
    let b = arguments.role_code()?;
    arguments.end()?;
    Ok(Command::Below { a, b })
}

fn under(words: &[&[u8]]) -> Result<Command, Unclear>
    ensures answer { asked result ≡ under_asked (texts words.now) }
{
    let mut arguments = Arguments::of(words);
    let a = arguments.role_set()?;
    let b = arguments.role_set()?;
    arguments.end()?;
    Ok(Command::Under { a, b })
}

fn opens(words: &[&[u8]]) -> Result<Command, Unclear>
    ensures answer { asked result ≡ opens_asked (texts words.now) }
{
    let mut arguments = Arguments::of(words);
    let set = arguments.role_set()?;
    let roles = arguments.role_set()?;
    arguments.end()?;
    Ok(Command::Opens { set, roles })
}

fn draw(heap: Global, words: &[&[u8]]) -> Result<Command, LineError>
    ensures answer { Reads asked_of result (draw_asked (texts words.now)) }
{
    let mut arguments = Arguments::of(words);
    let pairs = arguments.pairs(heap)?;
    Ok(Command::Draw(pairs))
}

// A sheet is given in the same ways for whatever command.
fn sheet(heap: Global, words: &[&[u8]]) -> Result<Sheet, LineError>
    ensures answer { Reads given result (sheet_asked (texts words.now)) }
{
    let mut arguments = Arguments::of(words);
    let sheet = match arguments.source()? {
        Source::Hex => Sheet::Bytes(arguments.hex(heap)?),
        Source::File => Sheet::File(arguments.own_bytes(heap)?),
    };
    arguments.end()?;
    Ok(sheet)
}

// The command is its name alone.
fn alone(words: &[&[u8]], command: Command) -> Result<Command, Unclear>
    ensures answer { asked result ≡ alone (texts words.now) (asked_of command) }
{
    Arguments::of(words).end()?;
    Ok(command)
}

fn poke(words: &[&[u8]]) -> Result<Command, Unclear>
    ensures answer { asked result ≡ poke_asked (texts words.now) }
{
    let mut arguments = Arguments::of(words);
    let table = arguments.narrow()?;
    let row = arguments.narrow()?;
    let field = arguments.narrow()?;
    let value = arguments.wide()?;
    arguments.end()?;
    Ok(Command::Poke {
        table,
        row,
        field,
        value,
    })
}

fn post(words: &[&[u8]]) -> Result<Command, Unclear>
    ensures answer { asked result ≡ post_asked (texts words.now) }
{
    let mut arguments = Arguments::of(words);
    let location = arguments.narrow()?;
    let job = arguments.narrow()?;
    arguments.end()?;
    Ok(Command::Call(Call::Post { location, job }))
}

// A position of the running list, and no more.
fn position(words: &[&[u8]]) -> Result<u32, Unclear>
    ensures answer { result ≡ position_asked (texts words.now) }
{
    let mut arguments = Arguments::of(words);
    let position = arguments.narrow()?;
    arguments.end()?;
    Ok(position)
}

fn show(words: &[&[u8]]) -> Result<Command, Unclear>
    ensures answer { asked result ≡ show_asked (texts words.now) }
{
    let mut arguments = Arguments::of(words);
    let location = arguments.narrow()?;
    let row = arguments.narrow()?;
    let roles = arguments.role_set()?;
    arguments.end()?;
    Ok(Command::Call(Call::Show {
        location,
        row,
        roles,
    }))
}

fn step(words: &[&[u8]]) -> Result<Command, Unclear>
    ensures answer { asked result ≡ step_asked (texts words.now) }
{
    let position = position(words)?;
    Ok(Command::Call(Call::Step { position }))
}

fn recall(words: &[&[u8]]) -> Result<Command, Unclear>
    ensures answer { asked result ≡ recall_asked (texts words.now) }
{
    let position = position(words)?;
    Ok(Command::Call(Call::Recall { position }))
}

// The words are those of the command, its name among them.
fn asked_by(heap: Global, name: Option<Name>, words: &[&[u8]]) -> Result<Command, LineError>
    ensures answer { Reads asked_of result (asked_by name (texts words.now)) }
{
    match name {
        Some(Name::Order) => Ok(order(words)?),
        Some(Name::Draw) => draw(heap, words),
        Some(Name::Below) => Ok(below(words)?),
        Some(Name::Under) => Ok(under(words)?),
        Some(Name::Opens) => Ok(opens(words)?),
        Some(Name::List) => Ok(Command::List(sheet(heap, words)?)),
        Some(Name::Load) => Ok(Command::Load(sheet(heap, words)?)),
        Some(Name::Admit) => Ok(alone(words, Command::Admit)?),
        Some(Name::Close) => Ok(alone(words, Command::Close)?),
        Some(Name::Dump) => Ok(alone(words, Command::Dump)?),
        Some(Name::Poke) => Ok(poke(words)?),
        Some(Name::Post) => Ok(post(words)?),
        Some(Name::Step) => Ok(step(words)?),
        Some(Name::Recall) => Ok(recall(words)?),
        Some(Name::Show) => Ok(show(words)?),
        Some(Name::Audit) => Ok(alone(words, Command::Call(Call::Audit))?),
        None => Err(LineError::Unclear(Unclear {
            word: 0,
            why: Why::NotACommand,
        })),
    }
}

// A note is for a reader of the input, and asks nothing.
fn is_note(word: &[u8]) -> bool
    ensures answer { result ≡ is_note word.now }
{
    word.first() == Some(&b'#')
}

fn said_by(heap: Global, words: &[&[u8]]) -> Result<Option<Command>, LineError>
    ensures answer { IfSome (said_of result) (λ read. read ≡ said_by (texts words.now)) }
{
    match words.first() {
        Some(first) if !is_note(first) => Ok(Some(asked_by(heap, name_of(first), words)?)),
        _ => Ok(None),
    }
}

// What one line of input asks, if it is not empty and no note for a reader.
pub fn read_line(heap: Global, line: &[u8]) -> Result<Option<Command>, LineError>
    ensures answer { IfSome (said_of result) (λ read. read ≡ said line.now) }
{
    let words = cut(heap, line)?;
    said_by(heap, words.as_slice())
}
