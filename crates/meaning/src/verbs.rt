// What a command does.
ghost use Rattle.std.specs.Prelude.{◌≡◌};
ghost use Rattle.meaning.specs.Decoding.{operand_of, narrow_of, path_and_number, only_first, fork_of, go_of, run_of, change_of, verb_of};

use super::contents::Content;
use order::RoleSet;
use rows::CommandRow;

// Named by its row, or by the slot that holds it.
#[derive(Clone, Copy, Debug, PartialEq, Eq)]
pub enum Operand {
    Row(u32),
    Slot(u32),
}

#[derive(Clone, Copy, Debug, PartialEq, Eq)]
pub enum Verb {
    Fork {
        other: u32,
    },
    Go {
        location: Operand,
        roles: RoleSet,
    },
    Run {
        path: Operand,
    },
    Read {
        path: Operand,
        pattern: u32,
    },
    Change {
        path: Operand,
        pattern: u32,
        content: Content,
    },
    Enable {
        path: Operand,
        role: u32,
    },
    Disable {
        path: Operand,
        role: u32,
    },
}

// Here a row's numbers become operands and verbs, so they are told apart as numbers.
fn named_by(row: CommandRow) -> Option<Operand>
    ensures answer { result ≡ operand_of row }
{
    match row.operand_kind {
        0 => Some(Operand::Row(row.operand)),
        1 => Some(Operand::Slot(row.operand)),
        _ => None,
    }
}

// The first field as the number of a row or a role. It is as wide as a set, since a go's is one.
fn narrow(row: CommandRow) -> Option<u32>
    ensures answer { result ≡ narrow_of row }
{
    u32::try_from(row.first).ok()
}

// Whether the fields behind the first are not used.
fn only_first(row: CommandRow) -> bool
    ensures answer { result ≡ only_first row }
{
    row.second == 0 && row.third == 0 && row.fourth == 0
}

// The operand, and the first field as a number.
fn path_and_number(row: CommandRow) -> Option<(Operand, u32)>
    ensures answer { result ≡ path_and_number row }
{
    Some((named_by(row)?, narrow(row)?))
}

fn fork(row: CommandRow) -> Option<Verb>
    ensures answer { result ≡ fork_of row }
{
    if row.operand_kind != 0 || row.operand != 0 {
        return None;
    }
    narrow(row).map(|other| Verb::Fork { other })
}

fn go(row: CommandRow) -> Option<Verb>
    ensures answer { result ≡ go_of row }
{
    named_by(row).map(|location| Verb::Go {
        location,
        roles: row.first,
    })
}

fn run(row: CommandRow) -> Option<Verb>
    ensures answer { result ≡ run_of row }
{
    if row.first != 0 {
        return None;
    }
    named_by(row).map(|path| Verb::Run { path })
}

fn change(row: CommandRow) -> Option<Verb>
    ensures answer { result ≡ change_of row }
{
    let (path, pattern) = path_and_number(row)?;
    let content = Content::decode(row.second, row.third, row.fourth)?;
    Some(Verb::Change {
        path,
        pattern,
        content,
    })
}

impl Verb {
    pub fn decode(row: CommandRow) -> Option<Verb>
        ensures answer { result ≡ verb_of row }
    {
        match row.verb {
            5 => change(row),
            _ if !only_first(row) => None,
            1 => fork(row),
            2 => go(row),
            3 => run(row),
            4 => path_and_number(row).map(|(path, pattern)| Verb::Read { path, pattern }),
            6 => path_and_number(row).map(|(path, role)| Verb::Enable { path, role }),
            7 => path_and_number(row).map(|(path, role)| Verb::Disable { path, role }),
            _ => None,
        }
    }
}
