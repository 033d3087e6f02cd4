// Commands: a continuation is a later command, and no command is named as one twice.
ghost use Rattle.std.specs.Prelude.{◌≡◌, true, slice_set};
ghost use Rattle.standing.specs.declared.commands.Named.{Named};
ghost use Rattle.meaning.specs.Decoding.{verb_of};
ghost use Rattle.standing.specs.Tests.{given, none_named, operand_stands, verb_stands, other_way, onward, continues, command_passes, named_after};

use super::lines::content_stands;
use super::sizes::Sizes;
use meaning::{Operand, Verb};
use order::in_use_of;
use rows::CommandRow;
use scan::Judged;

// Which commands the rows before have named as continuations. There is no heap for a set.
#[derive(Clone, Copy, Debug, PartialEq, Eq)]
pub struct Named {
    pub flags: [bool; 256],
}

fn operand_stands(rows: usize, operand: Operand) -> bool
    ensures answer { result ≡ operand_stands rows operand }
{
    match operand {
        Operand::Row(row) => (row as usize) < rows,
        Operand::Slot(slot) => slot < 6,
    }
}

fn verb_stands(names: &Sizes, verb: Verb) -> bool
    ensures answer { result ≡ verb_stands names.now verb }
{
    match verb {
        Verb::Fork { .. } => true,
        Verb::Go { location, roles } => {
            operand_stands(names.locations, location) && in_use_of(names.roles, roles)
        }
        Verb::Run { path } => operand_stands(names.paths, path),
        Verb::Read { path, pattern } => {
            operand_stands(names.paths, path) && (pattern as usize) < names.patterns
        }
        Verb::Change {
            path,
            pattern,
            content,
        } => {
            operand_stands(names.paths, path)
                && (pattern as usize) < names.patterns
                && content_stands(names, content)
        }
        Verb::Enable { path, role } | Verb::Disable { path, role } => {
            operand_stands(names.paths, path) && role < names.roles
        }
    }
}

// A fork's other continuation, 0 for the other verbs, as 0 stands for none in a row's own continuation.
fn other_way(row: CommandRow) -> u32
    ensures answer { result ≡ other_way row }
{
    match Verb::decode(row) {
        Some(Verb::Fork { other }) => other,
        _ => 0,
    }
}

// A continuation of the command in this row: none, or a later command that no row before has named. Commands are numbered
// from 1, rows from 0.
fn onward(names: &Sizes, before: &Named, row: usize, to: u32) -> bool
    ensures answer { result ≡ onward names.now before.now row to }
{
    let to = to as usize;
    to == 0 || (row < to - 1 && to <= names.commands && to < 256 && !before.flags[to])
}

fn continues(names: &Sizes, before: &Named, row: usize, command: CommandRow) -> bool
    ensures answer { result ≡ continues names.now before.now row command }
{
    let other = other_way(command);
    onward(names, before, row, command.next)
        && onward(names, before, row, other)
        && (other == 0 || other != command.next)
}

fn known(names: &Sizes, row: CommandRow) -> bool
    ensures answer { result ≡ given (verb_of row) (verb_stands names.now) }
{
    Verb::decode(row).is_some_and(|verb| verb_stands(names, verb))
}

// With `get_mut` in place of the test the goals stayed open.
fn mark(flags: &mut [bool; 256], to: u32)
    ensures after { flags.new ≡ slice_set flags.old to true }
{
    if to < 256 {
        flags[to as usize] = true;
    }
}

impl Judged<Sizes> for CommandRow {
    type Before = Named;

    ghost first = { none_named };

    ghost passes = { command_passes };

    ghost after = { named_after };

    fn before_all() -> Named {
        Named {
            flags: [false; 256],
        }
    }

    fn passes(&self, names: &Sizes, before: &Named, row: usize) -> bool {
        known(names, *self) && continues(names, before, row, *self)
    }

    fn note(&self, before: &mut Named) {
        mark(&mut before.flags, self.next);
        mark(&mut before.flags, other_way(*self));
    }
}
