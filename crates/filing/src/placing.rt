// Files a line: first whether it is in its place, then whether there is room for it.
ghost use Rattle.std.specs.Prelude.{◌≡◌, ◌-◌, Some, length, slice_get};
ghost use Rattle.layout.specs.Network.{network, Holds};
ghost use Rattle.filing.specs.declared.placing.Misplaced.TheVariants.{Full};
ghost use Rattle.filing.specs.Filing.{runs_on, in_place, behind, placed, before_after, network_after, misplaced_words};

use super::decoded::Row;
use super::putting::put;
use layout::{NoRoom, Tables};
use rows::next_number;
use std::error::Error;
use std::fmt;

// What is known of the lines before: the number of the last one's kind, and the location of the last edge; 0 before the
// first. Whoever files a line may say any two numbers here, so the kind is not an enum.
#[derive(Clone, Copy, Debug, Default, PartialEq, Eq)]
pub struct Before {
    pub kind: u32,
    pub location: u32,
}

// Why a line is not filed.
#[derive(Clone, Copy, Debug, PartialEq, Eq)]
pub enum Misplaced {
    // It should stand earlier or later, or what it speaks of does not stand before it.
    OutOfPlace,
    // Its table has no row left, or there is no path or template of that number.
    Full,
}

impl From<NoRoom> for Misplaced {
    ghost from_gives = { λ _ why. why ≡ Full };

    fn from(_full: NoRoom) -> Self {
        Self::Full
    }
}

impl fmt::Display for Misplaced {
    ghost output = { λ why. Some (misplaced_words why) };

    fn fmt<W: fmt::Write>(&self, f: &mut fmt::Formatter<W>) -> fmt::Result {
        f.write_str(match self {
            Misplaced::OutOfPlace => "the line is out of place",
            Misplaced::Full => "the line's table is full, or its path or template is one too many",
        })
    }
}

impl Error for Misplaced {}

// Paths and templates are numbered without a gap: the number is that of the line before, or one more.
fn runs_on(number: u32, count: usize) -> bool
    ensures answer { result ≡ runs_on number count }
{
    let number = number as usize;
    number == count || number + 1 == count
}

fn in_place(tables: &Tables, before: Before, row: Row) -> bool
    ensures answer { result ≡ in_place before (network tables.now) row }
{
    if u32::from(row.kind()) < before.kind {
        return false;
    }
    match row {
        Row::PathStep(step) => runs_on(step.path, next_number(tables.steps.in_use())),
        Row::Edge(edge) => {
            (edge.location as usize) < tables.locations.in_use().len()
                && before.location <= edge.location
        }
        Row::TemplateLine(line) => {
            runs_on(line.template, next_number(tables.templates.in_use()))
        }
        Row::Policy(_)
        | Row::Grant(_)
        | Row::Location(_)
        | Row::Pattern(_)
        | Row::Command(_)
        | Row::Job(_) => true,
    }
}

impl Before {
    // What is known behind the row.
    fn after(self, row: Row) -> Before
        ensures answer { result ≡ behind self row }
    {
        let location = match row {
            Row::Edge(edge) => edge.location,
            _ => self.location,
        };
        Before {
            kind: u32::from(row.kind()),
            location,
        }
    }
}

// Tables that are filled line by line, and what is known of the lines before. They hold a network, and nothing else.
#[derive(Drop)]
pub struct Filing<'a> {
    pub(crate) tables: &'a mut Tables,
    pub(crate) before: Before,
    ghost holds: { Holds tables.now (network tables.now) },
}

impl<'a> Filing<'a> {
    // The tables as they are.
    pub fn new(tables: &'a mut Tables, before: Before) -> Filing<'a>
        requires holds { Holds tables.old (network tables.old) }
        ensures same_reference { result.tables.ghost_name ≡ tables.entry.ghost_name }
        ensures tables { result.tables.now ≡ tables.old }
        ensures before { result.before ≡ before }
    {
        Filing { tables, before }
    }

    // The row goes behind the last one of its table, and an edge behind the last one of its location, and what is then known
    // is answered; or all stays as it is.
    pub fn file(&mut self, row: Row) -> Result<Before, Misplaced>
        ensures same_reference { self.new.tables.ghost_name ≡ self.old.tables.ghost_name }
        ensures answer { result ≡ placed self.old.before (network self.old.tables.now) row }
        ensures before { self.new.before ≡ before_after self.old.before (placed self.old.before (network self.old.tables.now) row) }
        ensures after { Holds self.new.tables.now (network_after (placed self.old.before (network self.old.tables.now) row) (network self.old.tables.now) row) }
    {
        if !in_place(self.tables, self.before, row) {
            return Err(Misplaced::OutOfPlace);
        }
        put(self.tables, row)?;
        self.before = self.before.after(row);
        Ok(self.before)
    }
}
