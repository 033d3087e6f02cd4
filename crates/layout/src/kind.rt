// The tables by their kinds, as they are told and poked.
ghost use Rattle.std.specs.Prelude.{◌≡◌, Some};
ghost use Rattle.layout.specs.Kinds.{TellsTable, number_of, unknown_words};

use sheet::LineKind;
use std::error::Error;
use std::fmt;

// The running list, the rows of a kind of lines (edges over all locations), or the shelf.
#[derive(Clone, Copy, Debug, PartialEq, Eq)]
pub enum TableKind {
    Running,
    Lines(LineKind),
    Shelf,
}

// A number that no table has.
#[derive(Clone, Copy, Debug, PartialEq, Eq)]
pub struct UnknownTable(pub u32);

// The table that a number stands for.
impl TryFrom<u32> for TableKind {
    type Error = UnknownTable;

    ghost try_from_gives = { TellsTable };

    fn try_from(number: u32) -> Result<Self, UnknownTable> {
        match number {
            0 => Ok(TableKind::Running),
            255 => Ok(TableKind::Shelf),
            _ => LineKind::try_from(u64::from(number))
                .map(TableKind::Lines)
                .map_err(|_| UnknownTable(number)),
        }
    }
}

// The table's number.
impl From<TableKind> for u32 {
    ghost from_gives = { λ table number. number ≡ number_of table };

    fn from(table: TableKind) -> u32 {
        match table {
            TableKind::Running => 0,
            TableKind::Lines(kind) => u32::from(kind),
            TableKind::Shelf => 255,
        }
    }
}

impl fmt::Display for UnknownTable {
    ghost output = { λ unknown. Some (unknown_words unknown) };

    fn fmt<W: fmt::Write>(&self, f: &mut fmt::Formatter<W>) -> fmt::Result {
        write!(f, "no table has number {}", self.0)
    }
}

impl Error for UnknownTable {}
