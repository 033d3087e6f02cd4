// What is written, and where.
ghost use Rattle.poke.specs.Rows.{StandsFor};

// A value, and the numbers of its table, row and field. The row 4294967295 stands for the number of rows in use.
#[derive(Clone, Copy, Debug, PartialEq, Eq)]
pub struct Poke {
    pub table: u32,
    pub row: u32,
    pub field: u32,
    pub value: u64,
}

// A table's number of rows in use, or one of its rows.
#[derive(Clone, Copy, Debug, PartialEq, Eq)]
pub(crate) enum Row {
    Count,
    At(usize),
}

impl From<u32> for Row {
    ghost from_gives = { StandsFor };

    fn from(row: u32) -> Row {
        match row {
            u32::MAX => Row::Count,
            _ => Row::At(row as usize),
        }
    }
}
