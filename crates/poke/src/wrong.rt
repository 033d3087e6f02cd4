// What can be wrong with a poke.
ghost use Rattle.std.specs.Prelude.{◌≡◌, Some};
ghost use Rattle.poke.specs.declared.wrong.Wrong.TheVariants.{Table, Value};
ghost use Rattle.poke.specs.Wrongs.{wrong_text};

use layout::UnknownTable;
use std::error::Error;
use std::fmt;
use std::num::TryFromIntError;

// The first of its numbers that names nothing that is there; the value, if it is too wide.
#[derive(Clone, Copy, Debug, PartialEq, Eq)]
pub enum Wrong {
    Table,
    Row,
    Field,
    Value,
}

impl fmt::Display for Wrong {
    ghost output = { λ wrong. Some (wrong_text wrong) };

    fn fmt<W: fmt::Write>(&self, f: &mut fmt::Formatter<W>) -> fmt::Result {
        f.write_str(match self {
            Wrong::Table => "no table has this number",
            Wrong::Row => "the table has no such row",
            Wrong::Field => "the row has no such field",
            Wrong::Value => "the value is too wide for its field",
        })
    }
}

impl Error for Wrong {}

impl From<UnknownTable> for Wrong {
    ghost from_gives = { λ _ wrong. wrong ≡ Table };

    fn from(_: UnknownTable) -> Self {
        Self::Table
    }
}

impl From<TryFromIntError> for Wrong {
    ghost from_gives = { λ _ wrong. wrong ≡ Value };

    fn from(_: TryFromIntError) -> Self {
        Self::Value
    }
}
