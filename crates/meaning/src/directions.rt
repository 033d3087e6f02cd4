// What a grant lets its holders do.
ghost use Rattle.std.specs.Prelude.{Some};
ghost use Rattle.meaning.specs.Directions.{TellsDirection, unknown_words};

use std::error::Error;
use std::fmt;

#[derive(Clone, Copy, Debug, PartialEq, Eq)]
pub enum Direction {
    Enable,
    Disable,
}

// A number that no direction has.
#[derive(Clone, Copy, Debug, PartialEq, Eq)]
pub struct UnknownDirection(pub u32);

// The direction that a grant's number stands for.
impl TryFrom<u32> for Direction {
    type Error = UnknownDirection;

    ghost try_from_gives = { TellsDirection };

    fn try_from(number: u32) -> Result<Self, UnknownDirection> {
        match number {
            0 => Ok(Direction::Enable),
            1 => Ok(Direction::Disable),
            _ => Err(UnknownDirection(number)),
        }
    }
}

impl fmt::Display for UnknownDirection {
    ghost output = { λ unknown. Some (unknown_words unknown) };

    fn fmt<W: fmt::Write>(&self, f: &mut fmt::Formatter<W>) -> fmt::Result {
        write!(f, "no direction has number {}", self.0)
    }
}

impl Error for UnknownDirection {}
