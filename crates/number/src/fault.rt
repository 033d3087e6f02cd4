// Why a sheet cannot be read on.
ghost use Rattle.std.specs.Prelude.{◌≡◌, Some};
ghost use Rattle.number.specs.Faults.{number_of, refusal, cause_words, fault_words};

use std::error::Error;
use std::fmt;

#[derive(Clone, Copy, Debug, PartialEq, Eq)]
pub enum Cause {
    // The sheet ends inside a line.
    Ends,
    // A number is too long or too large, or not in the fewest bytes.
    TooLarge,
    // No line has this kind.
    UnknownKind,
}

// The cause, and the byte that settles it; where the sheet ends, its length.
#[derive(Clone, Copy, Debug, PartialEq, Eq)]
pub struct ReadFault {
    pub cause: Cause,
    pub byte: usize,
}

impl Cause {
    // The fault that this cause makes at the byte.
    pub(crate) fn at(self, byte: usize) -> ReadFault
        ensures answer { result ≡ record { cause = self; byte = byte } }
    {
        ReadFault { cause: self, byte }
    }
}

impl ReadFault {
    // The refusal's number.
    pub fn number(&self) -> u32
        ensures answer { result ≡ (refusal self.now).number }
    {
        match self.cause {
            Cause::Ends => 1,
            Cause::TooLarge => 2,
            Cause::UnknownKind => 3,
        }
    }
}

impl fmt::Display for Cause {
    ghost output = { λ cause. Some (cause_words cause) };

    fn fmt<W: fmt::Write>(&self, f: &mut fmt::Formatter<W>) -> fmt::Result {
        f.write_str(match self {
            Cause::Ends => "the sheet ends inside a line",
            Cause::TooLarge => "a number is too long or too large, or not in the fewest bytes",
            Cause::UnknownKind => "unknown kind",
        })
    }
}

impl fmt::Display for ReadFault {
    ghost output = { λ fault. Some (fault_words fault) };

    fn fmt<W: fmt::Write>(&self, f: &mut fmt::Formatter<W>) -> fmt::Result {
        write!(f, "{} at byte {}", self.cause, self.byte)
    }
}

impl Error for ReadFault {}
