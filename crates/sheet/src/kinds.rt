// The kinds of lines.
ghost use Rattle.std.specs.Prelude.{◌≡◌, Some};
ghost use Rattle.sheet.specs.Kinds.{TellsKind, code_of, unknown_words, widths};

use number::Width;
use number::Width::{Narrow, Wide};
use std::error::Error;
use std::fmt;

#[derive(Clone, Copy, Debug, PartialEq, Eq, PartialOrd, Ord)]
pub enum LineKind {
    Policy,
    Grant,
    Location,
    PathStep,
    Edge,
    TemplateLine,
    Pattern,
    Command,
    Job,
}

// A number that no kind has.
#[derive(Clone, Copy, Debug, PartialEq, Eq)]
pub struct UnknownKind(pub u64);

// The kind that a number stands for in a sheet.
impl TryFrom<u64> for LineKind {
    type Error = UnknownKind;

    ghost try_from_gives = { TellsKind };

    fn try_from(code: u64) -> Result<Self, UnknownKind> {
        match code {
            1 => Ok(LineKind::Policy),
            2 => Ok(LineKind::Grant),
            3 => Ok(LineKind::Location),
            4 => Ok(LineKind::PathStep),
            5 => Ok(LineKind::Edge),
            6 => Ok(LineKind::TemplateLine),
            7 => Ok(LineKind::Pattern),
            8 => Ok(LineKind::Command),
            9 => Ok(LineKind::Job),
            _ => Err(UnknownKind(code)),
        }
    }
}

// The kind's number in a sheet.
impl From<LineKind> for u32 {
    ghost from_gives = { λ kind code. code ≡ code_of kind };

    fn from(kind: LineKind) -> u32 {
        match kind {
            LineKind::Policy => 1,
            LineKind::Grant => 2,
            LineKind::Location => 3,
            LineKind::PathStep => 4,
            LineKind::Edge => 5,
            LineKind::TemplateLine => 6,
            LineKind::Pattern => 7,
            LineKind::Command => 8,
            LineKind::Job => 9,
        }
    }
}

impl fmt::Display for UnknownKind {
    ghost output = { λ unknown. Some (unknown_words unknown) };

    fn fmt<W: fmt::Write>(&self, f: &mut fmt::Formatter<W>) -> fmt::Result {
        write!(f, "no kind of line has number {}", self.0)
    }
}

impl Error for UnknownKind {}

impl LineKind {
    // The widths of the line's fields, in their order.
    pub fn widths(self) -> &'static [Width]
        ensures answer { result.now ≡ widths self }
    {
        match self {
            LineKind::Policy => &[Wide],
            LineKind::Grant => &[Narrow, Narrow, Wide, Narrow],
            LineKind::Location => &[Narrow],
            LineKind::PathStep => &[Narrow, Narrow, Wide],
            LineKind::Edge => &[Narrow, Narrow, Narrow, Wide, Narrow, Narrow, Narrow],
            LineKind::TemplateLine => &[Narrow, Narrow, Narrow, Wide, Narrow, Narrow, Narrow],
            LineKind::Pattern => &[Narrow, Narrow, Narrow, Wide, Wide],
            LineKind::Command => &[Narrow, Narrow, Narrow, Narrow, Wide, Narrow, Narrow, Narrow],
            LineKind::Job => &[Narrow, Wide, Narrow],
        }
    }
}
