// Why a sheet is not loaded.
ghost use Rattle.std.specs.Prelude.{◌≡◌, Some};
ghost use Rattle.tables.specs.Faults.{refusal, fault_at, load_words};

use filing::Misplaced;
use number::ReadFault;
use std::error::Error;
use std::fmt;

// Lines are counted from 0. What keeps a line from being filed does not know the line, so the two cases stand here again.
#[derive(Clone, Copy, Debug, PartialEq, Eq)]
pub enum LoadFault {
    // The reader cannot read the line.
    Unreadable { line: usize, fault: ReadFault },
    // The line should stand earlier or later, or what it speaks of does not stand before it.
    OutOfPlace { line: usize },
    // The line's table has no row left, or there is no path or template of that number.
    Full { line: usize },
}

impl LoadFault {
    // The refusal's number.
    pub fn number(&self) -> u32
        ensures answer { result ≡ (refusal self.now).number }
    {
        match self {
            LoadFault::Unreadable { line: _, fault } => fault.number(),
            LoadFault::OutOfPlace { line: _ } => 5,
            LoadFault::Full { line: _ } => 4,
        }
    }

    // The fault of a line that was not filed.
    pub(crate) fn at(line: usize, why: Misplaced) -> LoadFault
        ensures answer { result ≡ fault_at line why }
    {
        match why {
            Misplaced::OutOfPlace => LoadFault::OutOfPlace { line },
            Misplaced::Full => LoadFault::Full { line },
        }
    }
}

impl fmt::Display for LoadFault {
    ghost output = { λ fault. Some (load_words fault) };

    fn fmt<W: fmt::Write>(&self, f: &mut fmt::Formatter<W>) -> fmt::Result {
        match self {
            LoadFault::Unreadable { line, fault } => write!(f, "line {line}: {fault}"),
            LoadFault::OutOfPlace { line } => write!(f, "line {line}: {}", Misplaced::OutOfPlace),
            LoadFault::Full { line } => write!(f, "line {line}: {}", Misplaced::Full),
        }
    }
}

impl Error for LoadFault {}
