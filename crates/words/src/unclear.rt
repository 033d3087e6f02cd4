// Why a line is not understood, or could not be read.
ghost use Rattle.std.specs.Prelude.{◌≡◌, Some};
ghost use Rattle.std.specs.Allocator.{alloc_error};
ghost use Rattle.words.specs.Showing.{reason_of, unclear_text, error_text};
ghost use Rattle.words.specs.declared.unclear.LineError.{LineError};
ghost use Rattle.words.specs.declared.unclear.LineError.TheVariants as error;

use std::alloc::{AllocError, AllocFailed};
use std::error::Error;
use std::fmt;

#[derive(Clone, Copy, Debug, PartialEq, Eq)]
pub enum Why {
    NotACommand,
    NotAnOrder,
    NotARoleCode,
    NotARoleSet,
    NeitherHexNorFile,
    NotHexadecimal,
    NotANumber,
    // The file that the word names.
    CannotBeRead,
    // What the word of a poke names, or its value, which does not fit there.
    NoSuchTable,
    NoSuchRow,
    NoSuchField,
    TooWide,
    Missing,
    TooMany,
}

impl fmt::Display for Why {
    ghost output = { λ why. Some (reason_of why) };

    fn fmt<W: fmt::Write>(&self, f: &mut fmt::Formatter<W>) -> fmt::Result {
        f.write_str(match self {
            Why::NotACommand => "no such command",
            Why::NotAnOrder => "no such order",
            Why::NotARoleCode => "not a role code",
            Why::NotARoleSet => "not a role set",
            Why::NeitherHexNorFile => "neither hex nor file",
            Why::NotHexadecimal => "not hexadecimal",
            Why::NotANumber => "not a number",
            Why::CannotBeRead => "cannot be read",
            Why::NoSuchTable => "no such table",
            Why::NoSuchRow => "no such row",
            Why::NoSuchField => "no such field",
            Why::TooWide => "too wide",
            Why::Missing => "missing",
            Why::TooMany => "too many words",
        })
    }
}

// The first word that is not understood, counted from the command, which is word 0.
#[derive(Clone, Copy, Debug, PartialEq, Eq)]
pub struct Unclear {
    pub word: usize,
    pub why: Why,
}

impl fmt::Display for Unclear {
    ghost output = { λ unclear. Some (unclear_text unclear) };

    fn fmt<W: fmt::Write>(&self, f: &mut fmt::Formatter<W>) -> fmt::Result {
        write!(f, "word {}: {}", self.word, self.why)
    }
}

impl Error for Unclear {}

// Why a line could not be read as a command.
#[derive(Clone, Copy, Debug, PartialEq, Eq)]
pub enum LineError {
    OutOfMemory(AllocError),
    Unclear(Unclear),
}

impl fmt::Display for LineError {
    ghost output = { λ e. Some (error_text e) };

    fn fmt<W: fmt::Write>(&self, f: &mut fmt::Formatter<W>) -> fmt::Result {
        match self {
            LineError::OutOfMemory(_) => f.write_str("out of memory"),
            LineError::Unclear(what) => write!(f, "{what}"),
        }
    }
}

impl Error for LineError {}

impl From<Unclear> for LineError {
    ghost from_gives = { λ unclear e. e ≡ error.Unclear unclear };

    fn from(unclear: Unclear) -> LineError {
        LineError::Unclear(unclear)
    }
}

impl From<AllocError> for LineError {
    ghost from_gives = { λ lack e. e ≡ error.OutOfMemory lack };

    fn from(lack: AllocError) -> LineError {
        LineError::OutOfMemory(lack)
    }
}

impl<T: Drop> From<AllocFailed<T>> for LineError {
    ghost from_gives = { λ _ e. e ≡ error.OutOfMemory alloc_error };

    fn from(failed: AllocFailed<T>) -> LineError {
        LineError::OutOfMemory(AllocError::from(failed))
    }
}
