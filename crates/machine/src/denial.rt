// Why a call on a live network is denied.
ghost use Rattle.std.specs.Prelude.{◌≡◌, Some};
ghost use Rattle.machine.specs.Denials.{refusal, missing_words, denial_words};

use commands::CommandRule;
use layout::TableKind;
use rooms::Room;
use shape::Place;
use std::error::Error;
use std::fmt;

// What a call names that is not there.
#[derive(Clone, Copy, Debug, PartialEq, Eq)]
pub enum Missing {
    Position,
    Location,
    Job,
}

impl fmt::Display for Missing {
    ghost output = { λ missing. Some (missing_words missing) };

    fn fmt<W: fmt::Write>(&self, f: &mut fmt::Formatter<W>) -> fmt::Result {
        f.write_str(match self {
            Missing::Position => "position",
            Missing::Location => "location",
            Missing::Job => "job",
        })
    }
}

#[derive(Clone, Copy, Debug, PartialEq, Eq)]
pub enum Denial {
    // The host's tables are out of shape.
    Shape(Place),
    Missing(Missing),
    // The job is not of the location's policy.
    OtherPolicy,
    // A slot of the job at this position was not filled with what its command needs.
    Unfit { position: usize },
    // A room is too small for what the call would leave.
    NoRoom(Room),
}

impl Denial {
    // The refusal's number.
    pub fn number(&self) -> u32
        ensures answer { result ≡ (refusal self.now).number }
    {
        match self {
            Denial::Shape(_) | Denial::Unfit { .. } => 11,
            Denial::Missing(_) => 8,
            Denial::OtherPolicy => 9,
            Denial::NoRoom(_) => 10,
        }
    }
}

impl fmt::Display for Denial {
    ghost output = { λ denial. Some (denial_words denial) };

    fn fmt<W: fmt::Write>(&self, f: &mut fmt::Formatter<W>) -> fmt::Result {
        match self {
            Denial::Shape(place) => {
                let table = u32::from(place.table);
                write!(f, "table {table} row {}: out of shape", place.row)
            }
            Denial::Missing(missing) => write!(f, "no such {missing}"),
            Denial::OtherPolicy => f.write_str("the job is of another policy"),
            Denial::Unfit { position } => {
                let table = u32::from(TableKind::Running);
                let rule = CommandRule::Slots.number();
                write!(f, "table {table} row {position}: breaks rule {rule}")
            }
            Denial::NoRoom(room) => write!(f, "no room {}", room.number()),
        }
    }
}

impl Error for Denial {}
