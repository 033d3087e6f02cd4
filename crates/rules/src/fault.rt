// Why a draft is not admitted, and what an audit finds.
ghost use Rattle.std.specs.Prelude.{◌≡◌, Some};
ghost use Rattle.rules.specs.Faults.{refusal, fault_words};

use breaches::RuleBreach;
use shape::Place;
use std::error::Error;
use std::fmt;

// A place where the tables have no shape, or a row that breaks a typing rule.
#[derive(Clone, Copy, Debug, PartialEq, Eq)]
pub enum Fault {
    Shape(Place),
    Rule(RuleBreach),
}

impl Fault {
    // The refusal's number.
    pub fn number(&self) -> u32
        ensures answer { result ≡ (refusal self.now).number }
    {
        match self {
            Fault::Shape(_) => 6,
            Fault::Rule(_) => 7,
        }
    }
}

impl fmt::Display for Fault {
    ghost output = { λ fault. Some (fault_words fault) };

    fn fmt<W: fmt::Write>(&self, f: &mut fmt::Formatter<W>) -> fmt::Result {
        match self {
            Fault::Shape(place) => {
                let table = u32::from(place.table);
                write!(f, "table {table} row {}: out of shape", place.row)
            }
            Fault::Rule(breach) => {
                let table = u32::from(breach.table);
                let rule = breach.rule.number();
                write!(f, "table {table} row {}: breaks rule {rule}", breach.row)
            }
        }
    }
}

impl Error for Fault {}
