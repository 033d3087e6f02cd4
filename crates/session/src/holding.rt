// The network that a session has, by its state.
ghost use Rattle.std.specs.Prelude.{◌≡◌};
ghost use Rattle.answer.specs.declared.answer.Answer.TheVariants as answer;
ghost use Rattle.session.specs.Holding.{state_of, load_fault_answer, fault_answer, LoadsHere, AdmitsHere, ClosesHere, StartsOver};

use super::between::Standing;
use answer::{Answer, State};
use layout::{Tables, blank};
use rules::{Fault, Live};
use tables::{Blank, Draft, LoadFault, load};

pub enum Holding {
    Blank(Blank),
    Draft(Draft),
    Live(Live),
}

fn load_refused(fault: LoadFault) -> Answer
    ensures answer { result ≡ load_fault_answer fault }
{
    let number = fault.number();
    match fault {
        LoadFault::Unreadable { line, fault } => Answer::ReadRefused {
            number,
            line,
            byte: fault.byte,
        },
        LoadFault::OutOfPlace { line } | LoadFault::Full { line } => {
            Answer::LineRefused { number, line }
        }
    }
}

// A breach of shape is told as rule 0.
fn refused(fault: Fault) -> Answer
    ensures answer { result ≡ fault_answer fault }
{
    let number = fault.number();
    match fault {
        Fault::Shape(place) => Answer::BreachRefused {
            number,
            table: u32::from(place.table),
            row: place.row,
            rule: 0,
        },
        Fault::Rule(breach) => Answer::BreachRefused {
            number,
            table: u32::from(breach.table),
            row: breach.row,
            rule: breach.rule.number(),
        },
    }
}

impl Holding {
    pub(crate) fn state(&self) -> State
        ensures answer { result ≡ state_of self.now }
    {
        match self {
            Holding::Blank(_) => State::Blank,
            Holding::Draft(_) => State::Draft,
            Holding::Live(_) => State::Live,
        }
    }

    // The command does not fit the state.
    fn not_now(self) -> (Holding, Answer)
        ensures answer { result ≡ (self, answer.NotNow (state_of self)) }
    {
        let state = self.state();
        (self, Answer::NotNow(state))
    }

    pub(crate) fn load(self, tables: &mut Tables, sheet: &[u8]) -> (Holding, Answer)
        ensures answer { LoadsHere self tables.old sheet.now result.1 result.0 tables.new }
    {
        match self {
            Holding::Blank(blank) => match load(blank, tables, sheet) {
                Ok((draft, count)) => (Holding::Draft(draft), Answer::Count { count }),
                Err((blank, fault)) => (Holding::Blank(blank), load_refused(fault)),
            },
            other => other.not_now(),
        }
    }

    pub(crate) fn admit(self, order: &Standing, tables: &Tables) -> (Holding, Answer)
        ensures answer { AdmitsHere order.now self tables.now result.1 result.0 }
    {
        match self {
            Holding::Draft(draft) => match order.admit(draft, tables) {
                Ok((live, count)) => (Holding::Live(live), Answer::Count { count }),
                Err((draft, fault)) => (Holding::Draft(draft), refused(fault)),
            },
            other => other.not_now(),
        }
    }

    pub(crate) fn close(self, tables: &mut Tables) -> (Holding, Answer)
        ensures answer { ClosesHere self tables.old result.1 result.0 tables.new }
    {
        match self {
            Holding::Draft(draft) => (Holding::Blank(tables::close(draft, tables)), Answer::Ok),
            Holding::Live(live) => (Holding::Blank(rules::close(live, tables)), Answer::Ok),
            other => other.not_now(),
        }
    }

    // Blank tables, whatever there was.
    pub(crate) fn start_over(self, tables: &mut Tables) -> Holding
        ensures answer { StartsOver self result tables.new }
    {
        match self {
            Holding::Blank(kept) => {
                // A faulty host may have written into blank tables.
                *tables = blank();
                Holding::Blank(kept)
            }
            Holding::Draft(draft) => Holding::Blank(tables::close(draft, tables)),
            Holding::Live(live) => Holding::Blank(rules::close(live, tables)),
        }
    }

    // No network more: for a session that ends.
    pub(crate) fn spend(self) {
        match self {
            Holding::Blank(blank) => {
                blank.spend();
            }
            Holding::Draft(draft) => {
                draft.spend();
            }
            Holding::Live(live) => {
                live.spend();
            }
        }
    }
}
