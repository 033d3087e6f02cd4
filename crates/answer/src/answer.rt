// How an answer is written: one line, without its end.
ghost use Rattle.std.specs.Prelude.{◌≡◌, Some};
ghost use Rattle.answer.specs.Showing.{state_text, edge_text, answer_text};

use dump::Field;
use rows::TreeLine;
use std::fmt;
use words::Unclear;

// What a session has of a network: none, one that is loaded, or one that is admitted.
#[derive(Clone, Copy, Debug, PartialEq, Eq)]
pub enum State {
    Blank,
    Draft,
    Live,
}

impl fmt::Display for State {
    ghost output = { λ state. Some (state_text state) };

    fn fmt<W: fmt::Write>(&self, f: &mut fmt::Formatter<W>) -> fmt::Result {
        f.write_str(match self {
            State::Blank => "blank",
            State::Draft => "draft",
            State::Live => "live",
        })
    }
}

// An edge, as it is shown.
#[derive(Clone, Copy, Debug)]
struct EdgeText(TreeLine);

impl fmt::Display for EdgeText {
    ghost output = { λ edge. Some (edge_text edge.0) };

    fn fmt<W: fmt::Write>(&self, f: &mut fmt::Formatter<W>) -> fmt::Result {
        let TreeLine {
            depth,
            label,
            set,
            content,
            first,
            second,
        } = self.0;
        let set = Field::Set(set);
        write!(f, "edge {depth} {label} {set} {content} {first} {second}")
    }
}

// What is printed: a refusal tells its number as other programs read it, whatever the number is.
#[derive(Clone, Copy, Debug, PartialEq, Eq)]
pub enum Answer {
    Ok,
    Yes,
    No,
    // The pair at this place, counted from 0, was not drawn.
    PairRefused {
        number: u32,
        pair: usize,
    },
    // The order is not one that is drawn.
    NotDrawn {
        number: u32,
    },
    // So many lines were listed or loaded, or so many jobs admitted.
    Count {
        count: usize,
    },
    // A line of a sheet could not be read, from this byte of the sheet on.
    ReadRefused {
        number: u32,
        line: usize,
        byte: usize,
    },
    // A line of a sheet was read and could not be loaded.
    LineRefused {
        number: u32,
        line: usize,
    },
    // A row of a table has no shape, or breaks this rule.
    BreachRefused {
        number: u32,
        table: u32,
        row: usize,
        rule: u32,
    },
    // What the call names is not there.
    NoPosition {
        number: u32,
    },
    NoLocation {
        number: u32,
    },
    NoJob {
        number: u32,
    },
    // The job is of another policy than the location.
    OtherPolicy {
        number: u32,
    },
    NoRoom {
        number: u32,
        room: u32,
    },
    // An edge that was asked for, and that nothing is shown or found.
    Edge(TreeLine),
    Nothing,
    // A row of a table has no shape, or breaks this rule: what an audit finds.
    Fault {
        table: u32,
        row: usize,
        rule: u32,
    },
    // The command does not fit what the session has.
    NotNow(State),
    Unclear(Unclear),
}

impl fmt::Display for Answer {
    ghost output = { λ a. Some (answer_text a) };

    fn fmt<W: fmt::Write>(&self, f: &mut fmt::Formatter<W>) -> fmt::Result {
        match self {
            Answer::Ok => f.write_str("ok"),
            Answer::Yes => f.write_str("yes"),
            Answer::No => f.write_str("no"),
            Answer::PairRefused { number, pair } => write!(f, "refused {number} pair {pair}"),
            Answer::NotDrawn { number } => write!(f, "refused {number} not drawn"),
            Answer::Count { count } => write!(f, "ok {count}"),
            Answer::ReadRefused { number, line, byte } => {
                write!(f, "refused {number} line {line} byte {byte}")
            }
            Answer::LineRefused { number, line } => write!(f, "refused {number} line {line}"),
            Answer::BreachRefused {
                number,
                table,
                row,
                rule,
            } => write!(f, "refused {number} table {table} row {row} rule {rule}"),
            Answer::NoPosition { number } => write!(f, "refused {number} position"),
            Answer::NoLocation { number } => write!(f, "refused {number} location"),
            Answer::NoJob { number } => write!(f, "refused {number} job"),
            Answer::OtherPolicy { number } => write!(f, "refused {number}"),
            Answer::NoRoom { number, room } => write!(f, "refused {number} room {room}"),
            Answer::Edge(line) => write!(f, "{}", EdgeText(*line)),
            Answer::Nothing => f.write_str("nothing"),
            Answer::Fault { table, row, rule } => {
                write!(f, "fault table {table} row {row} rule {rule}")
            }
            Answer::NotNow(state) => write!(f, "? not now: {state}"),
            Answer::Unclear(unclear) => write!(f, "? {unclear}"),
        }
    }
}
