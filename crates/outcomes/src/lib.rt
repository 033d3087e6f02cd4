// The lines of a tree as they come out of a change, before any room is counted.
#![tactic(auto)]

mod outcome;

pub use outcome::Outcome;
