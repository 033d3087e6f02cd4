// The first row of a table that something is to be told of, for rows of any kind.
#![tactic(auto)]

mod judging;

pub use judging::{Judged, Stands, first_fault};
