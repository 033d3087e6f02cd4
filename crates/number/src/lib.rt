// How a number stands in a sheet: its reader, and the laws of its spelling.
#![tactic(auto)]

mod fault;
mod reading;

pub use fault::{Cause, ReadFault};
pub use reading::{Number, Width, one_spelling, read_number};
