// Rows that are all zero: what stands behind the last row of a table.
#![tactic(auto)]

mod zeroed;

pub use zeroed::{DefaultIsZero, Zeroed, first_written};
