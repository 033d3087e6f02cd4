// Puts the lines of a sheet into the tables, one after the other: which line is out of place, which table is full, and
// what is filed.
#![tactic(auto)]

mod decoded;
mod placing;
mod putting;

pub use decoded::Row;
pub use placing::{Before, Filing, Misplaced};
