// Writes one number of the host's tables, as a faulty host would.
#![tactic(auto)]

mod cells;
mod edges;
mod poking;
mod shelved;
mod table;
mod writing;
mod wrong;

pub use poking::Poke;
pub use writing::poke;
pub use wrong::Wrong;
