// Admission: a draft that has shape and obeys the typing rules becomes a live network.
#![tactic(auto)]

mod admission;
mod fault;
mod judging;
mod live;

pub use admission::{admit, close};
pub use fault::Fault;
pub use judging::live_fault;
pub use live::Live;
