// The host's memory: tables of fixed size, and the network that they hold.
#![tactic(auto)]

mod held;
mod kind;
mod memory;
mod sizing;
mod zeroed;

pub use held::{NoRoom, Table};
pub use kind::{TableKind, UnknownTable};
pub use memory::{RunningRow, Shelf, Slot, Tables};
pub use sizing::sized;
pub use zeroed::blank;
