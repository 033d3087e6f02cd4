// What a running job's operands and slots name, as the tables have it.
#![tactic(auto)]

mod contents;
mod filling;
mod operands;
mod starting;

pub use contents::pastes;
pub use filling::filled_slots;
pub use operands::{named, path_steps};
pub use starting::started;
