// What a step leaves, before any room is counted, and the rooms that are tried on it.
#![tactic(auto)]

mod beginning;
mod filled;
mod growing;
mod leaving;
mod room;
mod scratch;

pub use filled::Filled;
pub use leaving::left;
pub use room::Room;
pub use scratch::Scratch;
