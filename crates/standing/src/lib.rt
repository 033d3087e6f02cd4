// Whether a row can stand in its table: what it names exists, its fields keep their limits, and it follows from the rows
// before it.
#![tactic(auto)]

mod commands;
mod lines;
mod running;
mod sizes;
mod steps;
mod tables;

pub use commands::Named;
pub use lines::{LineBefore, LinesBefore};
pub use running::Fillings;
pub use sizes::{Sizes, sizes_of};
pub use steps::StepsBefore;
