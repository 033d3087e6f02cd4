// Drawn orders: the order that presses use, drawn from pairs of roles.
#![tactic(auto)]

mod drawing;
mod rows;

pub use drawing::DrawFault;
pub use rows::Drawn;
