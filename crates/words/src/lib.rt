// What a line of the console's input says.
#![tactic(auto)]

mod argument;
mod cut;
mod hex;
mod laws;
mod line;
mod named;
mod read;
mod spelled;
mod unclear;

pub use laws::reads_back;
pub use line::{Call, Command, OrderKind, Sheet};
pub use read::read_line;
pub use unclear::{LineError, Unclear, Why};
