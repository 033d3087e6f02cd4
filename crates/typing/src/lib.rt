// The typing of commands: the first breach from a command on, as it is told.
#![tactic(auto)]

mod breach;
mod flow;
mod laws;

pub use breach::{CommandBreach, first_breach};
pub use flow::command_at;
pub use laws::typing_keeps_its_laws;
