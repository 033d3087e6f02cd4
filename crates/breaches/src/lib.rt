// The first breach of the typing rules in a network: of what a sheet says, and of the running jobs.
#![tactic(auto)]

mod breach;
mod ground;
mod jobs;
mod judging;
mod running;
mod whole;

pub use breach::{Rule, RuleBreach};
pub use running::running_standing;
pub use whole::{rules_breach, running_breach};
