// The rules of one command: a verb at a policy, with roles and slots.
#![tactic(auto)]

mod rule;
mod rules;
mod standing;
mod works;

pub use rule::CommandRule;
pub use standing::Standing;
pub use works::Commands;
