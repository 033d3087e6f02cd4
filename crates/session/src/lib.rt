// A console session: the order in force, what it has of a network, and what each line of input is answered.
#![tactic(auto)]

mod answers;
mod between;
mod calls;
mod holding;

pub use between::{Reply, Session};
