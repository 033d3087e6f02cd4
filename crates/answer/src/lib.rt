// How an answer is written.
#![tactic(auto)]

mod answer;
mod listed;

pub use answer::{Answer, State};
pub use listed::listed_line;
