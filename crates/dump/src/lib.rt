// The text of what the tables hold, line by line.
#![tactic(auto)]

mod dumping;
mod field;
mod lines;
mod listed;

pub use dumping::dump;
pub use field::Field;

#[cfg(test)]
mod tests;
