// Changes: the content of edges replaced, by what slots hold, by templates, or by plain contents.
#![tactic(auto)]

mod change;
mod paste;
mod putting;

pub use change::Change;
pub use paste::Paste;
