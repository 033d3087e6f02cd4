// The guarantee: what holds of an admitted network after any list of calls.
#![tactic(auto)]

mod admission;

pub use admission::admit;
