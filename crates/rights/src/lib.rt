// The rights order, which tanks use: a role is a set of six rights, and each right brings others.
#![tactic(auto)]

mod bringing;

pub use bringing::{Rights, test_says_among};
