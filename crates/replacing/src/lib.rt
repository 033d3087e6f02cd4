// What a change leaves of a tree: definitions and their laws. Crate `changes` has the code.
#![tactic(auto)]

mod laws;

pub use laws::changes_keep_their_laws;
