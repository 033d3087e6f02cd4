// The rules that grants and trees obey: which roles a disable may name, and which sets and scripts may lie where.
#![tactic(auto)]

mod grants;
mod laws;
mod matching;
mod trees;

pub use grants::grant_breach;
pub use laws::trees_keep_their_laws;
pub use matching::TreePattern;
pub use trees::{Breach, Policy, Rule};
