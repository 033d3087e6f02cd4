// What a step does to a tree: which edges a path finds and a pattern matches, copying what lies under them, and enabling and
// disabling a role below them.
#![tactic(auto)]

mod copies;
mod counting;
mod enabling;
mod matching;
mod paths;

pub use copies::copy_under;
pub use counting::count_found;
pub use matching::edge_matches;
pub use paths::Path;
