// The edges of a tree: which lie over which, which a path finds, and what enabling and disabling a role leaves. Definitions
// and their laws; crate `trees` has the code.
#![tactic(auto)]

mod laws;

pub use laws::{
    disabling_keeps_its_laws, edges_keep_their_laws, enabling_keeps_its_laws, flags_name_rows,
    paths_open, patterns_open,
};
