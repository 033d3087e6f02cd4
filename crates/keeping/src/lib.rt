// Sound tables hold sound networks, and post, recall and a granted step keep them so.
#![tactic(auto)]

mod laws;

pub use laws::calls_keep_networks_sound;
