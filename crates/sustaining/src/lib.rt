// A step of a running job keeps the network sound: laws of the reduction, for the layers above.
#![tactic(auto)]

mod laws;

pub use laws::steps_keep_their_laws;
