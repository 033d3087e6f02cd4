// A step of a running job, before any room is tried: what its command brings about.
#![tactic(auto)]

mod changing;
mod copying;
mod finding;
mod recolouring;
mod running;
mod step;
mod succeeding;
mod verbs;

pub use step::{Reduced, Step};
