// The successors of a job that makes a step, and the trees that it copies, put behind what is there.
#![tactic(auto)]

mod going;
mod reading;
mod starting;

pub use going::go_on;
pub use reading::Reading;
pub use starting::start_scripts;
