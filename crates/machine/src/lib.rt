// The calls on a live network.
#![tactic(auto)]

mod auditing;
mod denial;
mod moving;
mod posting;
mod recalling;
mod showing;

pub use auditing::{FaultRecord, audit};
pub use denial::{Denial, Missing};
pub use moving::step;
pub use posting::post;
pub use recalling::recall;
pub use showing::show;
