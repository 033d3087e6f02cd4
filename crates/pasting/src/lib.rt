// What a change may paste: contents whose slots fit, and that obey the policy of the place.
#![tactic(auto)]

mod fitting;
mod place;
mod policies;
mod templates;

pub use fitting::content_fits;
pub use place::Place;
pub use policies::{has_job, least_of, policy_of};
pub use templates::template_lines;
