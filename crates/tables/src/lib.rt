// Loads a sheet into the host's tables. A state is a small value that is moved from call to call, and goes with tables.
#![tactic(auto)]

mod blank_state;
mod closing;
mod draft_state;
mod fault;
mod lines;
mod loading;

pub use blank_state::Blank;
pub use closing::close;
pub use draft_state::Draft;
pub use fault::LoadFault;
pub use layout::Tables;
pub use loading::load;
