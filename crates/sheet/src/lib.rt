// The sheet: the binary form in which an office files a whole house, and a reader that goes over it without copying it.
#![tactic(auto)]

mod finding;
mod frame;
mod kinds;
mod laws;
mod line;
mod reading;

pub use frame::{Frame, Reader};
pub use kinds::{LineKind, UnknownKind};
pub use laws::sheet_laws;
pub use line::{Line, PlacedLine};
