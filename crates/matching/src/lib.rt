// Whether filled slots match their parts of the patterns that filled them.
#![tactic(auto)]

mod laws;
mod shelves;
mod values;

pub use laws::matching_keeps_its_laws;
pub use shelves::shelved;
pub use values::Values;
