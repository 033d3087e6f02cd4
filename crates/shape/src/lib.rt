// Whether tables have shape, and if not, the first place where they have none.
#![tactic(auto)]

mod all;
mod place;
mod shelves;
mod table;
mod trees;

pub use all::shape;
pub use place::{Place, Stage};
