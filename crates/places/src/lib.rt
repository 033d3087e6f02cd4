// Where an edge stands whose number counts the edges of all locations.
#![tactic(auto)]

mod finding;

pub use finding::{Place, edge_place, edges_in};
