// Of what obeys nothing is told: the definitions alone, for every lawful order.
#![tactic(auto)]

mod laws;

pub use laws::nothing_is_told_of_what_obeys;
