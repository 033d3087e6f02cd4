// What a step of a running job brings about: a reduction with one rule for each verb. Definitions and their laws; the code is in the
// crates above.
#![tactic(auto)]

mod laws;

pub use laws::steps_have_one_effect;
