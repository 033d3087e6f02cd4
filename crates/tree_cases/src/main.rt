// The worked cases of trees: as theorems in one table, and run against the code, with both sides of the limits.
#![tactic(auto)]

ghost use Rattle.tree_cases.specs.Worked.{TreeCases};

use std::io;

mod colours;
mod replaced;
mod standing_lines;
mod tells;
mod woods;

// The worked cases hold of the definitions that the contracts are stated with.
pub fn tree_cases_hold()
    ensures cases { TreeCases }
{}

fn main(rt: HostRuntime) -> io::Result<()> {
    tree_cases_hold();
    colours::run(&rt)?;
    replaced::run(&rt)
}
