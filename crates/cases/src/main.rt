// The worked cases: as theorems in one table, and run against the code, with both sides of every limit.
#![tactic(auto)]

ghost use Rattle.cases.specs.Worked.{WorkedCases};

use std::io;

mod lines;
mod orders;
mod sheets;
mod tells;

// The worked cases hold of the definitions that the contracts are stated with.
pub fn worked_cases_hold()
    ensures cases { WorkedCases }
{}

fn main(rt: HostRuntime) -> io::Result<()> {
    worked_cases_hold();
    orders::run(&rt)?;
    sheets::run(&rt)?;
    lines::run(&rt)
}
