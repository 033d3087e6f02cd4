// Both sides of every limit of loading and of shape, run against the code: one line for each, with what is answered.
#![tactic(auto)]

use bench::Bench;
use std::io;

mod bench;
mod counts;
mod fields;
mod ground;
mod loads;
mod moving;
mod numbers;
mod program;
mod roles;
mod sheets;
mod starts;
mod tells;

fn main(rt: HostRuntime) -> io::Result<()> {
    let mut tables = layout::blank();
    let mut bench = Bench {
        rt: &rt,
        tables: &mut tables,
    };
    loads::run(&mut bench)?;
    ground::run(&mut bench)?;
    program::run(&mut bench)?;
    moving::run(&mut bench)?;
    fields::run(&mut bench)?;
    numbers::run(&mut bench)?;
    counts::run(&mut bench)?;
    roles::run(&mut bench)
}
