// Both sides of each room and of each refusal of the calls on a live network, run against the code: one line for each case, with
// what is answered. The program fails if a case does not come out as it tells.
#![tactic(auto)]

use bench::Bench;
use drawn::Drawn;
use std::io;

mod asking;
mod bench;
mod calls;
mod crowding;
mod hosts;
mod house;
mod steps;
mod story;
mod text;

// Only the pair (1, 2) is drawn.
fn main(rt: HostRuntime) -> io::Result<()> {
    let mut order = Drawn::fresh();
    let drawn = order.draw(&[(1, 2)]).is_ok();
    let mut tables = layout::blank();
    let mut wanted = layout::blank();
    let mut bench = Bench {
        rt: &rt,
        order: &order,
        tables: &mut tables,
        wanted: &mut wanted,
        as_told: drawn,
    };
    calls::run(&mut bench)?;
    steps::run(&mut bench)?;
    crowding::run(&mut bench)?;
    story::run(&mut bench)?;
    bench.end()
}
