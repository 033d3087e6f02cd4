// Both sides of each typing rule, run against the code: one line for each case, with what is answered.
#![tactic(auto)]

use drawn::Drawn;
use std::io;

mod bench;
mod drafts;
mod house;
mod lives;

// Only the pair (1, 2) is drawn.
fn main(rt: HostRuntime) -> io::Result<()> {
    let mut order = Drawn::fresh();
    let drawn = order.draw(&[(1, 2)]).is_ok();
    println!(rt; "drawn {drawn}")?;
    let mut tables = layout::blank();
    drafts::run(&rt, &order, &mut tables)?;
    lives::run(&rt, &order, &mut tables)
}
