// A running job leaves the list.
ghost use Rattle.std.specs.Prelude.{◌≡◌};
ghost use Rattle.layout.specs.Held.{held, in_use};
ghost use Rattle.layout.specs.Zeros.{running0};
ghost use Rattle.rooms.specs.Leaving.{without};

use layout::{RunningRow, Table};

// The running jobs but for the one at this place; later ones close up, and rows of zeros stand behind them.
#[tactic(auto, using(crate::proofs::Closing::put))]
pub fn left(running: &Table<RunningRow, 64>, place: usize) -> Table<RunningRow, 64>
    ensures answer { result ≡ held 64 running0 (without place (in_use running.now)) }
{
    let mut left = Table::default();
    for (k, job) in running.in_use().iter().enumerate() {
        if k == place {
            continue;
        }
        // The list is no longer than the table.
        let _room = left.push(*job);
    }
    left
}
