// What is there when a step begins.
ghost use Rattle.std.specs.Prelude.{◌≡◌, ◌-◌, ◌^◌, ◌<◌, min};
ghost use Rattle.layout.specs.Held.{in_use};
ghost use Rattle.layout.specs.Network.{Network, Holds};
ghost use Rattle.outcomes.specs.Outcomes.{deepest};
ghost use Rattle.rooms.specs.Leaving.{total, begun};
ghost use Rattle.rooms.specs.Rooms.{scratch_of};

use super::filled::Filled;
use super::leaving::left;
use super::scratch::Scratch;
use layout::{Table, Tables};
use outcomes::Outcome;
use rows::TreeLine;

// The host may write any lengths; the sum stops at the greatest number.
fn total(lengths: &[usize]) -> usize
    ensures answer { result ≡ min (total lengths.now) (2 ^ 64 - 1) }
{
    let mut sum: usize = 0;
    for length in lengths {
        sum = sum.saturating_add(*length);
    }
    sum
}

fn deepest(tree: &[TreeLine]) -> u32
    ensures answer { result ≡ deepest 0 tree.now }
{
    let mut deepest = 0;
    for line in tree {
        deepest = line.depth.max(deepest);
    }
    deepest
}

fn outcome_of(tree: &Table<TreeLine, 128>) -> Outcome
    ensures answer { result ≡ record { count = tree.now.count; deepest = deepest 0 (in_use tree.now); lines = tree.now.rows } }
{
    Outcome {
        count: tree.count,
        deepest: deepest(tree.in_use()),
        lines: tree.rows,
    }
}

impl Scratch {
    // The running jobs but for the one at this place, the shelf, and the tree of the location. A crate above asks it of tables that
    // have shape.
    #[tactic(auto, using(crate::proofs::Starting::as_begun))]
    pub fn begin(tables: &Tables, place: usize, location: usize) -> Scratch
        requires there { location < 16 }
        ensures answer { (n : Network) → Holds tables.now n → result ≡ scratch_of (begun n place location) }
    {
        let shelf = &tables.shelf;
        let lines = Table {
            count: total(shelf.trees.in_use()),
            rows: shelf.lines,
        };
        Scratch {
            running: Filled::from(left(&tables.running, place)),
            trees: Filled::from(shelf.trees),
            lines: Filled::from(lines),
            tree: outcome_of(&tables.trees[location]),
        }
    }
}
