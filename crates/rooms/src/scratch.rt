// What a step leaves, beside the tables: nothing is written to them before the rooms are tried.
ghost use Rattle.std.specs.Prelude.{◌≡◌, ℕ, ◌<◌, None};
ghost use Rattle.layout.specs.Network.{Network, Holds};
ghost use Rattle.rooms.specs.Rooms.{Aftermath, lacking, left_in, scratch_of, written};

use super::filled::Filled;
use super::room::Room;
use layout::{RunningRow, Table, Tables};
use outcomes::Outcome;
use rows::TreeLine;

// The running jobs, the shelf, tree by tree, and the tree of the location where the step is made.
#[derive(Clone, Copy, Debug, PartialEq, Eq)]
pub struct Scratch {
    pub running: Filled<RunningRow, 64>,
    // How many lines each shelved tree has, and all of them one after the other.
    pub trees: Filled<usize, 64>,
    pub lines: Filled<TreeLine, 1024>,
    pub tree: Outcome,
}

impl Scratch {
    // The first room that is too small.
    #[tactic(auto, using(crate::proofs::Trying::tried))]
    pub fn lacking(&self) -> Option<Room>
        ensures answer { (a : Aftermath) → self.now ≡ scratch_of a → result ≡ lacking a }
    {
        if self.running.over {
            Some(Room::RunningJobs)
        } else if self.trees.over {
            Some(Room::ShelvedTrees)
        } else if self.lines.over {
            Some(Room::ShelvedLines)
        } else if self.tree.count > 128 {
            Some(Room::TreeLines)
        } else if self.tree.deepest > 12 {
            Some(Room::Depth)
        } else {
            None
        }
    }

    #[tactic(auto, unfolding(crate::specs::Rooms::written))]
    fn write(&self, tables: &mut Tables, location: usize)
        requires there { location < 16 }
        ensures after { tables.new ≡ written tables.old location self.now }
    {
        tables.running = self.running.table;
        tables.shelf.trees = self.trees.table;
        tables.shelf.lines = self.lines.table.rows;
        tables.trees[location] = Table {
            count: self.tree.count,
            rows: self.tree.lines,
        };
    }

    // Writes what the step leaves at this location, where no room is too small. A crate above has tried them.
    pub fn commit(&self, tables: &mut Tables, location: usize)
        requires there { location < 16 }
        ensures after { (n : Network) (a : Aftermath) → Holds tables.old n → self.now ≡ scratch_of a → lacking a ≡ None → Holds tables.new (left_in n location a) }
    {
        self.write(tables, location);
    }
}
