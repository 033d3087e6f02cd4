// Which edges a step finds and matches.
ghost use Rattle.std.specs.Prelude.{◌≡◌, ◌<◌, ◌≤◌, Bool, List, length, Some};
ghost use Rattle.layout.specs.Held.{in_use};
ghost use Rattle.layout.specs.Network.{network};
ghost use Rattle.slots.specs.Slots.{pattern_at};
ghost use Rattle.edges.specs.Edges.{Nested};
ghost use Rattle.edges.specs.Paths.{Flagged};
ghost use Rattle.edges.specs.Matching.{Selected};
ghost use Rattle.edges.specs.Rows.{flagged_count};
ghost use Rattle.changes.specs.Turns.{Shallow};
ghost use Rattle.reduction.specs.Values.{tree_of, path_of};
ghost use Rattle.reduction.specs.Steps.{next_of};
ghost use Rattle.stepping.specs.Ground.{Ground, PatternThere};

use super::step::Step;
use layout::Table;
use meaning::{Operand, Pattern};
use order::Order;
use rows::{PathStepRow, TreeLine};
use slots::pattern_at;
use trees::{Path, count_found};
use typing::command_at;
use values::{named, path_steps};

impl<O: Order> Step<'_, O> {
    // The job's next command; 0 where nothing follows.
    pub(crate) fn next(&self) -> u32
        ensures answer { result ≡ next_of (network self.now.tables.now) self.now.job }
    {
        command_at(self.tables, self.job.command).next
    }

    // The tree of the job's location.
    pub(crate) fn tree(&self) -> &[TreeLine]
        requires ground { Ground (network self.now.tables.now) self.now.job }
        ensures lines { result.now ≡ tree_of (network self.now.tables.now) self.now.job }
        ensures nested { Nested result.now }
        ensures few { length result.now ≤ 128 }
        ensures shallow { Shallow 12 result.now }
    {
        self.tables.trees[self.job.location as usize].in_use()
    }

    // The steps of the path that the operand names.
    pub(crate) fn path_steps(&self, path: Operand) -> Table<PathStepRow, 256>
        ensures steps { in_use result ≡ path_of (network self.now.tables.now).plan self.now.job path }
    {
        path_steps(&self.tables.steps, named(&self.job.slots, path))
    }

    // The pattern of this row.
    pub(crate) fn pattern(&self, row: u32) -> Pattern
        requires there { PatternThere (network self.now.tables.now).plan row }
        ensures answer { pattern_at (network self.now.tables.now).plan.patterns row ≡ Some result }
    {
        pattern_at(self.tables.patterns.in_use(), row as usize).unwrap()
    }

    // Flags for the edges that the path finds.
    pub(crate) fn found(&self, path: Operand) -> [bool; 128]
        requires ground { Ground (network self.now.tables.now) self.now.job }
        ensures says { Flagged (O.below self.now.order.now) (path_of (network self.now.tables.now).plan self.now.job path) (tree_of (network self.now.tables.now) self.now.job) result }
    {
        let steps = self.path_steps(path);
        let path = Path {
            order: self.order,
            steps: steps.in_use(),
        };
        path.find(self.tree())
    }

    // Flags for the edges that the path finds and the pattern matches.
    pub(crate) fn matched(&self, path: Operand, pattern: Pattern) -> [bool; 128]
        requires ground { Ground (network self.now.tables.now) self.now.job }
        ensures says { Selected (O.below self.now.order.now) (path_of (network self.now.tables.now).plan self.now.job path) (network self.now.tables.now).plan pattern (tree_of (network self.now.tables.now) self.now.job) result }
    {
        let steps = self.path_steps(path);
        let path = Path {
            order: self.order,
            steps: steps.in_use(),
        };
        path.select(self.tables, pattern, self.tree())
    }

    // How many edges the path finds.
    pub(crate) fn count(&self, path: Operand) -> usize
        requires ground { Ground (network self.now.tables.now) self.now.job }
        ensures says { (flags : List Bool) × Flagged (O.below self.now.order.now) (path_of (network self.now.tables.now).plan self.now.job path) (tree_of (network self.now.tables.now) self.now.job) flags × (result ≡ flagged_count flags) }
    {
        count_found(&self.found(path))
    }
}
