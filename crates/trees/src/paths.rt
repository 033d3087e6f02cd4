// Paths: which edges of a tree they find.
ghost use Rattle.std.specs.Prelude.{◌≡◌, ◌≤◌, length, Decides};
ghost use Rattle.edges.specs.Edges.{Nested};
ghost use Rattle.edges.specs.Paths.{Complies, Flagged};
ghost use Rattle.edges.specs.Counting.{StepsMet};

use order::{Order, set_below};
use rows::{PathStepRow, TreeLine};

// A path by its steps, from the root down, in an order of roles.
#[derive_where(Clone, Copy)]
pub struct Path<'a, O> {
    pub order: &'a O,
    pub steps: &'a [PathStepRow],
}

impl<O: Order> Path<'_, O> {
    // Whether the edge complies with the step of its depth.
    fn complies(&self, line: TreeLine) -> bool
        requires { 1 ≤ line.depth }
        ensures says { Decides result (Complies (O.below self.now.order.now) self.now.steps.now line) }
    {
        match self.steps.get(line.depth as usize - 1) {
            Some(step) => step.label == line.label && set_below(self.order, line.set, step.set),
            None => false,
        }
    }

    // How many steps are met down to the edge, where so many are met above it.
    pub(crate) fn steps_met(&self, met: usize, line: TreeLine) -> usize
        requires { 1 ≤ line.depth }
        ensures says { StepsMet (O.below self.now.order.now) self.now.steps.now met line result }
    {
        let above = line.depth as usize - 1;
        if met < above {
            met
        } else if self.complies(line) {
            line.depth as usize
        } else {
            above
        }
    }

    // Whether the edge is found, where so many steps are met down to it.
    fn is_found(&self, met: usize, line: TreeLine) -> bool
        ensures says { Decides result ((line.depth ≡ length self.now.steps.now) × (length self.now.steps.now ≤ met)) }
    {
        line.depth as usize == self.steps.len() && self.steps.len() <= met
    }

    // Flags for the lines of the tree, set for the edges that the path finds. A crate above asks about trees that stand.
    pub fn find(&self, tree: &[TreeLine]) -> [bool; 128]
        requires nested { Nested tree.now }
        requires few { length tree.now ≤ 128 }
        ensures says { Flagged (O.below self.now.order.now) self.now.steps.now tree.now result }
    {
        let mut found = [false; 128];
        let mut met = 0;
        for (i, line) in tree.iter().enumerate() {
            met = self.steps_met(met, *line);
            found[i] = self.is_found(met, *line);
        }
        found
    }
}
