// The tree after a role is enabled or disabled.
ghost use Rattle.std.specs.Prelude.{◌≡◌, ◌<◌, length, take};
ghost use Rattle.layout.specs.Network.{TreeLines, network};
ghost use Rattle.outcomes.specs.Outcomes.{outcome_of};
ghost use Rattle.edges.specs.Disabling.{Disabled};
ghost use Rattle.edges.specs.Enabling.{Enabled};
ghost use Rattle.reduction.specs.Values.{tree_of, path_of};
ghost use Rattle.stepping.specs.Ground.{Ground};

use super::step::Step;
use meaning::Operand;
use order::{Order, Role};
use outcomes::Outcome;
use rows::{PathStepRow, TreeLine};
use trees::Path;

// These lines, as they come out of a step.
#[tactic(auto, using(crate::proofs::OneLine::one_line))]
fn outcome_of(lines: &[TreeLine]) -> Outcome
    ensures answer { result ≡ outcome_of lines.now }
{
    let mut out = Outcome::empty();
    for line in lines {
        out.add(*line);
    }
    out
}

impl<O: Order> Step<'_, O> {
    // The lines of the location's tree, and what is behind them.
    #[tactic(auto, using(crate::proofs::OneLine::own_rows))]
    fn rows(&self) -> [TreeLine; 128]
        requires ground { Ground (network self.now.tables.now) self.now.job }
        ensures lines { take (length (tree_of (network self.now.tables.now) self.now.job)) result ≡ tree_of (network self.now.tables.now) self.now.job }
    {
        self.tables.trees[self.job.location as usize].rows
    }

    // By a path of these steps, one or more.
    fn enabled_by(&self, steps: &[PathStepRow], role: Role) -> Outcome
        requires ground { Ground (network self.now.tables.now) self.now.job }
        requires some { 0 < length steps.now }
        requires role { role < 64 }
        ensures says { (after : TreeLines) × Enabled (O.below self.now.order.now) steps.now role (tree_of (network self.now.tables.now) self.now.job) after × (result ≡ outcome_of after) }
    {
        let order = self.order;
        let count = self.tree().len();
        let mut lines = self.rows();
        Path { order, steps }.enable(role, &mut lines[..count]);
        outcome_of(&lines[..count])
    }

    // The tree with the role on each edge directly below one that the path finds.
    pub(crate) fn enabled(&self, path: Operand, role: Role) -> Outcome
        requires ground { Ground (network self.now.tables.now) self.now.job }
        requires role { role < 64 }
        ensures says { (after : TreeLines) × Enabled (O.below self.now.order.now) (path_of (network self.now.tables.now).plan self.now.job path) role (tree_of (network self.now.tables.now) self.now.job) after × (result ≡ outcome_of after) }
    {
        let steps = self.path_steps(path);
        if steps.in_use().is_empty() {
            // A path with no steps finds nothing.
            return outcome_of(self.tree());
        }
        self.enabled_by(steps.in_use(), role)
    }

    // By a path of these steps, one or more.
    fn disabled_by(&self, steps: &[PathStepRow], role: Role) -> Outcome
        requires ground { Ground (network self.now.tables.now) self.now.job }
        requires some { 0 < length steps.now }
        ensures says { (after : TreeLines) × Disabled (O.below self.now.order.now) steps.now role (tree_of (network self.now.tables.now) self.now.job) after × (result ≡ outcome_of after) }
    {
        let order = self.order;
        let count = self.tree().len();
        let mut lines = self.rows();
        Path { order, steps }.disable(role, &mut lines[..count]);
        outcome_of(&lines[..count])
    }

    // The tree without the role, and what rests on it, below each edge that the path finds.
    pub(crate) fn disabled(&self, path: Operand, role: Role) -> Outcome
        requires ground { Ground (network self.now.tables.now) self.now.job }
        ensures says { (after : TreeLines) × Disabled (O.below self.now.order.now) (path_of (network self.now.tables.now).plan self.now.job path) role (tree_of (network self.now.tables.now) self.now.job) after × (result ≡ outcome_of after) }
    {
        let steps = self.path_steps(path);
        if steps.in_use().is_empty() {
            // A path with no steps finds nothing.
            return outcome_of(self.tree());
        }
        self.disabled_by(steps.in_use(), role)
    }
}
