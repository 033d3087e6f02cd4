// What a step adds: its successors join the end of the running list, and copied trees the end of the shelf.
ghost use Rattle.std.specs.Prelude.{◌≡◌};
ghost use Rattle.layout.specs.Network.{TreeLines};
ghost use Rattle.outcomes.specs.Outcomes.{outcome_of};
ghost use Rattle.rooms.specs.Filled.{added_all};
ghost use Rattle.rooms.specs.Joining.{joined_by, shelved, with_tree};
ghost use Rattle.rooms.specs.Rooms.{Aftermath, scratch_of};

use super::filled::Filled;
use super::scratch::Scratch;
use layout::RunningRow;
use outcomes::Outcome;
use rows::TreeLine;

impl<T: Copy, const N: usize> Filled<T, N> {
    // These rows, one behind the other.
    fn add_all(&mut self, rows: &[T])
        ensures adds { self.new ≡ added_all N self.old rows.now }
    {
        for row in rows {
            self.add(*row);
        }
    }
}

impl Scratch {
    // One running job more, the last of them.
    #[tactic(auto, using(crate::proofs::Joined::with_job))]
    pub fn join(&mut self, job: RunningRow)
        ensures after { (a : Aftermath) → self.old ≡ scratch_of a → self.new ≡ scratch_of (joined_by a job) }
    {
        self.running.add(job);
    }

    // One tree more on the shelf, the last of them.
    #[tactic(auto, using(crate::proofs::Joined::with_shelved))]
    pub fn shelve(&mut self, tree: &[TreeLine])
        ensures after { (a : Aftermath) → self.old ≡ scratch_of a → self.new ≡ scratch_of (shelved a tree.now) }
    {
        self.trees.add(tree.len());
        self.lines.add_all(tree);
    }

    // Another tree at the location where the step is made.
    pub fn put(&mut self, tree: Outcome)
        ensures after { (a : Aftermath) (lines : TreeLines) → self.old ≡ scratch_of a → tree ≡ outcome_of lines → self.new ≡ scratch_of (with_tree a lines) }
    {
        self.tree = tree;
    }
}
