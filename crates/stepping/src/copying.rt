// What a step reads, and copies to the shelf.
ghost use Rattle.std.specs.Prelude.{◌≡◌, ◌≤◌, cond, [], length, ◌==◌};
ghost use Rattle.layout.specs.Network.{network};
ghost use Rattle.rooms.specs.Rooms.{Aftermath, scratch_of};
ghost use Rattle.edges.specs.Rows.{flagged_rows};
ghost use Rattle.reduction.specs.Values.{tree_of};
ghost use Rattle.reduction.specs.Effects.{copies, readers};
ghost use Rattle.reduction.specs.Steps.{next_of};
ghost use Rattle.successors.specs.Successors.{with_copies, FlagsOf};
ghost use Rattle.stepping.specs.Ground.{Ground, PatternThere};

use super::step::Step;
use meaning::Pattern;
use order::Order;
use rooms::Scratch;
use successors::Reading;

impl<O: Order> Step<'_, O> {
    // How many trees are on the shelf, where the first copy's number begins.
    #[tactic(auto, using(matching::proofs::Pieces::pieces_long))]
    fn shelved(&self) -> u32
        requires ground { Ground (network self.now.tables.now) self.now.job }
        ensures answer { result ≡ length (network self.now.tables.now).shelf }
    {
        self.tables.shelf.trees.in_use().len() as u32
    }

    // One copy of next for each flagged line, and a matched tree is copied to the shelf; with next 0 nothing is copied.
    #[tactic(auto, using(successors::proofs::More::nothing_more))]
    pub(crate) fn read_flagged(
        &self,
        pattern: Pattern,
        row: u32,
        flags: &[bool; 128],
        scratch: &mut Scratch,
    )
        requires ground { Ground (network self.now.tables.now) self.now.job }
        requires there { PatternThere (network self.now.tables.now).plan row }
        requires flags { FlagsOf (tree_of (network self.now.tables.now) self.now.job) flags.now }
        ensures after { (a : Aftermath) → scratch.old ≡ scratch_of a → scratch.new ≡ scratch_of (with_copies a (cond (next_of (network self.now.tables.now) self.now.job == 0) [] (readers self.now.job (next_of (network self.now.tables.now) self.now.job) pattern row (tree_of (network self.now.tables.now) self.now.job) (length (network self.now.tables.now).shelf) (flagged_rows flags.now))) (cond (next_of (network self.now.tables.now) self.now.job == 0) [] (copies pattern (tree_of (network self.now.tables.now) self.now.job) (flagged_rows flags.now)))) }
    {
        let next = self.next();
        if next == 0 {
            return;
        }
        let reading = Reading {
            job: self.job,
            next,
            pattern,
            filler: row,
        };
        reading.read_edges(self.tree(), flags, self.shelved(), scratch);
    }
}
