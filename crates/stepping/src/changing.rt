// The tree after a change.
ghost use Rattle.std.specs.Prelude.{◌≡◌};
ghost use Rattle.layout.specs.Network.{TreeLines, network};
ghost use Rattle.outcomes.specs.Outcomes.{outcome_of};
ghost use Rattle.rooms.specs.Rooms.{Aftermath, scratch_of};
ghost use Rattle.rooms.specs.Joining.{with_tree};
ghost use Rattle.replacing.specs.Changing.{Changed};
ghost use Rattle.replacing.specs.Holding.{slot_of};
ghost use Rattle.replacing.specs.Pasting.{given};
ghost use Rattle.reduction.specs.Effects.{goes_on};
ghost use Rattle.reduction.specs.Steps.{next_of};
ghost use Rattle.reduction.specs.Values.{tree_of, held_in};
ghost use Rattle.successors.specs.Successors.{with_jobs};
ghost use Rattle.stepping.specs.Ground.{Ground};

use super::step::Step;
use changes::Change;
use meaning::{Content, Pattern};
use order::Order;
use outcomes::Outcome;
use rooms::Scratch;
use values::pastes;

// The slot that the pattern fills, the first of two where it is a pointer's.
fn slot_of(pattern: Pattern) -> u32
    ensures answer { result ≡ slot_of pattern }
{
    match pattern {
        Pattern::Number { slot }
        | Pattern::Script { slot, .. }
        | Pattern::Pointer { slot, .. }
        | Pattern::Tree { slot, .. } => slot,
    }
}

impl<O: Order> Step<'_, O> {
    // The tree with the content on each flagged edge, where what lies on the edge is in the pattern's slot.
    pub(crate) fn changed(&self, pattern: Pattern, content: Content, flags: &[bool; 128]) -> Outcome
        requires ground { Ground (network self.now.tables.now) self.now.job }
        ensures says { (after : TreeLines) × Changed flags.now (given content (held_in (network self.now.tables.now).plan (network self.now.tables.now).shelf self.now.job.slots) (slot_of pattern) (network self.now.tables.now).plan.templates (tree_of (network self.now.tables.now) self.now.job)) (tree_of (network self.now.tables.now) self.now.job) after × (result ≡ outcome_of after) }
    {
        let slots = pastes(self.tables, &self.job.slots);
        let change = Change {
            content,
            slots: &slots,
            own: slot_of(pattern) as usize,
            templates: &self.tables.templates,
        };
        change.apply(self.tree(), flags)
    }

    // The location gets this tree, and the job goes on with the slots that it had.
    pub(crate) fn leave(&self, tree: Outcome, scratch: &mut Scratch)
        ensures after { (a : Aftermath) (lines : TreeLines) → scratch.old ≡ scratch_of a → tree ≡ outcome_of lines → scratch.new ≡ scratch_of (with_jobs (with_tree a lines) (goes_on self.now.job (next_of (network self.now.tables.now) self.now.job))) }
    {
        scratch.put(tree);
        self.go_on(scratch);
    }
}
