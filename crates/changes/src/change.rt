// A change of edges of a tree.
ghost use Rattle.std.specs.Prelude.{◌≡◌, ℕ, ◌<◌, ◌≤◌, length, slice_index_or, false, Decides};
ghost use Rattle.layout.specs.Held.{in_use};
ghost use Rattle.layout.specs.Network.{TreeLines};
ghost use Rattle.layout.specs.Zeros.{template0};
ghost use Rattle.obeying.specs.Rules.{line};
ghost use Rattle.scan.specs.Scan.{Each};
ghost use Rattle.outcomes.specs.Outcomes.{added_all, outcome_of};
ghost use Rattle.pasting.specs.Templates.{template_lines};
ghost use Rattle.replacing.specs.Pasting.{placed, holding};
ghost use Rattle.replacing.specs.Changing.{Changed};
ghost use Rattle.changes.specs.Gives.{gives};
ghost use Rattle.changes.specs.Pastes.{held, held_at};
ghost use Rattle.changes.specs.Turns.{Shallow, CutAt, Turn};

use super::paste::{Holding, Paste};
use super::putting::put_content;
use layout::Table;
use meaning::Content;
use outcomes::Outcome;
use rows::{TemplateRow, TreeLine};
use trees::copy_under;

// The content of a change, what the slots hold, and the slot that each edge's own content fills. No line that it puts may be
// deeper than 500, which is far above the depth of any tree that stands, so that depths can be summed.
#[derive(Clone, Copy)]
pub struct Change<'a> {
    pub content: Content,
    pub slots: &'a [Paste<'a>; 6],
    pub own: usize,
    pub templates: &'a Table<TemplateRow, 256>,
}

// Whether an edge of this depth lies under the last one that was replaced.
fn is_cut(cut: Option<u32>, depth: u32) -> bool
    ensures says { Decides result (CutAt cut depth) }
{
    match cut {
        Some(above) => above < depth,
        None => false,
    }
}

impl Change<'_> {
    // What the slots hold at an edge that has this line, and these lines under it.
    #[tactic(auto, unfolding(crate::specs::Pastes::held_at))]
    fn holding<'b>(&self, line: TreeLine, under: &'b [TreeLine]) -> Holding<'_, 'b>
        ensures answer { (k : ℕ) → held_at result k ≡ holding (held self.now.slots.now) self.now.own (record { content = line.content; first = line.first; second = line.second; under = under.now }) k }
    {
        Holding {
            slots: self.slots,
            own: self.own,
            lying: Paste {
                content: line.content,
                first: line.first,
                second: line.second,
                under,
            },
        }
    }

    // The edge of this row with the content, where its own content fills the slot.
    fn put_changed(&self, out: &mut Outcome, tree: &[TreeLine], row: usize)
        requires shallow { (k : ℕ) → Shallow 500 (held self.now.slots.now k).under }
        requires low { (k : ℕ) → Shallow 500 (template_lines (in_use self.now.templates.now) k) }
        requires inside { row < length tree.now }
        requires few { length tree.now ≤ 128 }
        requires near { Shallow 500 tree.now }
        ensures after { out.new ≡ added_all out.old (placed (line tree.now row) (gives self.now tree.now row)) }
    {
        let copy = copy_under(tree, row);
        let slots = self.holding(tree[row], copy.in_use());
        put_content(out, &slots, self.templates, self.content, tree[row]);
    }

    // What becomes of the line of this row is put behind what came out so far; the answer is what is cut behind it.
    fn put_line(
        &self,
        out: &mut Outcome,
        tree: &[TreeLine],
        flags: &[bool; 128],
        cut: Option<u32>,
        row: usize,
    ) -> Option<u32>
        requires shallow { (k : ℕ) → Shallow 500 (held self.now.slots.now k).under }
        requires low { (k : ℕ) → Shallow 500 (template_lines (in_use self.now.templates.now) k) }
        requires inside { row < length tree.now }
        requires few { length tree.now ≤ 128 }
        requires near { Shallow 500 tree.now }
        ensures says { Turn (slice_index_or flags.now row false) (gives self.now tree.now row) (line tree.now row) cut out.old out.new result }
    {
        let depth = tree[row].depth;
        if is_cut(cut, depth) {
            return cut;
        }
        if flags[row] {
            self.put_changed(out, tree, row);
            Some(depth)
        } else {
            out.add(tree[row]);
            None
        }
    }

    // What comes out when the flagged edges are replaced. What lies under them is cut, also a flagged edge there. A crate above
    // asks it of trees that stand.
    pub fn apply(&self, tree: &[TreeLine], flags: &[bool; 128]) -> Outcome
        requires shallow { (k : ℕ) → Shallow 500 (held self.now.slots.now k).under }
        requires low { Each (λ row. row.line.depth ≤ 500) template0 (in_use self.now.templates.now) }
        requires few { length tree.now ≤ 128 }
        requires near { Shallow 500 tree.now }
        ensures says { (after : TreeLines) × Changed flags.now (gives self.now tree.now) tree.now after × (result ≡ outcome_of after) }
    {
        let mut out = Outcome::empty();
        let mut cut = None;
        for row in 0..tree.len() {
            cut = self.put_line(&mut out, tree, flags, cut, row);
        }
        out
    }
}
