// What comes out of a change.
ghost use Rattle.std.specs.Prelude.{◌≡◌, ℕ, ◌<◌, ◌≤◌, [], length, if◌then◌else◌, nat_le, Some, None};
ghost use Rattle.layout.specs.Network.{TreeLines, tree_of};
ghost use Rattle.obeying.specs.Rules.{line};
ghost use Rattle.obeying.specs.TreeLaws.{lowered};
ghost use Rattle.outcomes.specs.Outcomes.{outcome_of, added, added_all};

use layout::Table;
use rows::TreeLine;

// The most lines that a tree may have.
const ROOM: usize = 128;

// So many lines, the deepest of them, and as many of them as a tree may have. The count stops one behind that room.
#[derive(Clone, Copy, Debug, PartialEq, Eq)]
pub struct Outcome {
    pub count: usize,
    pub deepest: u32,
    pub lines: [TreeLine; 128],
}

impl Outcome {
    // No lines yet.
    pub fn empty() -> Outcome
        ensures answer { result ≡ outcome_of [] }
    {
        Outcome {
            count: 0,
            deepest: 0,
            lines: [TreeLine::default(); ROOM],
        }
    }

    // One line more.
    #[tactic(auto, unfolding(crate::specs::Outcomes::added))]
    pub fn add(&mut self, line: TreeLine)
        ensures after { self.new ≡ added self.old line }
    {
        if self.count < ROOM {
            self.lines[self.count] = line;
        }
        self.count = self.count.saturating_add(1).min(ROOM + 1);
        self.deepest = self.deepest.max(line.depth);
    }

    // The lines of a tree, so many levels further down. A crate above adds trees that stand, to a tree that stands.
    pub fn add_lowered(&mut self, tree: &[TreeLine], levels: u32)
        requires shallow { (i : ℕ) → i < length tree.now → (line tree.now i).depth ≤ 1000 }
        requires near { levels ≤ 1000 }
        ensures after { self.new ≡ added_all self.old (lowered levels tree.now) }
    {
        for line in tree {
            self.add(TreeLine {
                depth: line.depth + levels,
                ..*line
            });
        }
    }

    // The tree, where there is room for all of its lines.
    #[tactic(auto, using(crate::proofs::Adding::there))]
    pub fn tree(&self) -> Option<Table<TreeLine, 128>>
        ensures answer { (xs : TreeLines) → self.now ≡ outcome_of xs → result ≡ (if nat_le (length xs) 128 then Some (tree_of xs) else None) }
    {
        if self.count <= ROOM {
            Some(Table {
                count: self.count,
                rows: self.lines,
            })
        } else {
            None
        }
    }
}
