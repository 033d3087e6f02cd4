// Tree patterns: which trees on their own a read or a change takes.
ghost use Rattle.std.specs.Prelude.{◌≡◌, not, ◌||◌, Decides, ◌==◌};
ghost use Rattle.order.specs.RoleSets.{Part};
ghost use Rattle.layout.specs.Zeros.{line0};
ghost use Rattle.scan.specs.Scan.{Each};
ghost use Rattle.obeying.specs.Rules.{LineMatches, Matches};
ghost use Rattle.obeying.specs.Breaches.{part_of, line_matches, lines_match, tree_matches};

use super::trees::Policy;
use order::{Order, RoleSet, set_below};
use rows::TreeLine;

// A tree at the policy, whose top edges have roles of `top` only, and each of whose sets is ≤ `all`.
#[derive_where(Clone, Copy)]
pub struct TreePattern<'a, O> {
    pub policy: Policy<'a, O>,
    pub top: RoleSet,
    pub all: RoleSet,
}

// Whether each role of a is a role of b.
fn part_of(a: RoleSet, b: RoleSet) -> bool
    ensures answer { result ≡ part_of a b }
    ensures says { Decides result (Part a b) }
{
    a | b == b
}

fn outermost_matches(top: RoleSet, line: TreeLine) -> bool
    ensures answer { result ≡ (not (line.depth == 1) || part_of line.set top) }
    ensures says { Decides result (line.depth ≡ 1 → Part line.set top) }
{
    line.depth != 1 || part_of(line.set, top)
}

impl<O: Order> TreePattern<'_, O> {
    fn line_matches(&self, line: TreeLine) -> bool
        ensures answer { result ≡ line_matches (O.below self.now.policy.order.now) self.now.top self.now.all line }
        ensures says { Decides result (LineMatches (O.below self.now.policy.order.now) self.now.top self.now.all line) }
    {
        outermost_matches(self.top, line) && set_below(self.policy.order, line.set, self.all)
    }

    fn lines_match(&self, tree: &[TreeLine]) -> bool
        ensures answer { result ≡ lines_match (O.below self.now.policy.order.now) self.now.top self.now.all tree.now }
        ensures says { Decides result (Each (LineMatches (O.below self.now.policy.order.now) self.now.top self.now.all) line0 tree.now) }
    {
        // By `all` the goals stayed open.
        for line in tree {
            if !self.line_matches(*line) {
                return false;
            }
        }
        true
    }

    // Whether the tree matches the pattern. Any lines may be asked about.
    pub fn matches(&self, tree: &[TreeLine]) -> bool
        ensures answer { result ≡ tree_matches (O.below self.now.policy.order.now) self.now.policy.least self.now.policy.jobs.now self.now.policy.number self.now.top self.now.all tree.now }
        ensures says { Decides result (Matches (O.below self.now.policy.order.now) self.now.policy.least self.now.policy.jobs.now self.now.policy.number self.now.top self.now.all tree.now) }
    {
        self.policy.breach(tree).is_none() && self.lines_match(tree)
    }
}
