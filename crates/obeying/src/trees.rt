// Trees: which sets may lie under which, and which scripts.
ghost use Rattle.std.specs.Prelude.{◌≡◌, ℕ, ◌<◌, ◌&&◌, ◌==◌, ◌+◌, nat_lt, slice_index_or, length, IfSome, None, Decides, MatchOption};
ghost use Rattle.layout.specs.Zeros.{job0};
ghost use Rattle.order.specs.RoleSets.{SetBelow};
ghost use Rattle.obeying.specs.Rules.{line, Above, ScriptObeys, TreeObeys, Asks, number_of, LowestBroken, FirstBroken};
ghost use Rattle.obeying.specs.Breaches.{edge_above, OuterRows, line_below, script_passes, line_breach, tree_breach};

use meaning::ContentKind;
use order::{Order, RoleSet, set_below};
use rows::{JobRow, TreeLine};

// The rules of trees, from the lowest to the highest.
#[derive(Clone, Copy, Debug, PartialEq, Eq)]
pub enum Rule {
    // The policy's least set is ≤ the edge's set.
    Least,
    // The set of the edge above, if there is one, is ≤ the edge's set.
    Above,
    // The job that a script names is of the tree's policy.
    Script,
}

#[derive(Clone, Copy, Debug, PartialEq, Eq)]
pub struct Breach {
    pub row: usize,
    pub rule: Rule,
}

impl Rule {
    // The number by which a refusal tells the rule; that of grants is 1.
    pub fn number(self) -> u32
        ensures answer { result ≡ number_of self }
    {
        match self {
            Rule::Least => 2,
            Rule::Above => 3,
            Rule::Script => 4,
        }
    }
}

// What a tree is held to: the order of roles, a policy by its number and its least set, and the jobs that scripts may name.
#[derive_where(Clone, Copy)]
pub struct Policy<'a, O> {
    pub order: &'a O,
    pub number: u32,
    pub least: RoleSet,
    pub jobs: &'a [JobRow],
}

// The nearest line before that of this row whose depth is one less, looked for line by line.
#[tactic(auto, unfolding(crate::specs::Breaches::last_outer))]
fn last_outer(tree: &[TreeLine], row: usize) -> Option<usize>
    requires { row < length tree.now }
    ensures answer { result ≡ edge_above tree.now row }
{
    let depth = tree[row].depth as u64;
    // By `rposition` the goals stayed open.
    for k in (0..row).rev() {
        if tree[k].depth as u64 + 1 == depth {
            return Some(k);
        }
    }
    None
}

// The edge above the line of this row. The table has it at the line's depth; only for a line that is deeper than the table goes,
// as none of a tree is, are the lines before it looked at.
#[tactic(auto, using(crate::proofs::Outers::edge_above_says))]
fn edge_above(tree: &[TreeLine], outers: &[Option<usize>], row: usize) -> Option<usize>
    requires inside { row < length tree.now }
    requires outers { OuterRows tree.now row outers.now }
    ensures answer { result ≡ edge_above tree.now row }
    ensures says { MatchOption result ((j : ℕ) → Above tree.now j row → ⊥) (λ j. Above tree.now j row) }
{
    match outers.get(tree[row].depth as usize) {
        Some(above) => *above,
        None => last_outer(tree, row),
    }
}

// The table for the next row: a line that is one deeper than this one would lie under it.
#[tactic(auto, using(crate::proofs::Outers::outers_noted, crate::proofs::Outers::outers_kept))]
fn note_row(outers: &mut [Option<usize>], tree: &[TreeLine], row: usize)
    requires inside { row < length tree.now }
    requires outers { OuterRows tree.now row outers.old }
    ensures after { OuterRows tree.now (row + 1) outers.new }
{
    let next = tree[row].depth as usize + 1;
    if next < outers.len() {
        outers[next] = Some(row);
    }
}

impl<O: Order> Policy<'_, O> {
    fn above_obeys(&self, tree: &[TreeLine], outers: &[Option<usize>], row: usize) -> bool
        requires inside { row < length tree.now }
        requires outers { OuterRows tree.now row outers.now }
        ensures answer { result ≡ line_below (O.below self.now.order.now) tree.now (edge_above tree.now row) (line tree.now row).set }
        ensures says { Decides result ((j : ℕ) → Above tree.now j row → SetBelow (O.below self.now.order.now) (line tree.now j).set (line tree.now row).set) }
    {
        let above = edge_above(tree, outers, row);
        above.is_none_or(|j| set_below(self.order, tree[j].set, tree[row].set))
    }

    // Whether the job is there, and of the policy.
    fn has_job(&self, job: usize) -> bool
        ensures answer { result ≡ (nat_lt job (length self.now.jobs.now) && (slice_index_or self.now.jobs.now job job0).policy == self.now.number) }
    {
        // By `is_some_and` the goal stayed open.
        match self.jobs.get(job) {
            Some(job) => job.policy == self.number,
            None => false,
        }
    }

    fn script_obeys(&self, line: TreeLine) -> bool
        ensures answer { result ≡ script_passes self.now.jobs.now self.now.number line }
        ensures says { Decides result (ScriptObeys self.now.jobs.now self.now.number line) }
    {
        match ContentKind::try_from(line.content) {
            Ok(ContentKind::Script) => self.has_job(line.first as usize),
            _ => true,
        }
    }

    // The lowest rule that the line of this row breaks.
    #[tactic(auto, unfolding(crate::specs::Breaches::line_breach))]
    fn line_breach(&self, tree: &[TreeLine], outers: &[Option<usize>], row: usize) -> Option<Rule>
        requires inside { row < length tree.now }
        requires outers { OuterRows tree.now row outers.now }
        ensures answer { result ≡ line_breach (O.below self.now.order.now) self.now.least self.now.jobs.now self.now.number tree.now row }
        ensures says { LowestBroken (Asks (O.below self.now.order.now) self.now.least self.now.jobs.now self.now.number tree.now row) result }
    {
        if !set_below(self.order, self.least, tree[row].set) {
            Some(Rule::Least)
        } else if !self.above_obeys(tree, outers, row) {
            Some(Rule::Above)
        } else if !self.script_obeys(tree[row]) {
            Some(Rule::Script)
        } else {
            None
        }
    }

    // The first line that breaks a rule, and the lowest rule that it breaks. Any lines may be asked about: a script that names
    // no job breaks its rule, and lines that are no tree are held to the same words.
    #[tactic(auto, unfolding(crate::specs::Breaches::first_breach))]
    pub fn breach(&self, tree: &[TreeLine]) -> Option<Breach>
        ensures answer { result ≡ tree_breach (O.below self.now.order.now) self.now.least self.now.jobs.now self.now.number tree.now }
        ensures stands { result ≡ None → TreeObeys (O.below self.now.order.now) self.now.least self.now.jobs.now self.now.number tree.now }
        ensures told { TreeObeys (O.below self.now.order.now) self.now.least self.now.jobs.now self.now.number tree.now → result ≡ None }
        ensures first { IfSome result (FirstBroken (Asks (O.below self.now.order.now) self.now.least self.now.jobs.now self.now.number tree.now) (length tree.now)) }
    {
        // The edge above the next line, by that line's depth, which is at most 12 in a tree.
        let mut outers = [None; 13];
        // A row is asked about among the others, so it goes by its number.
        for row in 0..tree.len() {
            if let Some(rule) = self.line_breach(tree, &outers, row) {
                return Some(Breach { row, rule });
            }
            note_row(&mut outers, tree, row);
        }
        None
    }
}
