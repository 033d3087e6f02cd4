// Which edges a pattern matches.
ghost use Rattle.std.specs.Prelude.{◌≡◌, ◌<◌, ◌≤◌, length, Decides, Some, true};
ghost use Rattle.layout.specs.Network.{network};
ghost use Rattle.slots.specs.Operands.{last_set};
ghost use Rattle.obeying.specs.Rules.{line, Matches};
ghost use Rattle.obeying.specs.TreeLaws.{under};
ghost use Rattle.pasting.specs.Words.{least_of};
ghost use Rattle.edges.specs.Edges.{Nested};
ghost use Rattle.edges.specs.Matching.{LocationOf, EdgeMatches, Selected};

use super::copies::copy_under;
use super::paths::Path;
use layout::Tables;
use meaning::{ContentKind, Pattern};
use obeying::TreePattern;
use order::{Order, RoleSet};
use pasting::{has_job, policy_of};
use rows::TreeLine;
use slots::last_set;

// Whether there is such a location, and it is of the policy.
fn location_of(tables: &Tables, policy: u32, location: u32) -> bool
    ensures says { Decides result (LocationOf (network tables.now).plan policy location) }
{
    match tables.locations.in_use().get(location as usize) {
        Some(location) => location.policy == policy,
        None => false,
    }
}

// Whether the last set of the path is this one.
fn path_ends(tables: &Tables, path: u32, last: RoleSet) -> bool
    ensures says { Decides result (last_set (network tables.now).plan.steps path ≡ Some last) }
{
    last_set(tables.steps.in_use(), path) == Some(last)
}

// Whether what lies under the edge of this row matches a tree pattern.
fn under_matches<O: Order>(
    order: &O,
    tables: &Tables,
    policy: u32,
    top: RoleSet,
    all: RoleSet,
    tree: &[TreeLine],
    row: usize,
) -> bool
    requires inside { row < length tree.now }
    requires few { length tree.now ≤ 128 }
    ensures says { Decides result (Matches (O.below order.now) (least_of (network tables.now).plan policy) (network tables.now).plan.jobs policy top all (under tree.now row)) }
{
    let policy = policy_of(order, tables, policy);
    let copy = copy_under(tree, row);
    TreePattern { policy, top, all }.matches(copy.in_use())
}

// Whether the pattern matches the edge of this row, which is this one.
fn line_matches<O: Order>(
    order: &O,
    tables: &Tables,
    pattern: Pattern,
    tree: &[TreeLine],
    row: usize,
    edge: TreeLine,
) -> bool
    requires inside { row < length tree.now }
    requires few { length tree.now ≤ 128 }
    requires own { edge ≡ line tree.now row }
    ensures says { Decides result (EdgeMatches (O.below order.now) (network tables.now).plan pattern tree.now row) }
{
    match (pattern, ContentKind::try_from(edge.content)) {
        (Pattern::Number { .. }, Ok(ContentKind::Number)) => true,
        (Pattern::Script { policy, .. }, Ok(ContentKind::Script)) => {
            has_job(tables, policy, edge.first)
        }
        (Pattern::Pointer { policy, last, .. }, Ok(ContentKind::Pointer)) => {
            location_of(tables, policy, edge.second) && path_ends(tables, edge.first, last)
        }
        (
            Pattern::Tree {
                policy,
                top,
                all,
                ..
            },
            Ok(ContentKind::Tree),
        ) => under_matches(order, tables, policy, top, all, tree, row),
        _ => false,
    }
}

// Whether the pattern matches the edge of this row. A crate above asks it of trees of a location.
pub fn edge_matches<O: Order>(
    order: &O,
    tables: &Tables,
    pattern: Pattern,
    tree: &[TreeLine],
    row: usize,
) -> bool
    requires inside { row < length tree.now }
    requires few { length tree.now ≤ 128 }
    ensures says { Decides result (EdgeMatches (O.below order.now) (network tables.now).plan pattern tree.now row) }
{
    line_matches(order, tables, pattern, tree, row, tree[row])
}

impl<O: Order> Path<'_, O> {
    // Whether the edge of this row, which is this one, is found, and the pattern matches it.
    fn selects(
        &self,
        tables: &Tables,
        pattern: Pattern,
        tree: &[TreeLine],
        found: bool,
        row: usize,
        edge: TreeLine,
    ) -> bool
        requires inside { row < length tree.now }
        requires few { length tree.now ≤ 128 }
        requires own { edge ≡ line tree.now row }
        ensures says { Decides result ((found ≡ true) × EdgeMatches (O.below self.now.order.now) (network tables.now).plan pattern tree.now row) }
    {
        found && line_matches(self.order, tables, pattern, tree, row, edge)
    }

    // Flags for the lines of the tree, set for the edges that the path finds and the pattern matches. A crate above asks about trees
    // that stand.
    pub fn select(&self, tables: &Tables, pattern: Pattern, tree: &[TreeLine]) -> [bool; 128]
        requires nested { Nested tree.now }
        requires few { length tree.now ≤ 128 }
        ensures says { Selected (O.below self.now.order.now) self.now.steps.now (network tables.now).plan pattern tree.now result }
    {
        let mut flags = self.find(tree);
        for (row, line) in tree.iter().enumerate() {
            flags[row] = self.selects(tables, pattern, tree, flags[row], row, *line);
        }
        flags
    }
}
