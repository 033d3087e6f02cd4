// The ground: grants and trees.
ghost use Rattle.std.specs.Prelude.{◌≡◌, ℕ, ◌≤◌, ◌<◌, map, length, None, IfSome, slice_index_or, []};
ghost use Rattle.layout.specs.Zeros.{grant0};
ghost use Rattle.scan.specs.Scan.{Each};
ghost use Rattle.obeying.specs.Rules.{GrantObeys, FirstRow};
ghost use Rattle.pasting.specs.Words.{least_of};
ghost use Rattle.layout.specs.Held.{in_use};
ghost use Rattle.layout.specs.Network.{network};
ghost use Rattle.matching.specs.Matching.{policy_at};
ghost use Rattle.sheet.specs.declared.kinds.LineKind.TheVariants as kind;
ghost use Rattle.layout.specs.declared.kind.TableKind.TheVariants.{Lines};
ghost use Rattle.breaches.specs.declared.breach.Rule.TheVariants as rule;
ghost use Rattle.breaches.specs.Broken.{TreeBroken, RuleBroken};
ghost use Rattle.breaches.specs.Told.{grants_told, edges_before, tree_told, edges_told};
ghost use Rattle.breaches.specs.Words.{TreeAtObeys};

use super::breach::{Rule, RuleBreach};
use super::judging::{Judge, first_told};
use layout::{Table, TableKind, Tables};
use obeying::grant_breach;
use order::Order;
use pasting::policy_of;
use rows::TreeLine;
use sheet::LineKind;

// The policy of a location.
pub(crate) fn policy_at(tables: &Tables, location: usize) -> u32
    ensures answer { result ≡ policy_at (network tables.now).plan location }
{
    match tables.locations.in_use().get(location) {
        Some(row) => row.policy,
        None => 0,
    }
}

// How many edges the locations before this one have.
fn edges_before(trees: &[Table<TreeLine, 128>; 16], location: usize) -> usize
    ensures answer { result ≡ edges_before (map in_use trees.now) location }
    ensures small { result ≤ 2048 }
{
    let mut before = 0;
    for tree in &trees[..location.min(16)] {
        before += tree.in_use().len();
    }
    before
}

// The trees of the locations, each held to the policy of its location.
#[derive_where(Clone, Copy)]
struct Trees<'a, O> {
    order: &'a O,
    tables: &'a Tables,
}

impl<O: Order> Trees<'_, O> {
    fn tree_breach(&self, location: usize, before: usize, tree: &[TreeLine]) -> Option<RuleBreach>
        requires { before ≤ 2048 }
        ensures answer { result ≡ tree_told (O.below self.now.order.now) (network self.now.tables.now).plan before location tree.now }
        ensures clear { result ≡ None → TreeAtObeys (O.below self.now.order.now) (network self.now.tables.now).plan location tree.now }
        ensures keeps { TreeAtObeys (O.below self.now.order.now) (network self.now.tables.now).plan location tree.now → result ≡ None }
        ensures breaks { IfSome result (TreeBroken (O.below self.now.order.now) (network self.now.tables.now).plan before location tree.now) }
    {
        let number = policy_at(self.tables, location);
        let policy = policy_of(self.order, self.tables, number);
        let breach = policy.breach(tree)?;
        Some(RuleBreach {
            table: TableKind::Lines(LineKind::Edge),
            row: before + breach.row,
            rule: Rule::Tree(breach.rule),
        })
    }
}

impl<O: Order> Judge<Table<TreeLine, 128>> for Trees<'_, O> {
    ghost told = { λ s location tree. tree_told (O.below s.order.now) (network s.tables.now).plan (edges_before (network s.tables.now).trees location) location (in_use tree) };

    ghost clear = { λ s location tree. TreeAtObeys (O.below s.order.now) (network s.tables.now).plan location (in_use tree) };

    ghost keeps = { λ s location tree. TreeAtObeys (O.below s.order.now) (network s.tables.now).plan location (in_use tree) };

    ghost breaks = { λ s location tree. TreeBroken (O.below s.order.now) (network s.tables.now).plan (edges_before (network s.tables.now).trees location) location (in_use tree) };

    fn judge(&self, location: usize, tree: &Table<TreeLine, 128>) -> Option<RuleBreach> {
        let before = edges_before(&self.tables.trees, location);
        self.tree_breach(location, before, tree.in_use())
    }
}

// The first edge, counted over all locations, that breaks a rule.
pub(crate) fn edges_breach<O: Order>(order: &O, tables: &Tables) -> Option<RuleBreach>
    ensures answer { result ≡ edges_told (O.below order.now) (network tables.now).plan (network tables.now).trees }
    ensures clear { result ≡ None → (l : ℕ) → l < length (network tables.now).trees → TreeAtObeys (O.below order.now) (network tables.now).plan l (slice_index_or (network tables.now).trees l []) }
    ensures keeps { ((l : ℕ) → l < length (network tables.now).trees → TreeAtObeys (O.below order.now) (network tables.now).plan l (slice_index_or (network tables.now).trees l [])) → result ≡ None }
    ensures breaks { IfSome result (λ b. (l : ℕ) × (l < length (network tables.now).trees) × TreeBroken (O.below order.now) (network tables.now).plan (edges_before (network tables.now).trees l) l (slice_index_or (network tables.now).trees l []) b) }
{
    first_told(&Trees { order, tables }, &tables.trees)
}

// The first grant that breaks its rule.
pub(crate) fn grants_breach<O: Order>(order: &O, tables: &Tables) -> Option<RuleBreach>
    ensures answer { result ≡ grants_told (O.below order.now) O.TOP (in_use tables.now.grants) }
    ensures clear { result ≡ None → Each (GrantObeys (O.below order.now) O.TOP) grant0 (in_use tables.now.grants) }
    ensures keeps { Each (GrantObeys (O.below order.now) O.TOP) grant0 (in_use tables.now.grants) → result ≡ None }
    ensures breaks { IfSome result (λ b. (row : ℕ) × FirstRow (GrantObeys (O.below order.now) O.TOP) grant0 (in_use tables.now.grants) row × b ≡ record { table = Lines kind.Grant; row = row; rule = rule.Grant }) }
{
    let row = grant_breach(order, tables.grants.in_use())?;
    Some(RuleBreach {
        table: TableKind::Lines(LineKind::Grant),
        row,
        rule: Rule::Grant,
    })
}
