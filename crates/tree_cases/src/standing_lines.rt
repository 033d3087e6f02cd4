// Whether lines are a tree, as the operations ask.
ghost use Rattle.std.specs.Prelude.{◌≡◌, ℕ, ◌<◌, ◌≤◌, true, length};
ghost use Rattle.obeying.specs.Rules.{line};
ghost use Rattle.standing.specs.Words.{TreeStands};
ghost use Rattle.edges.specs.Edges.{Nested};

use rows::TreeLine;
use scan::first_fault;
use standing::Sizes;

// What the trees of this program may name.
const NAMES: Sizes = Sizes {
    roles: 32,
    top: 0,
    policies: 2,
    locations: 2,
    paths: 2,
    templates: 2,
    patterns: 2,
    commands: 1,
    jobs: 2,
    shelf: 0,
};

fn stands_among(names: &Sizes, tree: &[TreeLine]) -> bool
    ensures says { result ≡ true → TreeStands names.now tree.now }
{
    first_fault(names, tree).is_none()
}

#[tactic(auto, using(edges::proofs::Nesting::standing_nested))]
pub(crate) fn stands(tree: &[TreeLine]) -> bool
    ensures nested { result ≡ true → Nested tree.now }
    ensures deep { result ≡ true → (i : ℕ) → i < length tree.now → (line tree.now i).depth ≤ 12 }
{
    stands_among(&NAMES, tree)
}
