// The copied trees, one by one.
ghost use Rattle.std.specs.Prelude.{◌≡◌, ◌<◌, [], drop, take, length, slice_index_or};
ghost use Rattle.layout.specs.Held.{in_use};
ghost use Rattle.layout.specs.Network.{pieces};

use layout::Shelf;
use rows::TreeLine;

fn first(lines: &[TreeLine], count: usize) -> &[TreeLine]
    ensures rows { result.now ≡ take count lines.now }
{
    &lines[..count.min(lines.len())]
}

fn behind(lines: &[TreeLine], count: usize) -> &[TreeLine]
    ensures rows { result.now ≡ drop count lines.now }
{
    &lines[count.min(lines.len())..]
}

// How many trees are on the shelf.
#[tactic(auto, using(crate::proofs::Pieces::pieces_long))]
pub(crate) fn trees_on(shelf: &Shelf) -> usize
    ensures answer { result ≡ length (pieces (in_use shelf.now.trees) shelf.now.lines) }
{
    shelf.trees.in_use().len()
}

// The tree of this number; there are no lines where there is no such tree.
#[tactic(auto, using(crate::proofs::Pieces::piece_past, crate::proofs::Pieces::piece_next, crate::proofs::Pieces::piece_here))]
pub fn shelved(shelf: &Shelf, tree: usize) -> &[TreeLine]
    ensures rows { result.now ≡ slice_index_or (pieces (in_use shelf.now.trees) shelf.now.lines) tree [] }
{
    let counts = shelf.trees.in_use();
    let Some(count) = counts.get(tree) else {
        return &[];
    };
    let mut rest: &[TreeLine] = &shelf.lines;
    for before in &counts[..tree] {
        rest = behind(rest, *before);
    }
    first(rest, *count)
}
