// What lies under an edge, as a tree on its own.
ghost use Rattle.std.specs.Prelude.{◌≡◌, ◌-◌, ◌<◌, ◌≤◌, if◌then◌else◌, length, nat_lt, Some, None};
ghost use Rattle.layout.specs.Network.{tree_of};
ghost use Rattle.obeying.specs.TreeLaws.{at_depth, under};

use layout::Table;
use rows::TreeLine;

fn at_depth(line: TreeLine, depth: u32) -> TreeLine
    ensures answer { result ≡ at_depth line depth }
{
    TreeLine { depth, ..line }
}

// The line as it stands in a tree of what lies under an edge of this depth; None where it does not lie under that edge.
fn raised(line: TreeLine, depth: u32) -> Option<TreeLine>
    ensures answer { result ≡ (if nat_lt depth line.depth then Some (at_depth line (line.depth - depth)) else None) }
{
    if depth < line.depth {
        Some(at_depth(line, line.depth - depth))
    } else {
        None
    }
}

// A copy of what lies under the edge of this row, its depths counted from the edge. A crate above asks it of trees of a location.
pub fn copy_under(tree: &[TreeLine], row: usize) -> Table<TreeLine, 128>
    requires inside { row < length tree.now }
    requires few { length tree.now ≤ 128 }
    ensures answer { result ≡ tree_of (under tree.now row) }
{
    let depth = tree[row].depth;
    let mut copy = Table::default();
    for line in &tree[row + 1..] {
        match raised(*line, depth) {
            Some(line) => {
                let _room = copy.push(line);
            }
            None => break,
        }
    }
    copy
}
