// The edges in use, counted over all locations.
ghost use Rattle.std.specs.Prelude.{◌≡◌, ◌<◌, ◌≤◌, length, IfSome, slice_index_or};
ghost use Rattle.layout.specs.Zeros.{no_tree};
ghost use Rattle.places.specs.Places.{edges_in, edge_place};

use layout::Table;
use rows::TreeLine;

// A location, and which of its edges, both from 0.
#[derive(Clone, Copy, Debug, PartialEq, Eq)]
pub struct Place {
    pub location: usize,
    pub edge: usize,
}

// How many edges of a location are in use. The host may write any count, and the array has 128 rows.
pub fn edges_in(tree: &Table<TreeLine, 128>) -> usize
    ensures answer { result ≡ edges_in tree.now }
{
    tree.in_use().len()
}

// Where the edge with this number stands, if it is in use.
pub fn edge_place(trees: &[Table<TreeLine, 128>], row: usize) -> Option<Place>
    ensures answer { result ≡ edge_place 0 row trees.now }
    ensures location { IfSome result (λ place. place.location < length trees.now) }
    ensures edge { IfSome result (λ place. place.edge < edges_in (slice_index_or trees.now place.location no_tree)) }
    ensures within { IfSome result (λ place. place.edge ≤ row) }
{
    let mut edge = row;
    for (location, tree) in trees.iter().enumerate() {
        let edges = edges_in(tree);
        if edge < edges {
            return Some(Place { location, edge });
        }
        edge -= edges;
    }
    None
}
