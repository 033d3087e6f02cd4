// One number of the edges is written over. Their rows are counted over all locations.
ghost use Rattle.std.specs.Prelude.{◌≡◌, ◌<◌, ◌≤◌, OnErr};
ghost use Rattle.poke.specs.Placing.{with_trees};
ghost use Rattle.poke.specs.Poking.{told, after, behind, edge_place_in, edge_count_with, edges_with};

use super::poking::{Poke, Row};
use super::table::poke_table;
use super::wrong::Wrong;
use layout::{Table, Tables};
use places::{Place, edge_place, edges_in};
use rows::TreeLine;

// The number of a row that stands behind all rows of these trees, counted from there.
fn behind(trees: &[Table<TreeLine, 128>], row: usize) -> usize
    ensures answer { result ≡ behind row trees.now }
    ensures within { result ≤ row }
{
    trees
        .iter()
        .fold(row, |left, tree| left.saturating_sub(edges_in(tree)))
}

// A row behind all that are in use is one of the last location.
fn place_of(tables: &Tables, row: usize) -> Place
    ensures answer { result ≡ edge_place_in tables.now row }
    ensures location { result.location < 16 }
    ensures within { result.edge ≤ row }
{
    edge_place(&tables.trees, row).unwrap_or_else(|| {
        let location = tables.locations.in_use().len().saturating_sub(1);
        Place {
            location,
            edge: behind(&tables.trees[..location], row),
        }
    })
}

// The number of edges of the location that the field names.
fn poke_edge_count(tables: &mut Tables, poke: Poke) -> Result<(), Wrong>
    ensures answer { result ≡ told (edge_count_with tables.old.trees poke.field poke.value) }
    ensures after { tables.new ≡ with_trees tables.old (after tables.old.trees (edge_count_with tables.old.trees poke.field poke.value)) }
    ensures same { OnErr result (tables.new ≡ tables.old) }
{
    let at = poke.field as usize;
    if at >= tables.trees.len() {
        return Err(Wrong::Field);
    }
    tables.trees[at].count = poke.value as usize;
    Ok(())
}

pub(crate) fn poke_edges(tables: &mut Tables, poke: Poke) -> Result<(), Wrong>
    ensures answer { result ≡ told (edges_with tables.old poke.row poke.field poke.value) }
    ensures after { tables.new ≡ with_trees tables.old (after tables.old.trees (edges_with tables.old poke.row poke.field poke.value)) }
    ensures same { OnErr result (tables.new ≡ tables.old) }
{
    match Row::from(poke.row) {
        Row::Count => poke_edge_count(tables, poke),
        Row::At(at) => {
            let place = place_of(tables, at);
            let row = place.edge as u32;
            poke_table(&mut tables.trees[place.location], Poke { row, ..poke })
        }
    }
}
