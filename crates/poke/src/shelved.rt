// One number of the shelf is written over.
ghost use Rattle.std.specs.Prelude.{◌≡◌, OnErr};
ghost use Rattle.poke.specs.Poking.{told, after, lengths_with, shelved_with, shelf_with};

use super::cells::Cells;
use super::poking::{Poke, Row};
use super::wrong::Wrong;
use layout::Shelf;

// The number of trees, or the number of lines of one of them.
fn poke_lengths(shelf: &mut Shelf, poke: Poke) -> Result<(), Wrong>
    ensures answer { result ≡ told (lengths_with shelf.old poke.field poke.value) }
    ensures after { shelf.new ≡ after shelf.old (lengths_with shelf.old poke.field poke.value) }
    ensures same { OnErr result (shelf.new ≡ shelf.old) }
{
    if poke.field == 0 {
        shelf.trees.count = poke.value as usize;
        return Ok(());
    }
    let at = (poke.field - 1) as usize;
    if at >= shelf.trees.rows.len() {
        return Err(Wrong::Field);
    }
    shelf.trees.rows[at] = poke.value as usize;
    Ok(())
}

// A line, by its place among all lines.
fn poke_shelved(shelf: &mut Shelf, at: usize, poke: Poke) -> Result<(), Wrong>
    ensures answer { result ≡ told (shelved_with shelf.old at poke.field poke.value) }
    ensures after { shelf.new ≡ after shelf.old (shelved_with shelf.old at poke.field poke.value) }
    ensures same { OnErr result (shelf.new ≡ shelf.old) }
{
    if at >= shelf.lines.len() {
        return Err(Wrong::Row);
    }
    shelf.lines[at] = shelf.lines[at].with_field(poke.field, poke.value)?;
    Ok(())
}

pub(crate) fn poke_shelf(shelf: &mut Shelf, poke: Poke) -> Result<(), Wrong>
    ensures answer { result ≡ told (shelf_with shelf.old poke.row poke.field poke.value) }
    ensures after { shelf.new ≡ after shelf.old (shelf_with shelf.old poke.row poke.field poke.value) }
    ensures same { OnErr result (shelf.new ≡ shelf.old) }
{
    match Row::from(poke.row) {
        Row::Count => poke_lengths(shelf, poke),
        Row::At(at) => poke_shelved(shelf, at, poke),
    }
}
