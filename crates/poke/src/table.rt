// One number of a table is written over.
ghost use Rattle.std.specs.Prelude.{◌≡◌, OnErr};
ghost use Rattle.poke.specs.Poking.{told, after, table_with};

use super::cells::Cells;
use super::poking::{Poke, Row};
use super::wrong::Wrong;
use layout::Table;

pub(crate) fn poke_table<R: Cells, const N: usize>(
    table: &mut Table<R, N>,
    poke: Poke,
) -> Result<(), Wrong>
    ensures answer { result ≡ told (table_with R.written table.old poke.row poke.field poke.value) }
    ensures after { table.new ≡ after table.old (table_with R.written table.old poke.row poke.field poke.value) }
    ensures same { OnErr result (table.new ≡ table.old) }
{
    match Row::from(poke.row) {
        Row::Count if poke.field == 0 => {
            table.count = poke.value as usize;
            Ok(())
        }
        Row::Count => Err(Wrong::Field),
        // After `get_mut` nothing would be known of the other rows.
        Row::At(at) if at < N => {
            table.rows[at] = table.rows[at].with_field(poke.field, poke.value)?;
            Ok(())
        }
        Row::At(_) => Err(Wrong::Row),
    }
}
