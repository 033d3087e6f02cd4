// What a host writes into the tables. Writes are divided by bars, and each is a place, a colon, and the numbers that are written over from
// a field on. The place is a table, a row, perhaps how many rows from there on are written alike, and perhaps a dot and the field.
use super::text::{narrow, numbers_of};
use layout::Tables;
use poke::{Poke, poke};
use std::io;

// Rows that are written alike, from a field on.
#[derive(Clone, Copy)]
struct Place {
    table: u32,
    row: u32,
    rows: u32,
    field: u32,
}

fn place_of(rt: &HostRuntime, text: &str) -> io::Result<Option<Place>> {
    let (rows, field) = text.split_once('.').unwrap_or((text, "0"));
    let field = numbers_of(rt, field)?;
    let numbers = numbers_of(rt, rows)?;
    let (table, row, rows) = match numbers.as_slice() {
        [table, row] => (*table, *row, 1),
        [table, row, rows] => (*table, *row, *rows),
        _ => return Ok(None),
    };
    Ok(Some(Place {
        table: narrow(table),
        row: narrow(row),
        rows: narrow(rows),
        field: field.first().map_or(0, |field| narrow(*field)),
    }))
}

// Whether all numbers of one row were written.
fn write_row(tables: &mut Tables, place: Place, row: u32, values: &[u64]) -> bool {
    let mut all = true;
    let mut field = place.field;
    for value in values {
        let change = Poke {
            table: place.table,
            row,
            field,
            value: *value,
        };
        all = poke(tables, change).is_ok() && all;
        field = field.wrapping_add(1);
    }
    all
}

fn write_rows(tables: &mut Tables, place: Place, values: &[u64]) -> bool {
    let mut all = true;
    for k in 0..place.rows {
        let row = place.row.wrapping_add(k);
        all = write_row(tables, place, row, values) && all;
    }
    all
}

fn write_one(rt: &HostRuntime, tables: &mut Tables, text: &str) -> io::Result<bool> {
    let Some((place, values)) = text.split_once(':') else {
        return Ok(text.trim().is_empty());
    };
    let values = numbers_of(rt, values)?;
    match place_of(rt, place)? {
        Some(place) => Ok(write_rows(tables, place, values.as_slice())),
        None => Ok(false),
    }
}

// Whether all of it was written.
pub(crate) fn write(rt: &HostRuntime, tables: &mut Tables, text: &str) -> io::Result<bool> {
    let mut all = true;
    for one in text.split('|') {
        all = write_one(rt, tables, one)? && all;
    }
    Ok(all)
}
