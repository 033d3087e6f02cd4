// One table, of any kind of rows.
ghost use Rattle.std.specs.Prelude.{◌≡◌};
ghost use Rattle.shape.specs.Place.{rest_fault, table_fault};

use layout::Table;
use scan::{Judged, first_fault};
use zeros::{Zeroed, first_written};

// The first row too many, else the first row past the last that is not zero.
fn rest_fault<T: Zeroed, const N: usize>(table: &Table<T, N>) -> Option<usize>
    ensures answer { result ≡ rest_fault T.zeroed N table.now }
{
    if N < table.count {
        Some(N)
    } else {
        first_written(&table.rows, table.count)
    }
}

// The first row in use that does not stand, else the rest.
pub(crate) fn table_fault<Names, T: Judged<Names> + Zeroed + Copy, const N: usize>(
    names: &Names,
    table: &Table<T, N>,
) -> Option<usize>
where
    T::Before: Drop,
    ensures answer { result ≡ table_fault (λ b i x. T.Judged.passes names.now b i x) T.Judged.after T.Judged.first T.Zeroed.zeroed N table.now }
{
    // For `or_else` the closure would need its clause written out, since it is generic.
    match first_fault(names, table.in_use()) {
        Some(row) => Some(row),
        None => rest_fault(table),
    }
}
