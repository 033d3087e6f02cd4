// Rows in an array of fixed size.
ghost use Rattle.std.specs.Prelude.{◌≡◌, min, length, Some, is_ok, codes, replicate, if◌then◌else◌, nat_lt};
ghost use Rattle.layout.specs.Held.{in_use, pushed};

use std::error::Error;
use std::fmt;

// The first `count` rows are in use. The host may write any number into the count. The memory is fixed, so it is no `Vec`.
#[derive(Clone, Copy, Debug, PartialEq, Eq)]
pub struct Table<T, const N: usize> {
    pub count: usize,
    pub rows: [T; N],
}

// The table holds no further row.
#[derive(Clone, Copy, Debug, PartialEq, Eq)]
pub struct NoRoom;

impl fmt::Display for NoRoom {
    ghost output = { λ _. Some (codes "the table is full") };

    fn fmt<W: fmt::Write>(&self, f: &mut fmt::Formatter<W>) -> fmt::Result {
        f.write_str("the table is full")
    }
}

impl Error for NoRoom {}

// No rows in use, and all rows as their type begins.
impl<T: Copy + Default, const N: usize> Default for Table<T, N> {
    ghost is_default = { λ t. (z : T) × T.is_default z × (t ≡ record { count = 0; rows = replicate N z }) };

    fn default() -> Self {
        Table {
            count: 0,
            rows: [T::default(); N],
        }
    }
}

impl<T: Copy, const N: usize> Table<T, N> {
    // The rows in use; a count that passes the array counts as all of it.
    pub fn in_use(&self) -> &[T]
        ensures rows { result.now ≡ in_use self.now }
        ensures long { length result.now ≡ min self.now.count N }
    {
        &self.rows[..self.count.min(N)]
    }

    // One row more behind the last; nothing is written where the table is full.
    pub fn push(&mut self, row: T) -> Result<(), NoRoom>
        ensures answer { is_ok result ≡ nat_lt self.old.count N }
        ensures after { self.new ≡ (if is_ok result then pushed self.old row else self.old) }
    {
        if self.count >= N {
            return Err(NoRoom);
        }
        let at = self.count;
        self.rows[at] = row;
        self.count = at + 1;
        Ok(())
    }
}
