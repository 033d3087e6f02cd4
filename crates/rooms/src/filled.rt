// Rows that may be more than a table has room for.
ghost use Rattle.std.specs.Prelude.{◌≡◌, ◌++◌, ◌∷◌, [], List, false};
ghost use Rattle.rooms.specs.Filled.{filled_of, added};

use layout::Table;

// As many of the rows as the table has room for, and whether there were more.
#[derive(Clone, Copy, Debug, PartialEq, Eq)]
pub struct Filled<T, const N: usize> {
    pub table: Table<T, N>,
    pub over: bool,
}

impl<T: Copy, const N: usize> Filled<T, N> {
    // One row more; where there is no room for it, that is noted.
    #[tactic(auto, unfolding(crate::specs::Filled::added), using(crate::proofs::Adding::taken, crate::proofs::Adding::unwritten))]
    pub fn add(&mut self, row: T)
        ensures adds { self.new ≡ added N self.old row }
        ensures after { (zero : T) (rows : List T) → self.old ≡ filled_of N zero rows → self.new ≡ filled_of N zero (rows ++ (row ∷ [])) }
    {
        if self.table.push(row).is_err() {
            self.over = true;
        }
    }
}

impl<T: Copy, const N: usize> From<Table<T, N>> for Filled<T, N> {
    ghost from_gives = { λ table filled. filled ≡ record { table = table; over = false } };

    fn from(table: Table<T, N>) -> Filled<T, N> {
        Filled { table, over: false }
    }
}
