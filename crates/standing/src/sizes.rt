// What there is to be named.
ghost use Rattle.std.specs.Prelude.{◌≡◌};
ghost use Rattle.standing.specs.Sizes.{numbered_in, sizes_of};

use layout::{Table, Tables};
use order::Order;
use rows::{Numbered, next_number};

// The roles of the order, and how many rows of each kind there are. A row exists where it is below its table's count and
// below its limit, so a count that passes the limit counts as the limit.
#[derive(Clone, Copy, Debug, PartialEq, Eq)]
pub struct Sizes {
    pub roles: u32,
    pub top: u32,
    pub policies: usize,
    pub locations: usize,
    pub paths: usize,
    pub templates: usize,
    pub patterns: usize,
    pub commands: usize,
    pub jobs: usize,
    pub shelf: usize,
}

// How many have begun, and at most the limit.
fn numbered_in<T: Numbered + Copy, const N: usize>(table: &Table<T, N>, limit: usize) -> usize
    ensures answer { (zero : _) → result ≡ numbered_in T.number zero N limit table.now }
{
    next_number(table.in_use()).min(limit)
}

pub fn sizes_of<O: Order>(t: &Tables) -> Sizes
    ensures answer { result ≡ sizes_of O.COUNT O.TOP t.now }
{
    Sizes {
        roles: O::COUNT,
        top: O::TOP,
        policies: t.policies.in_use().len(),
        locations: t.locations.in_use().len(),
        paths: numbered_in(&t.steps, 64),
        templates: numbered_in(&t.templates, 32),
        patterns: t.patterns.in_use().len(),
        commands: t.commands.in_use().len(),
        jobs: t.jobs.in_use().len(),
        shelf: t.shelf.trees.in_use().len(),
    }
}
