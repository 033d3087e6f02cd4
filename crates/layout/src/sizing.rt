// How long the arrays are. Nothing is done here: the contracts say what the types know.
ghost use Rattle.std.specs.Prelude.{◌≡◌, ℕ, ◌<◌, length, slice_index_or};
ghost use Rattle.layout.specs.Network.{Sized};
ghost use Rattle.layout.specs.Zeros.{no_tree, no_running};

use super::held::Table;
use super::memory::{RunningRow, Tables};
use rows::TreeLine;

fn array<T, const N: usize>(rows: &[T; N])
    ensures long { length rows.now ≡ N }
{
    let whole: &[T] = rows;
    let _length = whole.len();
}

fn table<T, const N: usize>(t: &Table<T, N>)
    ensures long { length t.now.rows ≡ N }
{
    array(&t.rows);
}

fn forest(trees: &[Table<TreeLine, 128>; 16])
    ensures long { length trees.now ≡ 16 }
    ensures each { (k : ℕ) → k < 16 → length (slice_index_or trees.now k no_tree).rows ≡ 128 }
{
    for tree in trees {
        table(tree);
    }
}

fn slots(job: &RunningRow)
    ensures long { length job.now.slots ≡ 6 }
{
    array(&job.slots);
}

fn running(jobs: &[RunningRow; 64])
    ensures long { length jobs.now ≡ 64 }
    ensures each { (k : ℕ) → k < 64 → length (slice_index_or jobs.now k no_running).slots ≡ 6 }
{
    for job in jobs {
        slots(job);
    }
}

// Every array of the tables is as long as its type says.
pub fn sized(t: &Tables)
    ensures long { Sized t.now }
{
    table(&t.policies);
    table(&t.grants);
    table(&t.locations);
    table(&t.steps);
    forest(&t.trees);
    table(&t.templates);
    table(&t.patterns);
    table(&t.commands);
    table(&t.jobs);
    running(&t.running.rows);
    table(&t.shelf.trees);
    array(&t.shelf.lines);
}
