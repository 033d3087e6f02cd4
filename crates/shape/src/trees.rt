// The trees of the locations. Rows are numbered over all locations, and all rows in use come before the rest.
ghost use Rattle.std.specs.Prelude.{◌≡◌, ℕ, ◌≤◌, Option};
ghost use Rattle.rows.specs.declared.row.TreeLine.{TreeLine};
ghost use Rattle.layout.specs.declared.held.Table.{Table};
ghost use Rattle.scan.specs.Scan.{first_of};
ghost use Rattle.shape.specs.Place.{base_after, tree_fault, past_fault, edges_fault};

use layout::Table;
use rows::TreeLine;
use scan::first_fault;
use standing::Sizes;
use zeros::first_written;

// What is told of a location's tree, which begins at the row `base`.
trait TreeFault {
    ghost told: { Self → ℕ → ℕ → Table TreeLine 128 → Option ℕ };

    fn fault(&self, base: usize, location: usize, tree: &Table<TreeLine, 128>) -> Option<usize>
        requires { base ≤ 2048 }
        ensures answer { result ≡ told self.now base location tree.now };
}

// The rows in use. A location that does not exist has none.
#[derive(Clone, Copy)]
struct InUse<'a> {
    names: &'a Sizes,
}

impl<'a> TreeFault for InUse<'a> {
    ghost told = { λ f base location tree. tree_fault f.names.now base location tree };

    fn fault(&self, base: usize, location: usize, tree: &Table<TreeLine, 128>) -> Option<usize> {
        if location >= self.names.locations {
            return (tree.count != 0).then_some(base);
        }
        first_fault(self.names, tree.in_use())
            .or_else(|| (128 < tree.count).then_some(128))
            .map(|row| base + row)
    }
}

// The rows past the last.
#[derive(Clone, Copy)]
struct Past;

impl TreeFault for Past {
    ghost told = { λ f base location tree. past_fault base tree };

    fn fault(&self, base: usize, _location: usize, tree: &Table<TreeLine, 128>) -> Option<usize> {
        first_written(&tree.rows, tree.in_use().len()).map(|row| base + row)
    }
}

// The first row that is told, tree by tree.
fn first_over<F: TreeFault>(faults: &F, trees: &[Table<TreeLine, 128>; 16]) -> Option<usize>
    ensures answer { result ≡ first_of (F.told faults.now) base_after 0 0 trees.now }
{
    let mut base = 0;
    for (location, tree) in trees.iter().enumerate() {
        if let Some(row) = faults.fault(base, location, tree) {
            return Some(row);
        }
        base += tree.in_use().len();
    }
    None
}

pub(crate) fn edges_fault(names: &Sizes, trees: &[Table<TreeLine, 128>; 16]) -> Option<usize>
    ensures answer { result ≡ edges_fault names.now trees.now }
{
    first_over(&InUse { names }, trees).or_else(|| first_over(&Past, trees))
}
