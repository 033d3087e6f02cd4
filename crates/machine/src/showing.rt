// One edge of a live network, to those to whom it is open.
ghost use Rattle.machine.specs.Hosting.{Shown};

use layout::Tables;
use order::{Order, RoleSet, opens};
use rows::TreeLine;
use rules::Live;
use shape::{Stage, shape};

// The line of the row at the location; nothing where there is no such row, where the roles do not open it, or where the tables
// are out of shape.
pub fn show<O: Order>(
    _live: &Live,
    tables: &Tables,
    order: &O,
    location: usize,
    row: usize,
    roles: RoleSet,
) -> Option<TreeLine>
    ensures answer { Shown O.COUNT O.TOP (O.below order.now) tables.now location row roles result }
{
    if shape::<O>(tables, Stage::Live).is_some() {
        return None;
    }
    let line = tables.trees.get(location)?.in_use().get(row)?;
    opens(order, line.set, roles).then_some(*line)
}
