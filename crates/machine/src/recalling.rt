// A running job is taken out.
ghost use Rattle.machine.specs.Hosting.{RecallAnswers, RecallLeaves};

use super::denial::{Denial, Missing};
use layout::Tables;
use order::Order;
use rooms::left;
use rules::Live;
use shape::{Stage, shape};

// Later jobs close up. A denied recall writes nothing.
pub fn recall<O: Order>(
    _live: &Live,
    tables: &mut Tables,
    _order: &O,
    position: usize,
) -> Result<(), Denial>
    ensures answer { RecallAnswers O.COUNT O.TOP (O.below _order.now) tables.old position result }
    ensures after { RecallLeaves O.COUNT O.TOP (O.below _order.now) tables.old position result tables.new }
{
    if let Some(place) = shape::<O>(tables, Stage::Live) {
        return Err(Denial::Shape(place));
    }
    if position >= tables.running.in_use().len() {
        return Err(Denial::Missing(Missing::Position));
    }
    tables.running = left(&tables.running, position);
    Ok(())
}
