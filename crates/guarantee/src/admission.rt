// Admission, with what it promises of all that follows.
ghost use Rattle.std.specs.Prelude.{◌≡◌, length, IfOk};
ghost use Rattle.layout.specs.Held.{in_use};
ghost use Rattle.shape.specs.declared.place.Stage.TheVariants as stage;
ghost use Rattle.rules.specs.Admission.{standing_fault, answered, Decided};
ghost use Rattle.guarantee.specs.Guarantee.{Guarantee};

use layout::{Tables, sized};
use order::Order;
use rules::{Fault, Live};
use tables::Draft;

// The arrays are as long as their types say: the laws of networks rest on it.
fn guaranteed<O: Order>(
    draft: Draft,
    tables: &Tables,
    order: &O,
) -> Result<(Live, usize), (Draft, Fault)>
    ensures answer { result ≡ answered draft (length (in_use tables.now.jobs)) (standing_fault O.COUNT O.TOP (O.below order.now) tables.now stage.Draft) }
    ensures decided { Decided O.COUNT O.TOP (O.below order.now) tables.now result }
    ensures guarantee { IfOk result (λ live. Guarantee O.COUNT O.TOP (O.below order.now) tables.now) }
{
    sized(tables);
    rules::admit(draft, tables, order)
}

// A live network of the same tables, and how many jobs there are; or the first fault, and the draft is handed back. Nothing is
// written. Of a network that is admitted the guarantee holds: as it is, and after every list of calls under this order.
pub fn admit<O: Order>(
    draft: Draft,
    tables: &Tables,
    order: &O,
) -> Result<(Live, usize), (Draft, Fault)>
    ensures answer { result ≡ answered draft (length (in_use tables.now.jobs)) (standing_fault O.COUNT O.TOP (O.below order.now) tables.now stage.Draft) }
    ensures decided { Decided O.COUNT O.TOP (O.below order.now) tables.now result }
    ensures guarantee { IfOk result (λ live. Guarantee O.COUNT O.TOP (O.below order.now) tables.now) }
{
    let (live, jobs) = guaranteed(draft, tables, order)?;
    Ok((live, jobs))
}
