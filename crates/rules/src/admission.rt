// A draft becomes live, and a live network is given up.
ghost use Rattle.std.specs.Prelude.{◌≡◌, length, IfOk};
ghost use Rattle.layout.specs.Held.{in_use};
ghost use Rattle.layout.specs.Network.{network, stored, empty, Holds};
ghost use Rattle.rules.specs.Admission.{standing_fault, answered, Decided};

use super::fault::Fault;
use super::judging::standing_fault;
use super::live::Live;
use layout::Tables;
use order::Order;
use shape::Stage;
use tables::{Blank, Draft};

// A live network of the same tables, and how many jobs there are; or the first fault, and the draft is handed back. A network is
// accepted exactly when it has shape and obeys the typing rules. Nothing is written.
pub fn admit<O: Order>(
    draft: Draft,
    tables: &Tables,
    order: &O,
) -> Result<(Live, usize), (Draft, Fault)>
    ensures answer { result ≡ answered draft (length (in_use tables.now.jobs)) (standing_fault O.COUNT O.TOP (O.below order.now) tables.now Stage.Draft) }
    ensures decided { Decided O.COUNT O.TOP (O.below order.now) tables.now result }
    ensures holds { IfOk result (λ live. Holds tables.now (network tables.now)) }
{
    match standing_fault(order, tables, Stage::Draft) {
        Some(fault) => Err((draft, fault)),
        None => {
            let (serial, _lines) = draft.spend();
            let jobs = tables.jobs.in_use().len();
            Ok((Live { serial, jobs }, jobs))
        }
    }
}

// The tables are all zero then.
pub fn close(live: Live, tables: &mut Tables) -> Blank
    ensures answer { result ≡ record { serial = live.serial } }
    ensures after { tables.new ≡ stored empty }
{
    *tables = layout::blank();
    let Live { serial, jobs: _ } = live;
    Blank::new(serial)
}
