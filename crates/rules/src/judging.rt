// The first fault of tables.
ghost use Rattle.std.specs.Prelude.{◌≡◌, None, IfSome};
ghost use Rattle.layout.specs.Network.{network, Holds};
ghost use Rattle.breaches.specs.Words.{Ready};
ghost use Rattle.rules.specs.Admission.{Stands, Sound, standing_fault, live_fault, StandingBroken, LiveBroken};

use super::fault::Fault;
use breaches::{rules_breach, running_breach};
use layout::Tables;
use order::Order;
use shape::{Stage, shape};

// What keeps a draft from being admitted, and what a live network is told before its running jobs.
pub(crate) fn standing_fault<O: Order>(order: &O, tables: &Tables, stage: Stage) -> Option<Fault>
    ensures answer { result ≡ standing_fault O.COUNT O.TOP (O.below order.now) tables.now stage }
    ensures stands { result ≡ None → Stands O.COUNT O.TOP (O.below order.now) tables.now stage }
    ensures untold { Stands O.COUNT O.TOP (O.below order.now) tables.now stage → result ≡ None }
    ensures broken { IfSome result (StandingBroken O.COUNT O.TOP (O.below order.now) tables.now stage) }
    ensures holds { result ≡ None → Holds tables.now (network tables.now) }
    ensures ready { result ≡ None → Ready (network tables.now) }
{
    if let Some(place) = shape::<O>(tables, stage) {
        return Some(Fault::Shape(place));
    }
    let breach = rules_breach(order, tables)?;
    Some(Fault::Rule(breach))
}

// The first fault of the tables of a live network: shape, then the rules, the running jobs last; none exactly when they have
// shape and obey.
pub fn live_fault<O: Order>(order: &O, tables: &Tables) -> Option<Fault>
    ensures answer { result ≡ live_fault O.COUNT O.TOP (O.below order.now) tables.now }
    ensures stands { result ≡ None → Sound O.COUNT O.TOP (O.below order.now) tables.now }
    ensures untold { Sound O.COUNT O.TOP (O.below order.now) tables.now → result ≡ None }
    ensures broken { IfSome result (LiveBroken O.COUNT O.TOP (O.below order.now) tables.now) }
    ensures holds { result ≡ None → Holds tables.now (network tables.now) }
{
    if let Some(fault) = standing_fault(order, tables, Stage::Live) {
        return Some(fault);
    }
    let breach = running_breach(order, tables)?;
    Some(Fault::Rule(breach))
}
