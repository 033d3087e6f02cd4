// An audit of a live network.
ghost use Rattle.std.specs.Prelude.{◌≡◌, None, IfSome};
ghost use Rattle.rules.specs.declared.fault.Fault.{Fault};
ghost use Rattle.rules.specs.Admission.{Sound, LiveBroken};
ghost use Rattle.machine.specs.Calls.{record_of};
ghost use Rattle.machine.specs.Hosting.{Audited};

use breaches::Rule;
use layout::{TableKind, Tables};
use order::Order;
use rules::{Fault, Live, live_fault};

// A row of a table, and the rule that it breaks; none where the table has no shape there.
#[derive(Clone, Copy, Debug, PartialEq, Eq)]
pub struct FaultRecord {
    pub table: TableKind,
    pub row: usize,
    pub rule: Option<Rule>,
}

fn record_of(fault: Fault) -> FaultRecord
    ensures answer { result ≡ record_of fault }
{
    match fault {
        Fault::Shape(place) => FaultRecord {
            table: place.table,
            row: place.row,
            rule: None,
        },
        Fault::Rule(breach) => FaultRecord {
            table: breach.table,
            row: breach.row,
            rule: Some(breach.rule),
        },
    }
}

// The first fault: shape, then the rules, the running jobs last; none exactly where the tables have shape and all obeys.
pub fn audit<O: Order>(_live: &Live, tables: &Tables, order: &O) -> Option<FaultRecord>
    ensures answer { Audited O.COUNT O.TOP (O.below order.now) tables.now result }
    ensures stands { result ≡ None → Sound O.COUNT O.TOP (O.below order.now) tables.now }
    ensures untold { Sound O.COUNT O.TOP (O.below order.now) tables.now → result ≡ None }
    ensures broken { IfSome result (λ told. (fault : Fault) × LiveBroken O.COUNT O.TOP (O.below order.now) tables.now fault × (told ≡ record_of fault)) }
{
    match live_fault(order, tables) {
        Some(fault) => Some(record_of(fault)),
        None => None,
    }
}
