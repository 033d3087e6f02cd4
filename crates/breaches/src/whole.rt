// A whole network.
ghost use Rattle.std.specs.Prelude.{◌≡◌, None, IfSome};
ghost use Rattle.layout.specs.Network.{network};
ghost use Rattle.breaches.specs.Broken.{RuleBroken, SomeRunningBroken};
ghost use Rattle.breaches.specs.Told.{rules_told, all_running_told};
ghost use Rattle.breaches.specs.Words.{Obeys, RunningObeys, Ready};

use super::breach::RuleBreach;
use super::ground::{edges_breach, grants_breach};
use super::jobs::jobs_breach;
use super::running::all_running_breach;
use layout::Tables;
use order::Order;

// The first breach in what a sheet says: grants by row, edges by row, jobs by row. Any tables may be asked about; that nothing
// told means that they obey rests on what shape gives of the commands.
pub fn rules_breach<O: Order>(order: &O, tables: &Tables) -> Option<RuleBreach>
    ensures answer { result ≡ rules_told (O.below order.now) O.TOP (network tables.now) }
    ensures stands { Ready (network tables.now) → result ≡ None → Obeys (O.below order.now) O.TOP (network tables.now) }
    ensures untold { Obeys (O.below order.now) O.TOP (network tables.now) → result ≡ None }
    ensures broken { IfSome result (RuleBroken (O.below order.now) O.TOP (network tables.now)) }
{
    // With `or_else` the goals stayed open.
    if let Some(breach) = grants_breach(order, tables) {
        return Some(breach);
    }
    match edges_breach(order, tables) {
        Some(breach) => Some(breach),
        None => jobs_breach(order, tables),
    }
}

// The first breach of a running job, by its place.
pub fn running_breach<O: Order>(order: &O, tables: &Tables) -> Option<RuleBreach>
    ensures answer { result ≡ all_running_told (O.below order.now) (network tables.now) }
    ensures stands { Ready (network tables.now) → result ≡ None → RunningObeys (O.below order.now) (network tables.now) }
    ensures untold { RunningObeys (O.below order.now) (network tables.now) → result ≡ None }
    ensures broken { IfSome result (SomeRunningBroken (O.below order.now) (network tables.now)) }
{
    all_running_breach(order, tables)
}
