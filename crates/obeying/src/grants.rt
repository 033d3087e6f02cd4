// Grants: no disable reaches the top role.
ghost use Rattle.std.specs.Prelude.{◌≡◌, IfSome, None, Decides};
ghost use Rattle.layout.specs.Zeros.{grant0};
ghost use Rattle.scan.specs.Scan.{Each};
ghost use Rattle.obeying.specs.Rules.{GrantObeys, FirstRow};
ghost use Rattle.obeying.specs.Breaches.{grant_passes, grant_breach};

use meaning::Direction;
use order::Order;
use rows::GrantRow;

fn grant_obeys<O: Order>(order: &O, grant: &GrantRow) -> bool
    ensures answer { result ≡ grant_passes (O.below order.now) O.TOP grant.now }
    ensures says { Decides result (GrantObeys (O.below order.now) O.TOP grant.now) }
{
    match Direction::try_from(grant.direction) {
        Ok(Direction::Disable) => !order.at_or_below(O::TOP, grant.role),
        _ => true,
    }
}

// The first grant that breaks its rule, in words.
fn first_broken<O: Order>(order: &O, grants: &[GrantRow]) -> Option<usize>
    ensures stands { result ≡ None → Each (GrantObeys (O.below order.now) O.TOP) grant0 grants.now }
    ensures first { IfSome result (FirstRow (GrantObeys (O.below order.now) O.TOP) grant0 grants.now) }
{
    grants.iter().position(|grant| !grant_obeys(order, grant))
}

// The first grant that breaks its rule.
pub fn grant_breach<O: Order>(order: &O, grants: &[GrantRow]) -> Option<usize>
    ensures answer { result ≡ grant_breach (O.below order.now) O.TOP grants.now }
    ensures stands { result ≡ None → Each (GrantObeys (O.below order.now) O.TOP) grant0 grants.now }
    ensures told { Each (GrantObeys (O.below order.now) O.TOP) grant0 grants.now → result ≡ None }
    ensures first { IfSome result (FirstRow (GrantObeys (O.below order.now) O.TOP) grant0 grants.now) }
{
    first_broken(order, grants)
}
