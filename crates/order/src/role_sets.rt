// Role sets as numbers, and what they open.
ghost use Rattle.std.specs.Prelude.{◌≡◌, ◌^◌, ◌<◌, ◌≤◌, true, Decides};
ghost use Rattle.order.specs.RoleSets.{has, SomeBelow, SetBelow, Opens, InUse, Lowest, NextRole, some_below, set_below, opens_to, in_use, in_use_of, with_role};
ghost use Rattle.order.specs.SetLaws.{RoleSetLaws};
ghost use Rattle.std.specs.Iterator.{at_most};

use super::Order;

// A role's code. Any number may be asked about; an order says which codes are roles.
pub type Role = u32;

// A set of roles: bit r stands for role r. A plain number, as the host's tables hold it.
pub type RoleSet = u64;

// The roles of a set, the lowest first.
#[derive(Clone, Copy)]
pub struct Roles {
    left: RoleSet,
}

// The lowest role of a set that has one, and the set without it.
fn split_lowest(set: RoleSet) -> (Role, RoleSet)
    requires { 0 < set }
    ensures answer { Lowest set result.0 result.1 }
    ensures falls { result.1 < set }
{
    (set.trailing_zeros(), set & (set - 1))
}

impl Iterator for Roles {
    type Item = Role;

    ghost remaining = { λ s. at_most s.left };

    ghost next_gives = { λ s r t. NextRole s.left r t.left };

    fn next(&mut self) -> Option<Role> {
        if self.left == 0 {
            return None;
        }
        let (role, rest) = split_lowest(self.left);
        self.left = rest;
        Some(role)
    }
}

pub fn roles_of(set: RoleSet) -> Roles
    ensures answer { result.left ≡ set }
{
    Roles { left: set }
}

#[tactic(auto, unfolding(crate::specs::RoleSets::has))]
fn bit(set: RoleSet, role: Role) -> bool
    requires { role < 64 }
    ensures answer { result ≡ has set role }
{
    (set >> role) % 2 == 1
}

// The set of one role.
fn single(role: Role) -> RoleSet
    requires { role < 64 }
    ensures answer { result ≡ 2 ^ role }
{
    1 << role
}

pub fn has_role(set: RoleSet, role: Role) -> bool
    ensures answer { result ≡ has set role }
{
    role < 64 && bit(set, role)
}

// The set with the role put in. A set has 64 places, so a code above 63 leaves it as it is.
pub fn with_role(set: RoleSet, role: Role) -> RoleSet
    ensures answer { role < 64 → result ≡ with_role set role }
    ensures same { 64 ≤ role → result ≡ set }
{
    if role < 64 { set | single(role) } else { set }
}

// Whether some role of the set is at or below the role. It asks the order at most once for each role of the set.
pub fn some_below<O: Order>(order: &O, set: RoleSet, role: Role) -> bool
    ensures answer { result ≡ some_below (O.below order.now) set role }
    ensures says { Decides result (SomeBelow (O.below order.now) set role) }
{
    for x in roles_of(set) {
        if order.at_or_below(x, role) {
            return true;
        }
    }
    false
}

// a ≤ b: whether for every role of b some role of a is at or below it. It asks the order at most once for each pair of a
// role of a and a role of b.
pub fn set_below<O: Order>(order: &O, a: RoleSet, b: RoleSet) -> bool
    ensures answer { result ≡ set_below (O.below order.now) a b }
    ensures says { Decides result (SetBelow (O.below order.now) a b) }
{
    for role in roles_of(b) {
        if !some_below(order, a, role) {
            return false;
        }
    }
    true
}

// Whether an edge with the set is open to the roles.
pub fn opens<O: Order>(order: &O, set: RoleSet, roles: RoleSet) -> bool
    ensures answer { result ≡ opens_to (O.below order.now) set roles }
    ensures says { Decides result (Opens (O.below order.now) set roles) }
{
    roles != 0 && set_below(order, set, roles)
}

// Whether the set can stand in a table where the roles are the first `count` codes: it is not empty, and each of its roles
// is one of them.
#[tactic(auto, using(crate::proofs::Uses::uses_shift))]
pub fn in_use_of(count: Role, set: RoleSet) -> bool
    ensures answer { result ≡ in_use_of count set }
    ensures roles { result ≡ in_use count set }
    ensures says { Decides result (InUse count set) }
{
    set != 0 && (count >= 64 || set >> count == 0)
}

// Whether the set can stand in a table under the order.
pub fn in_use<O: Order>(set: RoleSet) -> bool
    ensures answer { result ≡ in_use O.COUNT set }
    ensures says { Decides result (InUse O.COUNT set) }
{
    in_use_of(O::COUNT, set)
}

// Whether the order's top role is in the set.
pub fn holds_top<O: Order>(set: RoleSet) -> bool
    ensures answer { result ≡ has set O.TOP }
{
    has_role(set, O::TOP)
}

// The laws of role sets that the layers above rest on, for every lawful order.
pub fn role_sets_keep_their_laws()
    ensures laws { RoleSetLaws }
{}
