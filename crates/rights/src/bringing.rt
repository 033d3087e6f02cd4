// Role a is at or below role b when all that a's rights bring is among what b's bring.
ghost use Rattle.std.specs.Prelude.{◌≡◌, ◌==◌, bit_and};
ghost use Rattle.rights.specs.Bringing.{brought, rights_below, TestSaysAmong};
ghost use Rattle.rights.specs.Orders.{rights_lawful};
ghost use Rattle.std.proofs.Common.{lit<, lit≤};

use order::{Order, Role, RoleSet, has_role};

// A set of rights: bit i stands for right i, as in a role set.
type RightSet = RoleSet;

// Row i is the set of rights that right i brings.
const TABLE: [RightSet; 6] = [1, 3, 5, 11, 21, 33];

#[derive(Clone, Copy, Debug, PartialEq, Eq)]
pub struct Rights;

// All that the rights of the code bring.
fn brought_by(code: Role) -> RightSet
    ensures answer { result ≡ brought code }
{
    let mut all = 0;
    for (right, row) in TABLE.iter().enumerate() {
        if has_role(RightSet::from(code), right as Role) {
            all |= *row;
        }
    }
    all
}

// Whether all of these rights are among the others.
fn is_among(rights: RightSet, others: RightSet) -> bool
    ensures answer { result ≡ (bit_and rights others == rights) }
{
    rights & others == rights
}

impl Order for Rights {
    const COUNT: u32 = 64;

    const TOP: u32 = 63;

    ghost COUNT = { 64 };

    ghost TOP = { 63 };

    ghost below = { λ _. rights_below };

    ghost few = { lit≤ tt };

    ghost inside = { lit< tt };

    ghost within = { λ s. rights_lawful.within };

    ghost reflexive = { λ s. rights_lawful.reflexive };

    ghost transitive = { λ s. rights_lawful.transitive };

    ghost topmost = { λ s. rights_lawful.topmost };

    ghost lawful = { λ s. rights_lawful };

    #[tactic(auto, unfolding(crate::specs::Bringing::rights_below))]
    fn at_or_below(&self, a: Role, b: Role) -> bool {
        a < Self::COUNT && b < Self::COUNT && is_among(brought_by(a), brought_by(b))
    }
}

// The order's test says what the words say, for any two numbers.
pub fn test_says_among()
    ensures law { TestSaysAmong }
{}
