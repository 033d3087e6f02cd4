// What a read or a change looks for, and which slot it fills.
ghost use Rattle.std.specs.Prelude.{◌≡◌};
ghost use Rattle.meaning.specs.Decoding.{pattern_of};

use order::RoleSet;
use rows::PatternRow;

#[derive(Clone, Copy, Debug, PartialEq, Eq)]
pub enum Pattern {
    Number {
        slot: u32,
    },
    Script {
        slot: u32,
        policy: u32,
    },
    // A pointer to a location of the policy by a path whose last set is this one. It fills its slot with the location and
    // the next slot with the path.
    Pointer {
        slot: u32,
        policy: u32,
        last: RoleSet,
    },
    // A tree that obeys the policy, whose top edges have roles of `top` only, and each of whose sets is ≤ `all`.
    Tree {
        slot: u32,
        policy: u32,
        top: RoleSet,
        all: RoleSet,
    },
}

impl Pattern {
    // Here a row's numbers become a pattern, so they are told apart as numbers.
    pub fn decode(row: PatternRow) -> Option<Pattern>
        ensures answer { result ≡ pattern_of row }
    {
        let slot = row.slot;
        match (row.kind, row.policy, row.first, row.second) {
            (1, 0, 0, 0) => Some(Pattern::Number { slot }),
            (2, policy, 0, 0) => Some(Pattern::Script { slot, policy }),
            (3, policy, last, 0) => Some(Pattern::Pointer { slot, policy, last }),
            (4, policy, first, second) => Some(Pattern::Tree {
                slot,
                policy,
                top: first,
                all: second,
            }),
            _ => None,
        }
    }
}
