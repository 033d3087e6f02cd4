// The drawn order's rows. The ghost fields are the three laws, so no drawn order can exist that breaks one.
ghost use Rattle.std.specs.Prelude.{◌≡◌, ℕ, ◌<◌, true};
ghost use Rattle.order.specs.Laws.{Transitive};
ghost use Rattle.drawn.specs.Rows.{rows_below};
ghost use Rattle.drawn.specs.Bounds.{rows_within, rows_lawful, rows_transitive};
ghost use Rattle.std.proofs.Common.{lit<, lit≤};

use order::{Order, Role, RoleSet, has_role};

pub(crate) const ROLES: usize = 32;

// Row a is the set of the roles that role a is at or below.
#[derive(Clone, Copy)]
pub struct Drawn {
    pub(crate) rows: [RoleSet; ROLES],
    ghost reflexive: { (a : ℕ) → a < 32 → rows_below rows a a ≡ true },
    ghost transitive: { ∥ Transitive (rows_below rows) ∥₁ },
    ghost topmost: { (a : ℕ) → a < 32 → rows_below rows a 0 ≡ true },
}

impl Order for Drawn {
    const COUNT: u32 = ROLES as u32;

    const TOP: u32 = 0;

    ghost COUNT = { 32 };

    ghost TOP = { 0 };

    ghost below = { λ s. rows_below s.rows };

    ghost few = { lit≤ tt };

    ghost inside = { lit< tt };

    ghost within = { λ s. rows_within s.rows };

    ghost reflexive = { λ s. s.reflexive };

    ghost transitive = { λ s. rows_transitive s.rows s.transitive };

    ghost topmost = { λ s. s.topmost };

    ghost lawful = { λ s. rows_lawful s.rows s.reflexive (rows_transitive s.rows s.transitive) s.topmost };

    #[tactic(auto, unfolding(crate::specs::Rows::rows_below))]
    fn at_or_below(&self, a: Role, b: Role) -> bool {
        a < Self::COUNT && b < Self::COUNT && has_role(self.rows[a as usize], b)
    }
}
