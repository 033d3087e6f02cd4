// Drawing: the least order that has the given pairs, or a refusal that changes nothing.
ghost use Rattle.std.specs.Prelude.{◌≡◌, ℕ, ◌^◌, ◌<◌, [], Some, cond, Decides, MatchOption, MatchResult, OnErr, bit_or, slice_index};
ghost use Rattle.order.specs.RoleSets.{has};
ghost use Rattle.drawn.specs.Rows.{rows_below};
ghost use Rattle.drawn.specs.Draws.{Least, Known, AllKnown, FirstUnknown};
ghost use Rattle.drawn.specs.Faults.{refusal, Refused, fault_text};
ghost use Rattle.drawn.specs.Pairs.{only_top, joined, grown_row};

use super::rows::{Drawn, ROLES};
use order::{Order, Role, RoleSet, has_role, with_role};
use std::error::Error;
use std::{array, fmt};

// A pair has a code that is no role; `pair` is the place of the first such pair.
#[derive(Clone, Copy, Debug, PartialEq, Eq)]
pub struct DrawFault {
    pub pair: usize,
}

impl DrawFault {
    pub fn number(&self) -> u32
        ensures answer { result ≡ (refusal self.now).number }
    {
        12
    }
}

impl fmt::Display for DrawFault {
    ghost output = { λ fault. Some (fault_text fault) };

    fn fmt<W: fmt::Write>(&self, f: &mut fmt::Formatter<W>) -> fmt::Result {
        let pair = self.pair;
        write!(f, "pair {pair} has a code that is no role")
    }
}

impl Error for DrawFault {}

fn is_unknown(pair: (Role, Role)) -> bool
    ensures says { Decides result (Known pair → ⊥) }
{
    pair.0 >= Drawn::COUNT || pair.1 >= Drawn::COUNT
}

fn first_unknown(pairs: &[(Role, Role)]) -> Option<usize>
    ensures answer { MatchOption result (AllKnown pairs.now) (FirstUnknown pairs.now) }
{
    pairs.iter().position(|pair| is_unknown(*pair))
}

// Each role at or below itself and the top.
fn fresh_rows() -> [RoleSet; ROLES]
    ensures answer { (a : ℕ) → a < 32 → slice_index result a ≡ bit_or 1 (2 ^ a) }
{
    array::from_fn(|a| with_role(1, a as Role))
}

// A row that has `a` takes in the roles above it.
fn grown(row: RoleSet, a: Role, above: RoleSet) -> RoleSet
    ensures answer { result ≡ cond (has row a) (bit_or row above) row }
{
    if has_role(row, a) { row | above } else { row }
}

// Each row that has `a` takes in the row of `b`: one row operation for each role.
fn grow(rows: &[RoleSet; ROLES], a: Role, b: Role) -> [RoleSet; ROLES]
    requires { Known (a, b) }
    ensures answer { (x : ℕ) → x < 32 → slice_index result x ≡ grown_row rows.now a b x }
{
    let above = rows[b as usize];
    let mut all = *rows;
    for row in &mut all {
        *row = grown(*row, a, above);
    }
    all
}

impl Drawn {
    // Nothing drawn: a role is at or below itself and the top, and no other.
    fn no_pairs() -> Drawn
        ensures answer { (a b : ℕ) → rows_below result.rows a b ≡ only_top a b }
    {
        Drawn { rows: fresh_rows() }
    }

    // This order and one pair more.
    fn with_pair(&self, a: Role, b: Role) -> Drawn
        requires { Known (a, b) }
        ensures answer { (x y : ℕ) → rows_below result.rows x y ≡ joined (rows_below self.now.rows) a b x y }
    {
        Drawn {
            rows: grow(&self.rows, a, b),
        }
    }

    fn least(pairs: &[(Role, Role)]) -> Drawn
        requires { AllKnown pairs.now }
        ensures answer { Least pairs.now (rows_below result.rows) }
    {
        let mut order = Drawn::no_pairs();
        for pair in pairs {
            order = order.with_pair(pair.0, pair.1);
        }
        order
    }

    // The order drawn from no pairs.
    pub fn fresh() -> Drawn
        ensures answer { Least [] (rows_below result.rows) }
    {
        Drawn::least(&[])
    }

    // Puts the least order that has the pairs in this one's place. Refused, this one stays as it was.
    pub fn draw(&mut self, pairs: &[(Role, Role)]) -> Result<(), DrawFault>
        ensures answer { MatchResult result (λ _. Least pairs.now (rows_below self.new.rows)) (λ fault. Refused pairs.now (refusal fault)) }
        ensures same { OnErr result (self.new ≡ self.old) }
    {
        match first_unknown(pairs) {
            Some(pair) => Err(DrawFault { pair }),
            None => {
                *self = Drawn::least(pairs);
                Ok(())
            }
        }
    }
}
