// Rows that are all zero: what stands behind the last row of a table.
ghost use Rattle.std.specs.Prelude.{◌≡◌, ◌+◌, ◌<◌, Bool, not, position, length, drop, IfSome, ◌==◌};
ghost use Rattle.std.proofs.Common.{rules};
ghost use Rattle.scan.specs.Scan.{first_bad};
ghost use Rattle.zeros.specs.Zeroed.{policy_zero, grant_zero, location_zero, step_zero, line_zero, template_zero, pattern_zero, command_zero, job_zero, slot_zero, running_zero};

use layout::{RunningRow, Slot};
use rows::{
    CommandRow, GrantRow, JobRow, LocationRow, PathStepRow, PatternRow, PolicyRow, TemplateRow,
    TreeLine,
};

// A row that can be all zero.
pub trait Zeroed {
    ghost zeroed: { Self → Bool };

    fn is_zero(&self) -> bool
        ensures answer { result ≡ zeroed self.now };
}

// A row that is all zero exactly where it equals its default.
pub trait DefaultIsZero: Copy + Default + PartialEq {
    ghost zero: { Self → Bool };

    fn equals_default(&self) -> bool
        ensures answer { result ≡ zero self.now }
    {
        *self == Self::default()
    }

    ghost equal: { (x d : Self) → Self.is_default d → Self.eq x d ≡ zero x };
}

impl<T: DefaultIsZero> Zeroed for T {
    ghost zeroed = { T.zero };

    fn is_zero(&self) -> bool {
        self.equals_default()
    }
}

// How many rows from the place on are all zero, where another follows them.
fn zeros_before<T: Zeroed>(rows: &[T], from: usize) -> Option<usize>
    ensures answer { result ≡ position (λ row. not (T.zeroed row)) (drop from rows.now) }
    ensures inside { IfSome result (λ zeros. from + zeros < length rows.now) }
{
    rows.iter().skip(from).position(|row| !row.is_zero())
}

// The first row from the place on that is not all zero.
pub fn first_written<T: Zeroed>(rows: &[T], from: usize) -> Option<usize>
    ensures answer { result ≡ first_bad (λ i x. T.zeroed x) from (drop from rows.now) }
    ensures inside { IfSome result (λ i. i < length rows.now) }
{
    zeros_before(rows, from).map(|zeros| from + zeros)
}

impl DefaultIsZero for usize {
    ghost zero = { λ n. (n == 0) };

    ghost equal = { Prim.search rules };
}

impl DefaultIsZero for PolicyRow {
    ghost zero = { policy_zero };

    ghost equal = { Prim.search rules };
}

impl DefaultIsZero for GrantRow {
    ghost zero = { grant_zero };

    ghost equal = { Prim.search rules };
}

impl DefaultIsZero for LocationRow {
    ghost zero = { location_zero };

    ghost equal = { Prim.search rules };
}

impl DefaultIsZero for PathStepRow {
    ghost zero = { step_zero };

    ghost equal = { Prim.search rules };
}

impl DefaultIsZero for TreeLine {
    ghost zero = { line_zero };

    ghost equal = { Prim.search rules };
}

impl DefaultIsZero for TemplateRow {
    ghost zero = { template_zero };

    ghost equal = { Prim.search rules };
}

impl DefaultIsZero for PatternRow {
    ghost zero = { pattern_zero };

    ghost equal = { Prim.search rules };
}

impl DefaultIsZero for CommandRow {
    ghost zero = { command_zero };

    ghost equal = { Prim.search rules };
}

impl DefaultIsZero for JobRow {
    ghost zero = { job_zero };

    ghost equal = { Prim.search rules };
}

impl DefaultIsZero for Slot {
    ghost zero = { slot_zero };

    ghost equal = { Prim.search rules };
}

// `==` also compares how many slots there are, which the test for zeros does not ask, so the law above fails where a list of
// slots is of another length: the slots are looked at one by one.
impl Zeroed for RunningRow {
    ghost zeroed = { running_zero };

    fn is_zero(&self) -> bool {
        self.location == 0
            && self.roles == 0
            && self.command == 0
            && first_written(&self.slots, 0).is_none()
    }
}
