// Rows that are judged one after the other.
ghost use Rattle.std.specs.Prelude.{◌≡◌, ℕ, None, Some, Option, IfSome, slice_get};
ghost use Rattle.breaches.specs.declared.breach.RuleBreach.{RuleBreach};
ghost use Rattle.breaches.specs.Told.{first_told};

use super::breach::RuleBreach;

// What is told of a row.
pub(crate) trait Judge<T> {
    ghost told: { Self → ℕ → T → Option RuleBreach };

    // what it says that nothing is told
    ghost clear: { Self → ℕ → T → Type 0 };

    // what it takes that nothing is told
    ghost keeps: { Self → ℕ → T → Type 0 };

    // what it says that a breach is told
    ghost breaks: { Self → ℕ → T → RuleBreach → Type 0 };

    fn judge(&self, row: usize, x: &T) -> Option<RuleBreach>
        ensures answer { result ≡ told self.now row x.now }
        ensures clear { result ≡ None → clear self.now row x.now }
        ensures keeps { keeps self.now row x.now → result ≡ None }
        ensures breaks { IfSome result (breaks self.now row x.now) };
}

// The first row of which something is told.
pub(crate) fn first_told<T, J: Judge<T>>(judge: &J, rows: &[T]) -> Option<RuleBreach>
    ensures answer { result ≡ first_told (J.told judge.now) 0 rows.now }
    ensures clear { result ≡ None → (k : ℕ) (x : _) → slice_get rows.now k ≡ Some x → J.clear judge.now k x }
    ensures keeps { ((k : ℕ) (x : _) → slice_get rows.now k ≡ Some x → J.keeps judge.now k x) → result ≡ None }
    ensures breaks { IfSome result (λ b. (k : ℕ) × (x : _) × (slice_get rows.now k ≡ Some x) × J.breaks judge.now k x b) }
{
    for (row, x) in rows.iter().enumerate() {
        if let Some(breach) = judge.judge(row, x) {
            return Some(breach);
        }
    }
    None
}
