// Slots that a pattern fills.
ghost use Rattle.std.specs.Prelude.{◌≡◌, slice_set};
ghost use Rattle.slots.specs.Slots.{filled_by, filled};

use super::part::{Slots, pattern_at};
use meaning::Pattern;
use rows::PatternRow;

// One slot filled; there are six, so a number above 5 fills none.
fn fill(slots: &mut Slots, slot: usize, filler: usize)
    ensures after { slots.new ≡ slice_set slots.old slot filler }
{
    if slot < 6 {
        slots[slot] = filler;
    }
}

// The slots that the pattern has a part for, filled.
fn filled_by(pattern: Pattern, filler: usize, slots: Slots) -> Slots
    ensures answer { result ≡ filled_by (Some pattern) filler slots }
{
    let mut after = slots;
    match pattern {
        Pattern::Pointer { slot, .. } => {
            fill(&mut after, slot as usize, filler);
            fill(&mut after, slot as usize + 1, filler);
        }
        Pattern::Number { slot } | Pattern::Script { slot, .. } | Pattern::Tree { slot, .. } => {
            fill(&mut after, slot as usize, filler)
        }
    }
    after
}

// The slots after the pattern of this row has filled its own. Where there is no such pattern, nothing is filled.
pub fn filled(patterns: &[PatternRow], slots: Slots, row: u32) -> Slots
    ensures answer { result ≡ filled patterns.now slots row }
{
    match pattern_at(patterns, row as usize) {
        Some(pattern) => filled_by(pattern, row as usize + 1, slots),
        None => slots,
    }
}
