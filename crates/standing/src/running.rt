// Running jobs and their slots.
ghost use Rattle.std.specs.Prelude.{◌≡◌};
ghost use Rattle.standing.specs.declared.running.Fillings.{Fillings};
ghost use Rattle.standing.specs.Tests.{part_stands, slot_passes, running_passes};

use super::sizes::Sizes;
use layout::{RunningRow, Slot};
use meaning::Pattern;
use order::in_use_of;
use rows::PatternRow;
use scan::{Stands, first_fault};

// What a slot may name, and the patterns that fill slots.
#[derive(Clone, Copy, Debug, PartialEq, Eq)]
pub struct Fillings<'a> {
    pub sizes: Sizes,
    pub patterns: &'a [PatternRow; 64],
}

// Whether some part of the pattern lies in this slot, and what the value names exists.
fn part_stands(sizes: &Sizes, pattern: Pattern, slot: usize, value: u32) -> bool
    ensures answer { result ≡ part_stands sizes.now pattern slot value }
{
    let value = value as usize;
    match pattern {
        Pattern::Number { slot: own } => slot == own as usize,
        Pattern::Script { slot: own, .. } => slot == own as usize && value < sizes.jobs,
        Pattern::Pointer { slot: own, .. } => {
            slot == own as usize && value < sizes.locations
                || slot == own as usize + 1 && value < sizes.paths
        }
        Pattern::Tree { slot: own, .. } => slot == own as usize && value < sizes.shelf,
    }
}

fn slot_passes(sizes: &Sizes, patterns: &[PatternRow; 64], slot: usize, held: Slot) -> bool
    ensures answer { result ≡ slot_passes sizes.now patterns.now slot held }
{
    let Some((row, value)) = held.filling() else {
        return held.value == 0;
    };
    row < sizes.patterns
        && row < 64
        && Pattern::decode(patterns[row]).is_some_and(|pattern| part_stands(
            sizes, pattern, slot, value,
        ))
}

impl<'a> Stands<Fillings<'a>> for Slot {
    ghost stands = { λ f i x. slot_passes f.sizes f.patterns.now i x };

    fn stands(&self, names: &Fillings<'a>, row: usize) -> bool {
        slot_passes(&names.sizes, names.patterns, row, *self)
    }
}

impl<'a> Stands<Fillings<'a>> for RunningRow {
    ghost stands = { λ f i x. running_passes f.sizes f.patterns.now x };

    fn stands(&self, names: &Fillings<'a>, _row: usize) -> bool {
        let sizes = names.sizes;
        (self.location as usize) < sizes.locations
            && 0 < self.command
            && (self.command as usize) <= sizes.commands
            && in_use_of(sizes.roles, self.roles)
            && first_fault(names, &self.slots).is_none()
    }
}
