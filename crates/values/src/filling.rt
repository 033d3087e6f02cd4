// Slots that a read fills.
ghost use Rattle.std.specs.Prelude.{◌≡◌, ◌<◌, slice_set};
ghost use Rattle.reduction.specs.Filling.{filled_with, filled_slots};

use layout::Slot;
use meaning::Pattern;
use rows::TreeLine;

// One slot filled by the pattern of this row; there are six, so a number above 5 fills none.
fn fill(slots: &mut [Slot; 6], slot: usize, row: u32, value: u32)
    requires few { row < 64 }
    ensures after { slots.new ≡ slice_set slots.old slot (filled_with row value) }
{
    if slot < 6 {
        slots[slot] = Slot {
            pattern: row + 1,
            value,
        };
    }
}

// The slots after the pattern of this row has matched the edge of this line, where a tree has this number on the shelf. A crate
// above asks it of the patterns of the table.
pub fn filled_slots(
    pattern: Pattern,
    row: u32,
    line: TreeLine,
    number: u32,
    slots: [Slot; 6],
) -> [Slot; 6]
    requires few { row < 64 }
    ensures answer { result ≡ filled_slots pattern row line number slots }
{
    let mut after = slots;
    match pattern {
        Pattern::Number { slot } | Pattern::Script { slot, .. } => {
            fill(&mut after, slot as usize, row, line.first)
        }
        Pattern::Pointer { slot, .. } => {
            fill(&mut after, slot as usize, row, line.second);
            fill(&mut after, slot as usize + 1, row, line.first);
        }
        Pattern::Tree { slot, .. } => fill(&mut after, slot as usize, row, number),
    }
    after
}
