// What operands name.
ghost use Rattle.std.specs.Prelude.{◌≡◌};
ghost use Rattle.layout.specs.Held.{in_use};
ghost use Rattle.reduction.specs.Values.{named, path_steps};

use layout::{Slot, Table};
use meaning::Operand;
use rows::PathStepRow;

// The row that an operand names, itself or by what a slot holds.
pub fn named(slots: &[Slot; 6], operand: Operand) -> u32
    ensures answer { result ≡ named slots.now operand }
{
    match operand {
        Operand::Row(row) => row,
        Operand::Slot(slot) => match slots.get(slot as usize) {
            Some(slot) => slot.value,
            None => 0,
        },
    }
}

// The steps of a path, from the root down.
pub fn path_steps(steps: &Table<PathStepRow, 256>, path: u32) -> Table<PathStepRow, 256>
    ensures answer { in_use result ≡ path_steps (in_use steps.now) path }
{
    let mut own = Table::default();
    for step in steps.in_use() {
        if step.path == path {
            let _room = own.push(*step);
        }
    }
    own
}
