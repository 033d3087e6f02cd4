// What a command's operand names.
ghost use Rattle.std.specs.Prelude.{◌≡◌};
ghost use Rattle.slots.specs.Operands.{place_policy, destination, last_set, route_set, path_set};

use super::part::{Part, Slots, part_at};
use meaning::Operand;
use order::RoleSet;
use rows::{LocationRow, PathStepRow, PatternRow};

// The policy of a location in a slot.
fn place_policy(part: Option<Part>) -> Option<u32>
    ensures answer { result ≡ place_policy part }
{
    match part {
        Some(Part::Place { policy }) => Some(policy),
        _ => None,
    }
}

// The policy of the location that the operand names, if it names one.
pub fn destination(
    locations: &[LocationRow],
    patterns: &[PatternRow],
    slots: &Slots,
    operand: Operand,
) -> Option<u32>
    ensures answer { result ≡ destination locations.now patterns.now slots.now operand }
{
    match operand {
        Operand::Row(row) => locations.get(row as usize).map(|location| location.policy),
        Operand::Slot(slot) => place_policy(part_at(patterns, slots, slot as usize)),
    }
}

// The set of the last step of a path, if there is such a path.
pub fn last_set(steps: &[PathStepRow], path: u32) -> Option<RoleSet>
    ensures answer { result ≡ last_set steps.now path }
{
    steps.iter().fold(None, |last, step| {
        if step.path == path {
            Some(step.set)
        } else {
            last
        }
    })
}

// The last set of a path in a slot.
fn route_set(part: Option<Part>) -> Option<RoleSet>
    ensures answer { result ≡ route_set part }
{
    match part {
        Some(Part::Route { last }) => Some(last),
        _ => None,
    }
}

// The last set of the path that the operand names, if it names one.
pub fn path_set(
    steps: &[PathStepRow],
    patterns: &[PatternRow],
    slots: &Slots,
    operand: Operand,
) -> Option<RoleSet>
    ensures answer { result ≡ path_set steps.now patterns.now slots.now operand }
{
    match operand {
        Operand::Row(row) => last_set(steps, row),
        Operand::Slot(slot) => route_set(part_at(patterns, slots, slot as usize)),
    }
}
