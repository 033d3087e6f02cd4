// What slots hold as contents of edges.
ghost use Rattle.std.specs.Prelude.{◌≡◌, ℕ, ◌<◌};
ghost use Rattle.layout.specs.Network.{network};
ghost use Rattle.layout.specs.Zeros.{slot0};
ghost use Rattle.replacing.specs.Pasting.{plain};
ghost use Rattle.changes.specs.Pastes.{pasted_of, held};
ghost use Rattle.reduction.specs.Values.{slot_at, held_as, held_in};

use changes::Paste;
use layout::{Slot, Tables};
use matching::shelved;
use slots::{Part, part_by};

// A content with nothing under it.
fn plain<'a>(content: u32, first: u32, second: u32) -> Paste<'a>
    ensures answer { pasted_of result ≡ plain content first second }
{
    Paste {
        content,
        first,
        second,
        under: &[],
    }
}

fn held_as(tables: &Tables, part: Option<Part>, value: u32, next: u32) -> Paste<'_>
    ensures answer { pasted_of result ≡ held_as (network tables.now).shelf part value next }
{
    match part {
        Some(Part::Number) => plain(1, value, 0),
        Some(Part::Script { .. }) => plain(2, value, 0),
        Some(Part::Place { .. }) => plain(3, next, value),
        Some(Part::Tree { .. }) => Paste {
            content: 0,
            first: 0,
            second: 0,
            under: shelved(&tables.shelf, value as usize),
        },
        Some(Part::Route { .. }) | None => plain(0, 0, 0),
    }
}

// A slot that is not there is empty.
fn slot_at(slots: &[Slot; 6], slot: usize) -> Slot
    ensures answer { result ≡ slot_at slots.now slot }
{
    slots.get(slot).copied().unwrap_or_default()
}

fn held_in<'a>(tables: &'a Tables, slots: &[Slot; 6], slot: usize) -> Paste<'a>
    requires { slot < 6 }
    ensures answer { pasted_of result ≡ held_in (network tables.now).plan (network tables.now).shelf slots.now slot }
{
    let held = slot_at(slots, slot);
    let next = slot_at(slots, slot + 1);
    let part = part_by(tables.patterns.in_use(), held.pattern as usize, slot);
    held_as(tables, part, held.value, next.value)
}

// What each slot holds.
pub fn pastes<'a>(tables: &'a Tables, slots: &[Slot; 6]) -> [Paste<'a>; 6]
    ensures held { (k : ℕ) → held result k ≡ held_in (network tables.now).plan (network tables.now).shelf slots.now k }
{
    [
        held_in(tables, slots, 0),
        held_in(tables, slots, 1),
        held_in(tables, slots, 2),
        held_in(tables, slots, 3),
        held_in(tables, slots, 4),
        held_in(tables, slots, 5),
    ]
}
