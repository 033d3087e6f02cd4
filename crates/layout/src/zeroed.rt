// Tables of zeros.
ghost use Rattle.std.specs.Prelude.{◌≡◌};
ghost use Rattle.layout.specs.Network.{stored, empty};
ghost use Rattle.layout.specs.Zeros.{line0, running0};

use super::held::Table;
use super::memory::{RunningRow, Shelf, Slot, Tables};
use rows::TreeLine;

// Derived, it would tell the slots by a relation; here they have their value, which `blank` promises.
impl Default for RunningRow {
    ghost is_default = { λ x. x ≡ running0 };

    fn default() -> Self {
        RunningRow {
            location: 0,
            roles: 0,
            command: 0,
            slots: [Slot::default(); 6],
        }
    }
}

// All zero: the tables of the empty network.
pub fn blank() -> Tables
    ensures answer { result ≡ stored empty }
{
    Tables {
        policies: Table::default(),
        grants: Table::default(),
        locations: Table::default(),
        steps: Table::default(),
        trees: [Table::default(); 16],
        templates: Table::default(),
        patterns: Table::default(),
        commands: Table::default(),
        jobs: Table::default(),
        running: Table::default(),
        shelf: Shelf {
            trees: Table::default(),
            lines: [TreeLine::default(); 1024],
        },
    }
}
