// Jobs that start.
ghost use Rattle.std.specs.Prelude.{◌≡◌};
ghost use Rattle.reduction.specs.Effects.{started};

use layout::{RunningRow, Slot};
use rows::JobRow;

// The job as it starts at a location: with its own roles and command, and empty slots.
pub fn started(location: u32, job: JobRow) -> RunningRow
    ensures answer { result ≡ started location job }
{
    RunningRow {
        location,
        roles: job.roles,
        command: job.command,
        slots: [Slot::default(); 6],
    }
}
