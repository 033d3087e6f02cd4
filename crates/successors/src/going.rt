// A job goes on.
ghost use Rattle.std.specs.Prelude.{◌≡◌};
ghost use Rattle.rooms.specs.Rooms.{Aftermath, scratch_of};
ghost use Rattle.reduction.specs.Effects.{goes_on};
ghost use Rattle.successors.specs.Successors.{with_jobs};

use layout::RunningRow;
use rooms::Scratch;

// The job at its next command; 0 makes no job.
#[tactic(auto, unfolding(crate::specs::Successors::with_jobs), using(crate::proofs::More::none_joined))]
pub fn go_on(job: RunningRow, next: u32, scratch: &mut Scratch)
    ensures after { (a : Aftermath) → scratch.old ≡ scratch_of a → scratch.new ≡ scratch_of (with_jobs a (goes_on job next)) }
{
    if next != 0 {
        scratch.join(RunningRow {
            command: next,
            ..job
        });
    }
}
