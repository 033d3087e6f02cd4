// The job goes on.
ghost use Rattle.std.specs.Prelude.{◌≡◌};
ghost use Rattle.layout.specs.Network.{network};
ghost use Rattle.rooms.specs.Rooms.{Aftermath, scratch_of};
ghost use Rattle.reduction.specs.Values.{named};
ghost use Rattle.reduction.specs.Effects.{goes_on};
ghost use Rattle.reduction.specs.Steps.{next_of, moved};
ghost use Rattle.successors.specs.Successors.{with_jobs};

use super::step::Step;
use layout::RunningRow;
use meaning::Operand;
use order::{Order, RoleSet};
use rooms::Scratch;
use successors::go_on;
use values::named;

impl<O: Order> Step<'_, O> {
    // The job at its next command, if one follows.
    pub(crate) fn go_on(&self, scratch: &mut Scratch)
        ensures after { (a : Aftermath) → scratch.old ≡ scratch_of a → scratch.new ≡ scratch_of (with_jobs a (goes_on self.now.job (next_of (network self.now.tables.now) self.now.job))) }
    {
        go_on(self.job, self.next(), scratch);
    }

    // Next, then the other.
    pub(crate) fn fork(&self, other: u32, scratch: &mut Scratch)
        ensures after { (a : Aftermath) → scratch.old ≡ scratch_of a → scratch.new ≡ scratch_of (with_jobs (with_jobs a (goes_on self.now.job (next_of (network self.now.tables.now) self.now.job))) (goes_on self.now.job other)) }
    {
        self.go_on(scratch);
        go_on(self.job, other, scratch);
    }

    // Next at the destination, with the new roles.
    pub(crate) fn go(&self, location: Operand, roles: RoleSet, scratch: &mut Scratch)
        ensures after { (a : Aftermath) → scratch.old ≡ scratch_of a → scratch.new ≡ scratch_of (with_jobs a (goes_on (moved self.now.job (named self.now.job.slots location) roles) (next_of (network self.now.tables.now) self.now.job))) }
    {
        let moved = RunningRow {
            location: named(&self.job.slots, location),
            roles,
            ..self.job
        };
        go_on(moved, self.next(), scratch);
    }
}
