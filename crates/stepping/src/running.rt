// Scripts that a step starts.
ghost use Rattle.std.specs.Prelude.{◌≡◌};
ghost use Rattle.layout.specs.Network.{network};
ghost use Rattle.rooms.specs.Rooms.{Aftermath, scratch_of};
ghost use Rattle.edges.specs.Rows.{flagged_rows};
ghost use Rattle.reduction.specs.Values.{tree_of};
ghost use Rattle.reduction.specs.Effects.{goes_on, scripts};
ghost use Rattle.reduction.specs.Steps.{next_of};
ghost use Rattle.successors.specs.Successors.{with_jobs, FlagsOf};
ghost use Rattle.stepping.specs.Ground.{Ground};

use super::step::Step;
use order::Order;
use rooms::Scratch;
use successors::start_scripts;

impl<O: Order> Step<'_, O> {
    // Each script on a flagged line.
    fn start_scripts(&self, flags: &[bool; 128], scratch: &mut Scratch)
        requires ground { Ground (network self.now.tables.now) self.now.job }
        requires flags { FlagsOf (tree_of (network self.now.tables.now) self.now.job) flags.now }
        ensures after { (a : Aftermath) → scratch.old ≡ scratch_of a → scratch.new ≡ scratch_of (with_jobs a (scripts (network self.now.tables.now).plan self.now.job.location (tree_of (network self.now.tables.now) self.now.job) (flagged_rows flags.now))) }
    {
        start_scripts(self.tables, self.job.location, self.tree(), flags, scratch);
    }

    // Next, then each script on a flagged line.
    pub(crate) fn run_flagged(&self, flags: &[bool; 128], scratch: &mut Scratch)
        requires ground { Ground (network self.now.tables.now) self.now.job }
        requires flags { FlagsOf (tree_of (network self.now.tables.now) self.now.job) flags.now }
        ensures after { (a : Aftermath) → scratch.old ≡ scratch_of a → scratch.new ≡ scratch_of (with_jobs (with_jobs a (goes_on self.now.job (next_of (network self.now.tables.now) self.now.job))) (scripts (network self.now.tables.now).plan self.now.job.location (tree_of (network self.now.tables.now) self.now.job) (flagged_rows flags.now))) }
    {
        self.go_on(scratch);
        self.start_scripts(flags, scratch);
    }
}
