// The verbs that look at the tree. Each answers how many edges were found.
ghost use Rattle.std.specs.Prelude.{◌≡◌, Bool, List, Some, ◌<◌};
ghost use Rattle.layout.specs.Network.{TreeLines, network};
ghost use Rattle.meaning.specs.declared.patterns.Pattern.{Pattern};
ghost use Rattle.rooms.specs.Rooms.{scratch_of};
ghost use Rattle.rooms.specs.Leaving.{begun};
ghost use Rattle.reduction.specs.Effects.{Effect};
ghost use Rattle.reduction.specs.Steps.{Runs, Reads, Changes, Enables, Disables};
ghost use Rattle.stepping.specs.Ground.{Ground, PatternThere};
ghost use Rattle.stepping.specs.Reduced.{Leaves};

use super::step::Step;
use meaning::{Content, Operand};
use order::{Order, Role};
use rooms::Scratch;
use trees::count_found;

impl<O: Order> Step<'_, O> {
    pub(crate) fn run(&self, path: Operand, scratch: &mut Scratch) -> usize
        requires ground { Ground (network self.now.tables.now) self.now.job }
        requires begun { scratch.old ≡ scratch_of (begun (network self.now.tables.now) self.now.place self.now.job.location) }
        ensures says { (e : Effect) × Runs (O.below self.now.order.now) (network self.now.tables.now) self.now.job path e × Leaves (network self.now.tables.now) self.now.place e result scratch.new }
    {
        let flags = self.found(path);
        self.run_flagged(&flags, scratch);
        count_found(&flags)
    }

    pub(crate) fn read(&self, path: Operand, row: u32, scratch: &mut Scratch) -> usize
        requires ground { Ground (network self.now.tables.now) self.now.job }
        requires there { PatternThere (network self.now.tables.now).plan row }
        requires begun { scratch.old ≡ scratch_of (begun (network self.now.tables.now) self.now.place self.now.job.location) }
        ensures says { (e : Effect) × Reads (O.below self.now.order.now) (network self.now.tables.now) self.now.job path row e × Leaves (network self.now.tables.now) self.now.place e result scratch.new }
    {
        let pattern = self.pattern(row);
        let matches = self.matched(path, pattern);
        self.read_flagged(pattern, row, &matches, scratch);
        self.count(path)
    }

    pub(crate) fn change(
        &self,
        path: Operand,
        row: u32,
        content: Content,
        scratch: &mut Scratch,
    ) -> usize
        requires ground { Ground (network self.now.tables.now) self.now.job }
        requires there { PatternThere (network self.now.tables.now).plan row }
        requires begun { scratch.old ≡ scratch_of (begun (network self.now.tables.now) self.now.place self.now.job.location) }
        ensures says { (e : Effect) × Changes (O.below self.now.order.now) (network self.now.tables.now) self.now.job path row content e × Leaves (network self.now.tables.now) self.now.place e result scratch.new }
    {
        let pattern = self.pattern(row);
        let matches = self.matched(path, pattern);
        self.leave(self.changed(pattern, content, &matches), scratch);
        self.count(path)
    }

    pub(crate) fn enable(&self, path: Operand, role: Role, scratch: &mut Scratch) -> usize
        requires ground { Ground (network self.now.tables.now) self.now.job }
        requires role { role < 64 }
        requires begun { scratch.old ≡ scratch_of (begun (network self.now.tables.now) self.now.place self.now.job.location) }
        ensures says { (e : Effect) × Enables (O.below self.now.order.now) (network self.now.tables.now) self.now.job path role e × Leaves (network self.now.tables.now) self.now.place e result scratch.new }
    {
        self.leave(self.enabled(path, role), scratch);
        self.count(path)
    }

    pub(crate) fn disable(&self, path: Operand, role: Role, scratch: &mut Scratch) -> usize
        requires ground { Ground (network self.now.tables.now) self.now.job }
        requires begun { scratch.old ≡ scratch_of (begun (network self.now.tables.now) self.now.place self.now.job.location) }
        ensures says { (e : Effect) × Disables (O.below self.now.order.now) (network self.now.tables.now) self.now.job path role e × Leaves (network self.now.tables.now) self.now.place e result scratch.new }
    {
        self.leave(self.disabled(path, role), scratch);
        self.count(path)
    }
}
