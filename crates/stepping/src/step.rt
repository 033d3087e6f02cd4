// A step, as a whole.
ghost use Rattle.std.specs.Prelude.{◌≡◌, ◌<◌, length, slice_index_or, Some};
ghost use Rattle.layout.specs.Network.{network, Holds};
ghost use Rattle.layout.specs.Zeros.{no_running};
ghost use Rattle.shape.specs.declared.place.Stage.TheVariants as stage;
ghost use Rattle.shape.specs.Shape.{Shaped};
ghost use Rattle.typing.specs.Flow.{verb_at};
ghost use Rattle.reduction.specs.Effects.{Effect};
ghost use Rattle.reduction.specs.Steps.{Reduces};
ghost use Rattle.rooms.specs.Leaving.{begun};
ghost use Rattle.rooms.specs.Rooms.{scratch_of};
ghost use Rattle.stepping.specs.Ground.{Ground, Named};
ghost use Rattle.stepping.specs.Reduced.{Leaves, reduced};

use layout::{RunningRow, Tables};
use meaning::Verb;
use order::Order;
use rooms::Scratch;

// A step of the job at this place in the running list.
#[derive_where(Clone, Copy)]
pub struct Step<'a, O> {
    pub order: &'a O,
    pub tables: &'a Tables,
    pub place: usize,
    pub job: RunningRow,
}

// How many edges were found, and what is left. Nothing is written to the tables yet.
#[derive(Clone, Copy, Debug)]
pub struct Reduced {
    pub found: usize,
    pub scratch: Scratch,
}

impl<O: Order> Step<'_, O> {
    // What the verb brings about; the answer is how many edges were found.
    fn bring_about(&self, verb: Verb, scratch: &mut Scratch) -> usize
        requires ground { Ground (network self.now.tables.now) self.now.job }
        requires named { Named (network self.now.tables.now).plan verb }
        requires begun { scratch.old ≡ scratch_of (begun (network self.now.tables.now) self.now.place self.now.job.location) }
        ensures says { (e : Effect) × Reduces (O.below self.now.order.now) (network self.now.tables.now) self.now.job verb e × Leaves (network self.now.tables.now) self.now.place e result scratch.new }
    {
        match verb {
            Verb::Fork { other } => {
                self.fork(other, scratch);
                0
            }
            Verb::Go { location, roles } => {
                self.go(location, roles, scratch);
                0
            }
            Verb::Run { path } => self.run(path, scratch),
            Verb::Read { path, pattern } => self.read(path, pattern, scratch),
            Verb::Change {
                path,
                pattern,
                content,
            } => self.change(path, pattern, content, scratch),
            Verb::Enable { path, role } => self.enable(path, role, scratch),
            Verb::Disable { path, role } => self.disable(path, role, scratch),
        }
    }

    // What the job's command brings about, which has this verb. A crate above asks it of a job that runs in tables that have shape.
    pub fn reduce(&self, verb: Verb) -> Reduced
        requires shaped { Shaped O.COUNT O.TOP self.now.tables.now stage.Live }
        requires holds { Holds self.now.tables.now (network self.now.tables.now) }
        requires there { self.now.place < length (network self.now.tables.now).running }
        requires job { self.now.job ≡ slice_index_or (network self.now.tables.now).running self.now.place no_running }
        requires verb { verb_at (network self.now.tables.now).plan self.now.job.command ≡ Some verb }
        ensures says { (e : Effect) × Reduces (O.below self.now.order.now) (network self.now.tables.now) self.now.job verb e × (result ≡ reduced (network self.now.tables.now) self.now.place e) }
    {
        let location = self.job.location as usize;
        let mut scratch = Scratch::begin(self.tables, self.place, location);
        let found = self.bring_about(verb, &mut scratch);
        Reduced { found, scratch }
    }
}
