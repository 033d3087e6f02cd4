// A running job makes a step.
ghost use Rattle.std.specs.Prelude.{◌≡◌, ◌<◌, length, Some, IsSome, MatchOption, Decides};
ghost use Rattle.std.specs.List.{slice_get};
ghost use Rattle.layout.specs.Network.{Network, network, Holds};
ghost use Rattle.shape.specs.declared.place.Stage.TheVariants as stage;
ghost use Rattle.shape.specs.Shape.{Shaped};
ghost use Rattle.commands.specs.Rules.{SlotsAsk};
ghost use Rattle.typing.specs.Flow.{verb_at};
ghost use Rattle.breaches.specs.Words.{running_standing};
ghost use Rattle.reduction.specs.Values.{job_at};
ghost use Rattle.rooms.specs.Rooms.{Aftermath, scratch_of};
ghost use Rattle.machine.specs.Stepping.{ReadyFor};
ghost use Rattle.machine.specs.Hosting.{Settled, Stepped};

use super::denial::{Denial, Missing};
use breaches::running_standing;
use commands::Commands;
use layout::{RunningRow, Tables};
use meaning::Verb;
use order::Order;
use rules::Live;
use shape::{Stage, shape};
use stepping::{Reduced, Step};
use typing::command_at;

fn running_at(tables: &Tables, position: usize) -> Option<RunningRow>
    ensures answer { result ≡ slice_get (network tables.now).running position }
{
    tables.running.in_use().get(position).copied()
}

fn job_at(tables: &Tables, position: usize) -> Option<RunningRow>
    ensures says { MatchOption result (position < length (network tables.now).running → ⊥) (λ job. (position < length (network tables.now).running) × (job ≡ job_at (network tables.now) position)) }
{
    running_at(tables, position)
}

// What the job's command means. Tables that have shape hold no command that means nothing.
fn verb_of(tables: &Tables, job: &RunningRow) -> Verb
    requires means { IsSome (verb_at (network tables.now).plan job.now.command) }
    ensures answer { verb_at (network tables.now).plan job.now.command ≡ Some result }
{
    Verb::decode(command_at(tables, job.command)).unwrap()
}

// Whether each slot that the verb uses was filled with what the use needs.
fn slots_fit<O: Order>(order: &O, tables: &Tables, job: &RunningRow, verb: Verb) -> bool
    ensures says { Decides result (SlotsAsk (network tables.now).plan (running_standing (network tables.now).plan job.now) verb) }
{
    Commands { order, tables }.slots_pass(&running_standing(tables, job), verb)
}

// The job at the position and what it does next, if there is a job and its slots are fit for that.
fn ready<O: Order>(
    tables: &Tables,
    order: &O,
    position: usize,
) -> Result<(RunningRow, Verb), Denial>
    requires shaped { Shaped O.COUNT O.TOP tables.now stage.Live }
    requires holds { Holds tables.now (network tables.now) }
    ensures says { ReadyFor (O.below order.now) (network tables.now) position result }
{
    let Some(job) = job_at(tables, position) else {
        return Err(Denial::Missing(Missing::Position));
    };
    let verb = verb_of(tables, &job);
    if !slots_fit(order, tables, &job, verb) {
        return Err(Denial::Unfit { position });
    }
    Ok((job, verb))
}

// Tries the rooms on what a step leaves, and writes it where none is too small.
fn settle(tables: &mut Tables, location: usize, reduced: &Reduced) -> Result<usize, Denial>
    requires there { location < 16 }
    ensures says { (n : Network) (a : Aftermath) → Holds tables.old n → reduced.now.scratch ≡ scratch_of a → Settled tables.old n location reduced.now.found a result tables.new }
{
    if let Some(room) = reduced.scratch.lacking() {
        return Err(Denial::NoRoom(room));
    }
    reduced.scratch.commit(tables, location);
    Ok(reduced.found)
}

// The running job at the position moves one step; how many edges it found is answered. What the step leaves is put together beside
// the tables, and they are written only once every room was tried, so a denied step has written nothing.
pub fn step<O: Order>(
    _live: &Live,
    tables: &mut Tables,
    order: &O,
    position: usize,
) -> Result<usize, Denial>
    ensures done { Stepped O.COUNT O.TOP (O.below order.now) tables.old position result tables.new }
{
    if let Some(place) = shape::<O>(tables, Stage::Live) {
        return Err(Denial::Shape(place));
    }
    let (job, verb) = ready(tables, order, position)?;
    let step = Step {
        order,
        tables,
        place: position,
        job,
    };
    let reduced = step.reduce(verb);
    settle(tables, job.location as usize, &reduced)
}
