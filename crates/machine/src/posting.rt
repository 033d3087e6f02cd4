// A job is started at a location.
ghost use Rattle.std.specs.Prelude.{◌≡◌, length};
ghost use Rattle.std.specs.List.{slice_get};
ghost use Rattle.layout.specs.Network.{network};
ghost use Rattle.machine.specs.Calls.{to_post};
ghost use Rattle.machine.specs.Hosting.{PostAnswers, PostLeaves};

use super::denial::{Denial, Missing};
use layout::Tables;
use order::Order;
use rooms::Room;
use rows::{JobRow, LocationRow};
use rules::Live;
use shape::{Stage, shape};
use values::started;

fn location_at(tables: &Tables, location: u32) -> Option<LocationRow>
    ensures answer { result ≡ slice_get (network tables.now).plan.locations location }
{
    tables.locations.in_use().get(location as usize).copied()
}

fn job_at(tables: &Tables, job: u32) -> Option<JobRow>
    ensures answer { result ≡ slice_get (network tables.now).plan.jobs job }
{
    tables.jobs.in_use().get(job as usize).copied()
}

// The job that is to start, as it stands in its row.
fn to_post(tables: &Tables, location: u32, job: u32) -> Result<JobRow, Denial>
    ensures answer { result ≡ to_post (slice_get (network tables.now).plan.locations location) (slice_get (network tables.now).plan.jobs job) (length (network tables.now).running) }
{
    let place = location_at(tables, location).ok_or(Denial::Missing(Missing::Location))?;
    let found = job_at(tables, job).ok_or(Denial::Missing(Missing::Job))?;
    if found.policy != place.policy {
        return Err(Denial::OtherPolicy);
    }
    if tables.running.in_use().len() >= 64 {
        return Err(Denial::NoRoom(Room::RunningJobs));
    }
    Ok(found)
}

// The job runs at the location then, the last of the running jobs, and its position is answered. A denied post writes nothing.
pub fn post<O: Order>(
    _live: &Live,
    tables: &mut Tables,
    _order: &O,
    location: u32,
    job: u32,
) -> Result<usize, Denial>
    ensures answer { PostAnswers O.COUNT O.TOP (O.below _order.now) tables.old location job result }
    ensures after { PostLeaves O.COUNT O.TOP (O.below _order.now) tables.old location job result tables.new }
{
    if let Some(place) = shape::<O>(tables, Stage::Live) {
        return Err(Denial::Shape(place));
    }
    let found = to_post(tables, location, job)?;
    let position = tables.running.count;
    // There is room.
    let _room = tables.running.push(started(location, found));
    Ok(position)
}
