// Scripts start jobs.
ghost use Rattle.std.specs.Prelude.{◌≡◌, ◌<◌, ◌≤◌, length, slice_index_or};
ghost use Rattle.layout.specs.Network.{network};
ghost use Rattle.layout.specs.Zeros.{job0};
ghost use Rattle.rooms.specs.Rooms.{Aftermath, scratch_of};
ghost use Rattle.edges.specs.Rows.{flagged_rows};
ghost use Rattle.reduction.specs.Effects.{script_on, scripts};
ghost use Rattle.successors.specs.Successors.{with_jobs, FlagsOf};

use layout::Tables;
use meaning::ContentKind;
use rooms::Scratch;
use rows::{JobRow, TreeLine};
use values::started;

// A job that is not there is a row of zeros.
fn job_at(tables: &Tables, job: u32) -> JobRow
    ensures answer { result ≡ slice_index_or (network tables.now).plan.jobs job job0 }
{
    tables
        .jobs
        .in_use()
        .get(job as usize)
        .copied()
        .unwrap_or_default()
}

// The job of the script on this line starts, if a script lies there.
#[tactic(auto, unfolding(crate::specs::Successors::with_jobs), using(crate::proofs::More::none_joined))]
fn start_script(tables: &Tables, location: u32, line: TreeLine, scratch: &mut Scratch)
    ensures after { (a : Aftermath) → scratch.old ≡ scratch_of a → scratch.new ≡ scratch_of (with_jobs a (script_on (network tables.now).plan location line)) }
{
    if let Ok(ContentKind::Script) = ContentKind::try_from(line.content) {
        scratch.join(started(location, job_at(tables, line.first)));
    }
}

// The jobs of the scripts on the flagged lines start, in tree order.
pub fn start_scripts(
    tables: &Tables,
    location: u32,
    tree: &[TreeLine],
    flags: &[bool; 128],
    scratch: &mut Scratch,
)
    requires few { length tree.now ≤ 128 }
    requires flags { FlagsOf tree.now flags.now }
    ensures after { (a : Aftermath) → scratch.old ≡ scratch_of a → scratch.new ≡ scratch_of (with_jobs a (scripts (network tables.now).plan location tree.now (flagged_rows flags.now))) }
{
    for (row, line) in tree.iter().enumerate() {
        if flags[row] {
            start_script(tables, location, *line, scratch);
        }
    }
}
