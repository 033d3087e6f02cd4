// Loading: both sides of each limit of a sheet, and what is left of a refused one.
use super::bench::Bench;
use super::sheets::{parts, written};
use super::tells::tell_refusal;
use drawn::Drawn;
use shape::{Stage, shape};
use std::io;
use tables::{Blank, Tables, close, load};

// A row in use is told by the counts, and any other that is not zero by the shape.
fn left(tables: &Tables) -> &'static str {
    let rows = [
        tables.policies.count,
        tables.grants.count,
        tables.locations.count,
        tables.steps.count,
        tables.templates.count,
        tables.patterns.count,
        tables.commands.count,
        tables.jobs.count,
        tables.running.count,
        tables.shelf.trees.count,
    ];
    if rows.iter().all(|count| *count == 0) && shape::<Drawn>(tables, Stage::Draft).is_none() {
        "all blank"
    } else {
        "rows left"
    }
}

const ROOM: &str = "\
    no lines\n\
    16 policies | 1 16 0 1 1\n\
    17 policies | 1 17 0 1 1\n\
    64 grants | 1 64 0 2 0 0 1 0\n\
    65 grants | 1 65 0 2 0 0 1 0\n\
    16 locations | 1 16 0 3 0\n\
    17 locations | 1 17 0 3 0\n\
    256 path steps | 1 256 0 4 0 0 1\n\
    257 path steps | 1 257 0 4 0 0 1\n\
    paths 0 to 63 | 64 1 1 4 0 0 1\n\
    paths 0 to 64 | 65 1 1 4 0 0 1\n\
    paths 0 to 63, four steps each | 64 4 1 4 0 0 1\n\
    256 template lines | 1 256 0 6 0 1 0 1 0 0 0\n\
    257 template lines | 1 257 0 6 0 1 0 1 0 0 0\n\
    templates 0 to 31 | 32 1 1 6 0 1 0 1 0 0 0\n\
    templates 0 to 32 | 33 1 1 6 0 1 0 1 0 0 0\n\
    64 patterns | 1 64 0 7 1 0 0 0 0\n\
    65 patterns | 1 65 0 7 1 0 0 0 0\n\
    255 commands | 1 255 0 8 3 0 0 0 0 0 0 0\n\
    256 commands | 1 256 0 8 3 0 0 0 0 0 0 0\n\
    64 jobs | 1 64 0 9 0 1 1\n\
    65 jobs | 1 65 0 9 0 1 1\n\
    200 policies, then a cut | 1 200 0 1 1 | 1 1 0 1";

const EDGES: &str = "\
    128 edges | 1 1 0 3 0 | 1 128 0 5 0 1 0 1 0 0 0\n\
    129 edges | 1 1 0 3 0 | 1 129 0 5 0 1 0 1 0 0 0\n\
    128 edges at two locations | 1 2 0 3 0 | 2 128 1 5 0 1 0 1 0 0 0\n\
    and one more at the second | 1 2 0 3 0 | 2 128 1 5 0 1 0 1 0 0 0 | 1 1 0 5 1 1 0 1 0 0 0\n\
    128 edges at 16 locations | 1 16 0 3 0 | 16 128 1 5 0 1 0 1 0 0 0\n\
    edge at the last location | 1 2 0 3 0 | 1 1 0 5 1 1 0 1 0 0 0\n\
    edge behind the last location | 1 1 0 3 0 | 1 1 0 5 1 1 0 1 0 0 0\n\
    edge without a location | 1 1 0 5 0 1 0 1 0 0 0\n\
    edges at locations 0 and 1 | 1 2 0 3 0 | 2 1 1 5 0 1 0 1 0 0 0\n\
    edges at locations 1 and 0 | 1 2 0 3 0 | 1 1 0 5 1 1 0 1 0 0 0 | 1 1 0 5 0 1 0 1 0 0 0";

const NUMBERS: &str = "\
    first path 0 | 1 1 0 4 0 0 1\n\
    first path 1 | 1 1 0 4 1 0 1\n\
    path 0 goes on | 1 2 0 4 0 0 1\n\
    path 1 after path 0 | 2 1 1 4 0 0 1\n\
    path 2 after path 0 | 1 1 0 4 0 0 1 | 1 1 0 4 2 0 1\n\
    path 0 after path 1 | 2 1 1 4 0 0 1 | 1 1 0 4 0 0 1\n\
    path 63 after path 63 | 64 1 1 4 0 0 1 | 1 1 0 4 63 0 1\n\
    path 65 after path 63 | 64 1 1 4 0 0 1 | 1 1 0 4 65 0 1\n\
    first template 0 | 1 1 0 6 0 1 0 1 0 0 0\n\
    first template 1 | 1 1 0 6 1 1 0 1 0 0 0\n\
    template 0 goes on | 1 2 0 6 0 1 0 1 0 0 0\n\
    template 1 after template 0 | 2 1 1 6 0 1 0 1 0 0 0\n\
    template 2 after template 0 | 1 1 0 6 0 1 0 1 0 0 0 | 1 1 0 6 2 1 0 1 0 0 0\n\
    template 0 after template 1 | 2 1 1 6 0 1 0 1 0 0 0 | 1 1 0 6 0 1 0 1 0 0 0\n\
    template 31 after template 31 | 32 1 1 6 0 1 0 1 0 0 0 | 1 1 0 6 31 1 0 1 0 0 0\n\
    template 33 after template 31 | 32 1 1 6 0 1 0 1 0 0 0 | 1 1 0 6 33 1 0 1 0 0 0";

// Of several faults of a line the first of 1 to 3, then 5, then 4 is told.
const FAULTS: &str = "\
    a kind stays | 1 2 0 1 1\n\
    a kind rises | 1 1 0 1 1 | 1 1 0 9 0 1 1\n\
    a kind falls | 1 1 0 9 0 1 1 | 1 1 0 8 3 0 0 0 0 0 0 0\n\
    a location behind a path step | 1 1 0 4 0 0 1 | 1 1 0 3 0\n\
    a line cut | 1 1 0 1\n\
    the second line cut | 1 1 0 1 1 | 1 1 0 1\n\
    a number too long | 1 1 0 1 130 0\n\
    the second number too large | 1 1 0 2 0 255 255 255 255 16\n\
    kind 0 | 1 1 0 0\n\
    kind 9 | 1 1 0 9 0 1 1\n\
    kind 10 | 1 1 0 1 1 | 1 1 0 10 0\n\
    a falling line cut | 1 1 0 3 0 | 1 1 0 1\n\
    a 257th path step that jumps | 1 256 0 4 0 0 1 | 1 1 0 4 2 0 1\n\
    a 257th path step cut | 1 256 0 4 0 0 1 | 1 1 0 4 2 0\n\
    a 17th policy that falls | 1 16 0 1 1 | 1 1 0 3 0 | 1 1 0 1 1";

impl Bench<'_> {
    fn try_load(&mut self, what: &str, sheet: &[u8]) -> io::Result<()> {
        match load(Blank::new(0), self.tables, sheet) {
            Ok((draft, lines)) => {
                close(draft, self.tables).spend();
                let left = left(self.tables);
                println!(self.rt; "{what} -> ok {lines}, closed {left}")
            }
            Err((blank, fault)) => {
                blank.spend();
                tell_refusal(self.rt, what, fault, left(self.tables))
            }
        }
    }

    fn try_all(&mut self, cases: &str) -> io::Result<()> {
        for case in cases.lines() {
            let (what, runs) = parts(case);
            let sheet = written(self.rt, runs)?;
            self.try_load(what, sheet.as_slice())?;
        }
        Ok(())
    }
}

pub(crate) fn run(bench: &mut Bench<'_>) -> io::Result<()> {
    bench.try_all(ROOM)?;
    bench.try_all(EDGES)?;
    bench.try_all(NUMBERS)?;
    bench.try_all(FAULTS)
}
