// Runs of rows that a sheet can bring: steps of a path, numbers of paths and templates, depths and edges.
use super::bench::Bench;
use super::sheets::written;
use drawn::Drawn;
use shape::Stage;
use std::io;

// A sheet, and behind the semicolon what it is and what is written over it.
const SHEETS: &str = "\
    ; no rows\n\
    1 1 0 2 0 0 1 0; a grant without a policy\n\
    1 1 0 3 0; a location without a policy\n\
    1 1 0 1 1 | 1 1 0 9 0 1 1; a job without a command\n\
    1 8 0 4 0 0 1; a path of 8 steps\n\
    1 9 0 4 0 0 1; a path of 9 steps\n\
    2 8 1 4 0 0 1; two paths of 8 steps\n\
    2 8 1 4 0 0 1 | 1 1 0 4 1 0 1; two paths of 8 and 9 steps\n\
    64 1 1 4 0 0 1; path 63\n\
    64 1 1 4 0 0 1; path 64 | 4 4294967295 0 65 | 4 64 0 64 | 4 64 2 1\n\
    32 1 1 6 0 1 0 1 0 0 0; template 31\n\
    32 1 1 6 0 1 0 1 0 0 0; template 32 | 6 4294967295 0 33 | 6 32 0 32 | 6 32 1 1 | 6 32 3 1\n\
    1 1 0 1 1 | 1 1 0 3 0 | 12 1 2 5 0 1 0 1 0 0 0; an edge of depth 12\n\
    1 1 0 1 1 | 1 1 0 3 0 | 13 1 2 5 0 1 0 1 0 0 0; an edge of depth 13\n\
    12 1 2 6 0 1 0 1 0 0 0; a template line of depth 12\n\
    13 1 2 6 0 1 0 1 0 0 0; a template line of depth 13\n\
    1 1 0 1 1 | 1 1 0 3 0 | 1 128 0 5 0 1 0 1 0 0 0; 128 edges\n\
    1 1 0 1 1 | 1 1 0 3 0 | 1 128 0 5 0 1 0 1 0 0 0; 129 edges | 5 4294967295 0 129\n\
    1 1 0 1 1 | 1 1 0 3 0 | 1 128 0 5 0 1 0 1 0 0 0; 127 edges in use of 128 | 5 4294967295 0 127\n\
    1 1 0 1 1 | 1 1 0 3 0 | 1 1 0 3 0 | 2 2 1 5 0 1 0 1 0 0 0; an edge past the last of location 0 | 5 4294967295 0 1\n\
    1 1 0 1 1 | 1 1 0 3 0 | 1 1 0 3 0 | 2 2 1 5 0 1 0 1 0 0 0; edges past the last, and one that does not stand | 5 4294967295 0 1 | 5 2 0 3";

impl Bench<'_> {
    fn judge_sheet(&mut self, line: &str) -> io::Result<()> {
        let Some((runs, case)) = line.split_once(';') else {
            return println!(self.rt; "{line} -> no sheet");
        };
        let sheet = written(self.rt, runs)?;
        let filled = self.fill(sheet.as_slice()).is_ok();
        self.judge::<Drawn>(filled, Stage::Draft, case.trim())
    }
}

pub(crate) fn run(bench: &mut Bench<'_>) -> io::Result<()> {
    for line in SHEETS.lines() {
        bench.judge_sheet(line)?;
    }
    Ok(())
}
