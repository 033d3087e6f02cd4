// Fields that have to be 0: those that a kind does not use, and those of rows past the last.
use super::bench::Bench;
use super::sheets::{numbers_of, parts, written};
use super::starts::{DRAFT, LIVE, Start};
use drawn::Drawn;
use std::io;

// What the row is, its table and number, and the fields that have to be 0.
const UNUSED: &str = "\
    an edge with content 0 | 5 0 4 5\n\
    an edge with content 1 | 5 1 5\n\
    an edge with content 2 | 5 2 5\n\
    a template line with content 0 | 6 0 5 6\n\
    a template line with content 1 | 6 1 6\n\
    a template line with content 2 | 6 2 6\n\
    a template line with content 4 | 6 4 6\n\
    a number pattern | 7 0 2 3 4\n\
    a job pattern | 7 1 3 4\n\
    a pointer pattern | 7 2 4\n\
    a fork | 8 0 2 3 5 6 7\n\
    a go | 8 1 5 6 7\n\
    a run | 8 2 4 5 6 7\n\
    a read | 8 3 5 6 7\n\
    a change to content 0 | 8 4 6 7\n\
    a change to content 1 | 8 5 7\n\
    a change to content 2 | 8 6 7\n\
    a change to content 4 | 8 8 7\n\
    a change to content 5 | 8 9 7\n\
    an enable | 8 10 5 6 7\n\
    a disable | 8 11 5 6 7";

const PAST: &str = "\
    the policy past the last | 1 8 0\n\
    policy 15 | 1 15 0\n\
    the grant past the last | 2 1 0 1 2 3\n\
    grant 63 | 2 63 0 1 2 3\n\
    the location past the last | 3 3 0\n\
    the step past the last | 4 5 0 1 2\n\
    step 255 | 4 255 0 1 2\n\
    the edge past the last | 5 5 0 1 2 3 4 5\n\
    the template line past the last | 6 9 0 1 2 3 4 5 6\n\
    template line 255 | 6 255 0 1 2 3 4 5 6\n\
    the pattern past the last | 7 7 0 1 2 3 4\n\
    the command past the last | 8 12 0 1 2 3 4 5 6 7\n\
    command row 254 | 8 254 0 1 2 3 4 5 6 7\n\
    the job past the last | 9 9 0 1 2\n\
    the first running job of a draft | 0 0 0 1 2 3 4 5 6 7 8 9 10 11 12 13 14\n\
    the first shelved line of a draft | 255 0 0 1 2 3 4 5";

// Beside one running job and two trees of three lines.
const PAST_LIVE: &str = "\
    the running job past the last | 0 1 0 1 2 3 4 5 6 7 8 9 10 11 12 13 14\n\
    the shelved line past the last | 255 3 0 1 2 3 4 5\n\
    shelved line 1023 | 255 1023 0 5\n\
    the length of a tree past the last | 255 4294967295 3 64";

impl Bench<'_> {
    // Each of the fields is 1 once, and the others are as they were.
    fn spoil(&mut self, start: Start, case: &str) -> io::Result<()> {
        let (name, row) = parts(case);
        let numbers = numbers_of(self.rt, row)?;
        let [table, row, fields @ ..] = numbers.as_slice() else {
            return Ok(());
        };
        let sheet = written(self.rt, start.sheet)?;
        for field in fields {
            let case = format!(in self.rt.alloc();
                "{name}, field {field} | {table} {row} {field} 1"
            )?;
            let filled = self.fill(sheet.as_slice()).is_ok() && self.write(start.pokes)?;
            self.judge::<Drawn>(filled, start.stage, case.as_str())?;
        }
        Ok(())
    }

    fn spoil_all(&mut self, start: Start, cases: &str) -> io::Result<()> {
        for case in cases.lines() {
            self.spoil(start, case)?;
        }
        Ok(())
    }
}

pub(crate) fn run(bench: &mut Bench<'_>) -> io::Result<()> {
    bench.spoil_all(DRAFT, UNUSED)?;
    bench.spoil_all(DRAFT, PAST)?;
    bench.spoil_all(LIVE, PAST_LIVE)
}
