// How many rows: tables that are full, and one row more.
use super::bench::Bench;
use super::sheets::{numbers_of, parts, written};
use drawn::Drawn;
use layout::{RunningRow, Tables};
use rows::TreeLine;
use shape::Stage;
use std::io;

// As many rows as there can be of every kind: 64 paths of four steps, 32 templates of eight lines.
const FULL: &str = "\
    1 16 0 1 1 | 1 64 0 2 0 0 1 0 | 1 16 0 3 0 | 64 4 1 4 0 0 1 | 16 128 1 5 0 1 0 1 0 0 0 | \
    32 8 1 6 0 1 0 1 0 0 0 | 1 64 0 7 1 0 0 0 0 | 1 255 0 8 3 0 0 0 0 0 0 0 | 1 64 0 9 0 1 1";

// 64 running jobs, and 64 shelved trees of 16 lines.
fn crowd(tables: &mut Tables) {
    let job = RunningRow {
        roles: 1,
        command: 1,
        ..RunningRow::default()
    };
    let line = TreeLine {
        depth: 1,
        set: 1,
        ..TreeLine::default()
    };
    tables.running.count = 64;
    tables.running.rows = [job; 64];
    tables.shelf.trees.count = 64;
    tables.shelf.trees.rows = [16; 64];
    tables.shelf.lines = [line; 1024];
}

const CASES: &str = "\
    all tables full\n\
    17 policies | 1 4294967295 0 17\n\
    2^64 - 1 policies | 1 4294967295 0 18446744073709551615\n\
    65 grants | 2 4294967295 0 65\n\
    17 locations | 3 4294967295 0 17\n\
    257 steps | 4 4294967295 0 257\n\
    129 edges at location 0 | 5 4294967295 0 129\n\
    129 edges at location 15 | 5 4294967295 15 129\n\
    2^64 - 1 edges at location 15 | 5 4294967295 15 18446744073709551615\n\
    257 template lines | 6 4294967295 0 257\n\
    65 patterns | 7 4294967295 0 65\n\
    256 commands | 8 4294967295 0 256\n\
    65 jobs | 9 4294967295 0 65\n\
    65 running jobs | 0 4294967295 0 65\n\
    65 shelved trees | 255 4294967295 0 65\n\
    2^64 - 1 shelved trees | 255 4294967295 0 18446744073709551615\n\
    a grant of policy 15 | 2 63 0 15\n\
    a grant of policy 16 | 2 63 0 16\n\
    a location of policy 15 | 3 15 0 15\n\
    a location of policy 16 | 3 15 0 16\n\
    path 63 at the last step | 4 255 0 63\n\
    path 64 at the last step | 4 255 0 64\n\
    template 31 at the last line | 6 255 0 31\n\
    template 32 at the last line | 6 255 0 32\n\
    an edge to path 63 | 5 0 3 3 | 5 0 4 63\n\
    an edge to path 64 | 5 0 3 3 | 5 0 4 64\n\
    an edge to location 15 | 5 2047 3 3 | 5 2047 5 15\n\
    an edge to location 16 | 5 2047 3 3 | 5 2047 5 16\n\
    an edge to job 63 | 5 2047 3 2 | 5 2047 4 63\n\
    an edge to job 64 | 5 2047 3 2 | 5 2047 4 64\n\
    a read by pattern 63 | 8 254 0 4 | 8 254 4 63\n\
    a read by pattern 64 | 8 254 0 4 | 8 254 4 64\n\
    a change to template 31 | 8 0 0 5 | 8 0 5 5 | 8 0 6 31\n\
    a change to template 32 | 8 0 0 5 | 8 0 5 5 | 8 0 6 32\n\
    a go to location 15 | 8 0 0 2 | 8 0 4 1 | 8 0 3 15\n\
    a go to location 16 | 8 0 0 2 | 8 0 4 1 | 8 0 3 16\n\
    a run of path 63 | 8 254 3 63\n\
    a run of path 64 | 8 254 3 64\n\
    command 254 goes on at 255 | 8 253 1 255\n\
    command 255 goes on at 255 | 8 254 1 255\n\
    command 255 goes on at 256 | 8 254 1 256\n\
    two go on at 255 | 8 0 1 255 | 8 253 1 255\n\
    256 commands, and 255 goes on at 256 | 8 4294967295 0 256 | 8 254 1 256\n\
    a job's command 255 | 9 63 2 255\n\
    a job's command 256 | 9 63 2 256\n\
    running command 255 | 0 63 2 255\n\
    running command 256 | 0 63 2 256\n\
    slot 0 by pattern 64 | 0 63 3 64\n\
    slot 0 by pattern 65 | 0 63 3 65\n\
    65 patterns, and slot 0 by pattern 65 | 7 4294967295 0 65 | 0 63 3 65";

// The 1,024 lines are cut into trees of these lengths.
const TREES: &str = "\
    tree 63 of 17 lines, 1,025 in all | 255 4294967295 64 17\n\
    tree 63 of 15 lines, and one over | 255 4294967295 64 15\n\
    trees 62 and 63 of 32 lines and none | 255 4294967295 63 32 | 255 4294967295 64 0\n\
    tree 0 of 17 lines, 1,025 in all | 255 4294967295 1 17\n\
    a shelved pointer to location 15 | 255 1023 3 3 | 255 1023 5 15\n\
    a shelved pointer to location 16 | 255 1023 3 3 | 255 1023 5 16\n\
    slot 0 holds tree 63 | 7 0 0 4 | 7 0 3 1 | 7 0 4 1 | 0 0 3 1 | 0 0 4 63\n\
    slot 0 holds tree 64 | 7 0 0 4 | 7 0 3 1 | 7 0 4 1 | 0 0 3 1 | 0 0 4 64";

// So many trees, all of so many lines.
const SHELVES: &str = "\
    8 trees of 128 lines | 8 128\n\
    8 trees of 127 lines | 8 127\n\
    9 trees of 128 lines | 9 128\n\
    7 trees of 129 lines | 7 129\n\
    64 trees of 16 lines | 64 16\n\
    64 trees of 17 lines | 64 17\n\
    64 trees of no line | 64 0\n\
    a tree of 1,024 lines | 1 1024\n\
    no tree, and lines | 0 0";

// The lines stay as they are.
fn shelve(tables: &mut Tables, trees: usize, lines: usize) {
    tables.shelf.trees.count = trees;
    for (tree, row) in tables.shelf.trees.rows.iter_mut().enumerate() {
        *row = if tree < trees { lines } else { 0 };
    }
}

impl Bench<'_> {
    fn judge_shelves(&mut self, case: &str) -> io::Result<()> {
        let (what, shelves) = parts(case);
        let numbers = numbers_of(self.rt, shelves)?;
        let [trees, lines] = numbers.as_slice() else {
            return println!(self.rt; "{what} -> not written");
        };
        crowd(self.tables);
        shelve(self.tables, *trees as usize, *lines as usize);
        self.tell_place::<Drawn>(what, Stage::Live)
    }

    fn judge_all_shelves(&mut self) -> io::Result<()> {
        let sheet = written(self.rt, FULL)?;
        if self.fill(sheet.as_slice()).is_ok() {
            for case in SHELVES.lines() {
                self.judge_shelves(case)?;
            }
        }
        Ok(())
    }

    fn judge_all_crowded(&mut self, cases: &str) -> io::Result<()> {
        let sheet = written(self.rt, FULL)?;
        for case in cases.lines() {
            let filled = self.fill(sheet.as_slice()).is_ok();
            crowd(self.tables);
            self.judge::<Drawn>(filled, Stage::Live, case)?;
        }
        Ok(())
    }
}

pub(crate) fn run(bench: &mut Bench<'_>) -> io::Result<()> {
    bench.judge_all_crowded(CASES)?;
    bench.judge_all_crowded(TREES)?;
    bench.judge_all_shelves()
}
