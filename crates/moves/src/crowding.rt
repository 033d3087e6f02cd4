// The five rooms of a step, each with an outcome that just fits and one that does not, and the order in which they are tried.
use super::asking::Call;
use super::bench::Bench;
use std::io;

// 62 jobs run.
const JOBS: &str = "0 count: 62 | 0 0 62: 0 2 5";

const RUNNING: &str = "\
    a fork leaves 64 jobs; 62; ok 0; 0 count: 63 | 0 62: 0 2 1; 0 count: 64 | 0 62: 0 2 2 | 0 63: 0 2 3\n\
    a fork leaves 65 jobs; 63; 10: no room 1; 0 count: 64 | 0 62: 0 2 5 | 0 63: 0 2 1\n\
    a fork of 64 into nothing; 63; ok 0; 0 count: 64 | 0 62 2: 0 2 5; 0 count: 63 | 0 63: 0 0 0\n\
    a go of the first of 64; 0; ok 0; 0 count: 64 | 0 62 2: 0 2 5 | 0 0.2: 4; 0 0.2: 5 | 0 63: 1 8 5\n\
    a run leaves 64 jobs; 61; ok 3; 0 61.2: 6; 0 count: 64 | 0 61.2: 7 | 0 62: 0 2 1 | 0 63: 0 2 4\n\
    a run leaves 65 jobs; 62; 10: no room 1; 0 count: 63 | 0 62: 0 2 6\n\
    a run with nothing behind leaves 64 jobs; 62; ok 3; 0 count: 63 | 0 62: 0 2 2; 0 count: 64 | 0 62: 0 2 1 | 0 63: 0 2 4\n\
    a run with nothing behind leaves 65 jobs; 63; 10: no room 1; 0 count: 64 | 0 62: 0 2 5 | 0 63: 0 2 2\n\
    a read leaves 64 jobs; 62; ok 2; 0 count: 63 | 0 62: 0 2 8; 0 count: 64 | 0 62: 0 2 9 1 7 | 0 63: 0 2 9 1 8\n\
    a read leaves 65 jobs; 63; 10: no room 1; 0 count: 64 | 0 62: 0 2 5 | 0 63: 0 2 8\n\
    a slot that is not fit is told before room 1; 63; 11: table 0 row 63: breaks rule 6; 0 count: 64 | 0 62: 0 2 5 | 0 63: 0 2 14";

// One job runs, which reads numbers, and all edges of location 0 are numbers: 64 of them.
const NUMBERS: &str = "0 count: 1 | 0 0: 0 2 8 | 5 count: 64 | 5 0 64: 1 2 3 1 7 0";

const MATCHES: &str = "\
    64 matches; 0; ok 64; ; 0 count: 64 | 0 0 64: 0 2 9 1 7\n\
    65 matches; 0; 10: no room 1; 5 count: 65 | 5 64: 1 2 3 1 7 0\n\
    65 edges found, 64 of which match; 0; ok 65; 5 count: 65 | 5 64: 1 2 3 2 0 0; 0 count: 64 | 0 0 64: 0 2 9 1 7\n\
    128 matches; 0; 10: no room 1; 5 count: 128 | 5 64 64: 1 2 3 1 7 0\n\
    128 matches with nothing behind; 0; ok 128; 5 count: 128 | 5 64 64: 1 2 3 1 7 0 | 8 7.1: 0; 0 count: 0 | 0 0: 0 0 0";

// One job runs, which reads trees, and location 0 has one, which is empty.
const ONE_TREE: &str = "0 count: 1 | 0 0: 0 2 10 | 5 1 10: 0 0 0 0 0 0 | 5 count: 1";

const TREES: &str = "\
    the 64th tree; 0; ok 1; 255 count: 63; 255 count: 64 | 0 0: 0 2 11 0 0 0 0 0 0 0 0 4 63\n\
    the 65th tree; 0; 10: no room 2; 255 count: 64\n\
    the 65th tree, with nothing behind; 0; ok 1; 255 count: 64 | 0 0.2: 15; 0 count: 0 | 0 0: 0 0 0\n\
    the 63rd and the 64th tree; 0; ok 2; 255 count: 62 | 5 count: 2 | 5 1: 1 1 3 0 0 0; \
    255 count: 64 | 0 count: 2 | 0 0: 0 2 11 0 0 0 0 0 0 0 0 4 62 | 0 1: 0 2 11 0 0 0 0 0 0 0 0 4 63\n\
    the 64th and the 65th tree; 0; 10: no room 2; 255 count: 63 | 5 count: 2 | 5 1: 1 1 3 0 0 0";

// Eight shelved trees have 1,023 lines, and the tree that is read has one.
const LINES: &str = "0 count: 1 | 0 0: 0 2 10 | 5 2 9: 0 0 0 0 0 0 | 5 count: 2 | \
    255 count: 8 128 128 128 128 128 128 128 127 | 255 0 1023: 1 5 3";

const SHELVED: &str = "\
    1,024 lines; 0; ok 1; ; 255 count: 9 | 255 count.9: 1 | 255 1023: 1 2 3 1 1900 0 | 0 0: 0 2 11 0 0 0 0 0 0 0 0 4 8\n\
    1,025 lines; 0; 10: no room 3; 5 count: 3 | 5 2: 2 5 3 1 12 0\n\
    1,025 lines, with nothing behind; 0; ok 1; 5 count: 3 | 5 2: 2 5 3 1 12 0 | 0 0.2: 15; 0 count: 0 | 0 0: 0 0 0\n\
    an empty tree beside 1,024 lines; 0; ok 1; 255 count.8: 128 | 255 1023: 1 5 3 | 5 1: 0 0 0 0 0 0 | 5 count: 1; \
    255 count: 9 | 0 0: 0 2 11 0 0 0 0 0 0 0 0 4 8\n\
    one line beside 1,024; 0; 10: no room 3; 255 count.8: 128 | 255 1023: 1 5 3";

// One job runs, which changes numbers to the tree in slot 4, and location 0 has 127 lines, the last of which is a number.
const LONG: &str =
    "0 count: 1 | 0 0: 0 2 11 0 0 0 0 0 0 0 0 4 0 | 5 count: 127 | 5 0 126: 1 5 3 0 0 0 | 5 126: 1 2 3 1 7 0 | \
    255 count: 1 1 | 255 0: 1 5 3";

const TREE_LINES: &str = "\
    128 lines; 0; ok 1; ; 0 count: 0 | 0 0: 0 0 0 0 0 0 0 0 0 0 0 0 0 | 5 count: 128 | 5 126.3: 0 0 | 5 127: 2 5 3 0 0 0\n\
    129 lines; 0; 10: no room 4; 255 count: 1 2 | 255 1: 1 5 3\n\
    128 lines stay; 0; ok 1; 5 count: 128 | 5 126: 1 5 3 0 0 0 | 5 127: 1 2 3 1 7 0 | 255 count: 1 0 | 255 0: 0 0 0; \
    0 count: 0 | 0 0: 0 0 0 0 0 0 0 0 0 0 0 0 0 | 5 127.3: 0 0\n\
    129 lines, by one line; 0; 10: no room 4; 5 count: 128 | 5 126: 1 5 3 0 0 0 | 5 127: 1 2 3 1 7 0\n\
    128 lines, by two changes; 0; ok 2; 5 126: 0 0 0 0 0 0 | 5 count: 126 | 5 124 2: 1 2 3 1 7 0; \
    0 count: 0 | 0 0: 0 0 0 0 0 0 0 0 0 0 0 0 0 | 5 count: 128 | 5 124 4: 1 2 3 0 0 0 | 5 125: 2 5 3 | 5 127: 2 5 3\n\
    129 lines, by three changes; 0; 10: no room 4; 5 126: 0 0 0 0 0 0 | 5 count: 126 | 5 123 3: 1 2 3 1 7 0\n\
    128 lines where nothing is found; 0; ok 0; 5 count: 128 | 5 126 2: 1 5 3 0 0 0; 0 count: 0 | 0 0: 0 0 0 0 0 0 0 0 0 0 0 0 0";

// One job runs, which changes the one number of location 0 to the tree in slot 4, of eleven levels.
const HIGH: &str =
    "0 count: 1 | 0 0: 0 2 11 0 0 0 0 0 0 0 0 4 0 | 5 1 10: 0 0 0 0 0 0 | 5 count: 1 | 5 0: 1 2 3 1 7 0 | 255 count: 1 11 | \
    255 0 11: 1 5 3 | 255 1: 2 | 255 2: 3 | 255 3: 4 | 255 4: 5 | 255 5: 6 | 255 6: 7 | 255 7: 8 | 255 8: 9 | 255 9: 10 | 255 10: 11";

const DEPTHS: &str = "\
    depth 12; 0; ok 1; ; 0 count: 0 | 0 0: 0 0 0 0 0 0 0 0 0 0 0 0 0 | 5 count: 12 | 5 0.3: 0 0 | 5 1 11: 1 5 3 0 0 0 | \
    5 1: 2 | 5 2: 3 | 5 3: 4 | 5 4: 5 | 5 5: 6 | 5 6: 7 | 5 7: 8 | 5 8: 9 | 5 9: 10 | 5 10: 11 | 5 11: 12\n\
    depth 13; 0; 10: no room 5; 255 count: 1 12 | 255 11: 12 5 3\n\
    depth 13, at an edge of depth 2; 0; 10: no room 5; 4 count: 6 | 4 4: 4 5 2 | 4 5: 4 2 2 | 8 10.3: 4 | 5 0: 1 5 3 0 0 0 | 5 count: 2 | 5 1: 2 2 3 1 7 0\n\
    depth 13 where nothing is found; 0; ok 0; 255 count: 1 12 | 255 11: 12 5 3 | 5 0.1: 5; 0 count: 0 | 0 0: 0 0 0 0 0 0 0 0 0 0 0 0 0";

const ORDER: &str = "\
    rooms 1 and 2; 0; 10: no room 1; 0 count: 1 | 0 0: 0 2 10 | 5 count: 65 | 5 0 65: 1 1 3 0 0 0\n\
    rooms 1 and 3; 63; 10: no room 1; 0 count: 64 | 0 0 63: 0 2 5 | 0 63: 0 2 10 | 255 count: 8 128 128 128 128 128 128 128 128 | 255 0 1024: 1 5 3\n\
    rooms 2 and 3; 0; 10: no room 2; 0 count: 1 | 0 0: 0 2 10 | 255 count: 64 128 128 128 128 128 128 128 128 | 255 0 1024: 1 5 3\n\
    rooms 1, 2 and 3; 63; 10: no room 1; 0 count: 64 | 0 0 63: 0 2 5 | 0 63: 0 2 10 | \
    255 count: 64 128 128 128 128 128 128 128 128 | 255 0 1024: 1 5 3\n\
    rooms 4 and 5; 0; 10: no room 4; 0 count: 1 | 0 0: 0 2 11 0 0 0 0 0 0 0 0 4 0 | 5 count: 127 | 5 0 126: 1 5 3 0 0 0 | 5 126: 1 2 3 1 7 0 | \
    255 count: 1 12 | 255 0 12: 1 5 3 | 255 1: 2 | 255 2: 3 | 255 3: 4 | 255 4: 5 | 255 5: 6 | 255 6: 7 | 255 7: 8 | 255 8: 9 | \
    255 9: 10 | 255 10: 11 | 255 11: 12";

pub(crate) fn run(bench: &mut Bench<'_>) -> io::Result<()> {
    bench.judge_all(Call::Step, JOBS, RUNNING)?;
    bench.judge_all(Call::Step, NUMBERS, MATCHES)?;
    bench.judge_all(Call::Step, ONE_TREE, TREES)?;
    bench.judge_all(Call::Step, LINES, SHELVED)?;
    bench.judge_all(Call::Step, LONG, TREE_LINES)?;
    bench.judge_all(Call::Step, HIGH, DEPTHS)?;
    bench.judge_all(Call::Step, "", ORDER)
}
