// Running jobs and shelved trees.
use super::bench::Bench;
use super::starts::{BASE, LIVE, MOVING, Start};
use drawn::Drawn;
use shape::Stage;
use std::io;

const IN_DRAFT: Start = Start {
    sheet: BASE,
    pokes: MOVING,
    stage: Stage::Draft,
};

const DRAFTS: &str = "\
    a draft with a running job and shelved trees\n\
    a draft with shelved trees | 0 4294967295 0 0 | 0 0 1 0 | 0 0 2 0 | 0 0 3 0 | 0 0 4 0 | 0 0 5 0 | 0 0 7 0 | 0 0 9 0 | 0 0 11 0\n\
    a draft with a running job that does not stand | 0 0 2 0 | 0 4294967295 0 65";

const RUNNING: &str = "\
    live with a running job and shelved trees\n\
    live with shelved trees | 0 4294967295 0 0 | 0 0 1 0 | 0 0 2 0 | 0 0 3 0 | 0 0 4 0 | 0 0 5 0 | 0 0 7 0 | 0 0 9 0 | 0 0 11 0\n\
    running at location 2 | 0 0 0 2\n\
    running at location 3 | 0 0 0 3\n\
    running in roles {31} | 0 0 1 2147483648\n\
    running in roles {32} | 0 0 1 4294967296\n\
    running in roles {} | 0 0 1 0\n\
    running command 0 | 0 0 2 0\n\
    running command 12 | 0 0 2 12\n\
    running command 13 | 0 0 2 13\n\
    a second running job of zeros | 0 4294967295 0 2\n\
    slot 5 empty with a value | 0 0 14 1\n\
    slot 0 empty with a value | 0 0 3 0\n\
    slot 0 empty | 0 0 3 0 | 0 0 4 0\n\
    slot 0 number 4294967295 | 0 0 4 4294967295\n\
    slot 1 job 8 | 0 0 6 8\n\
    slot 1 job 9 | 0 0 6 9\n\
    slot 2 location 2 | 0 0 8 2\n\
    slot 2 location 3 | 0 0 8 3\n\
    slot 3 path 3 | 0 0 10 3\n\
    slot 3 path 4 | 0 0 10 4\n\
    slot 4 tree 1 | 0 0 12 1\n\
    slot 4 tree 2 | 0 0 12 2\n\
    slot 5 by a number for slot 0 | 0 0 13 1\n\
    slot 5 by a job for slot 1 | 0 0 13 2\n\
    slot 1 by a pointer for slots 2 and 3 | 0 0 5 3\n\
    slot 4 by a pointer for slots 2 and 3 | 0 0 11 3\n\
    slot 5 by a tree for slot 4 | 0 0 13 4\n\
    slot 0 by a job for slot 1 | 0 0 3 2 | 0 0 4 0\n\
    slot 0 by pattern 7 of 7 | 0 0 3 7\n\
    slot 0 by pattern 8 of 7 | 0 0 3 8\n\
    slot 0 by pattern 65 of 7 | 0 0 3 65\n\
    slot 0 by pattern 4294967295 of 7 | 0 0 3 4294967295\n\
    slot 2 filled and slot 3 empty | 0 0 9 0\n\
    slot 3 filled and slot 2 empty | 0 0 7 0";

const SHELF: &str = "\
    a shelved line of depth 0 | 255 1 0 0\n\
    a shelved tree that begins at depth 2 | 255 2 0 2\n\
    a shelved line two levels down | 255 1 0 3\n\
    a shelved line no level down | 255 1 0 1\n\
    a shelved line's set {0,31} | 255 1 2 2147483649\n\
    a shelved line's set {0,32} | 255 1 2 4294967297\n\
    a shelved line's set {} | 255 1 2 0\n\
    a shelved line's set {1} | 255 2 2 2\n\
    content 2 on a shelved line, job 8 | 255 1 3 2 | 255 1 4 8\n\
    content 4 on a shelved line | 255 1 3 4\n\
    a shelved line's job 9 | 255 1 3 2 | 255 1 4 9\n\
    tree 0 of one line, and one line over | 255 4294967295 1 1 | 255 1 0 1\n\
    tree 0 of one line, tree 1 of two | 255 4294967295 1 1 | 255 4294967295 2 2 | 255 1 0 1\n\
    tree 0 of three lines, tree 1 of one | 255 4294967295 1 3\n\
    tree 0 of three lines, tree 1 of none | 255 4294967295 1 3 | 255 4294967295 2 0\n\
    tree 0 of no line, and two lines over | 255 4294967295 1 0\n\
    one tree, and the length of another | 255 4294967295 0 1 | 255 2 0 0 | 255 2 2 0\n\
    one tree, and the line of another | 255 4294967295 0 1 | 255 4294967295 2 0\n\
    a third tree of no line | 255 4294967295 0 3\n\
    a third tree of 2^64 - 1 lines | 255 4294967295 0 3 | 255 4294967295 3 18446744073709551615\n\
    tree 0 of 2^64 - 1 lines | 255 4294967295 1 18446744073709551615";

pub(crate) fn run(bench: &mut Bench<'_>) -> io::Result<()> {
    bench.judge_all::<Drawn>(IN_DRAFT, DRAFTS)?;
    bench.judge_all::<Drawn>(LIVE, RUNNING)?;
    bench.judge_all::<Drawn>(LIVE, SHELF)
}
