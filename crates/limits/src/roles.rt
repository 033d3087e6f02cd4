// Sets and roles under the rights order: all 64 bits are roles, and the top is 63.
use super::bench::Bench;
use super::starts::{BASE, LIVE, Start};
use rights::Rights;
use shape::Stage;
use std::io;

// The sets of edges, template lines and shelved lines are {63}; a running job, and a shelved tree of one line.
const TOPPED: &str = "\
    5 0 2 9223372036854775808 | 5 1 2 9223372036854775808 | 5 2 2 9223372036854775808 | \
    5 3 2 9223372036854775808 | 5 4 2 9223372036854775808 | 6 0 3 9223372036854775808 | \
    6 1 3 9223372036854775808 | 6 2 3 9223372036854775808 | 6 3 3 9223372036854775808 | \
    6 4 3 9223372036854775808 | 6 5 3 9223372036854775808 | 6 6 3 9223372036854775808 | \
    6 7 3 9223372036854775808 | 6 8 3 9223372036854775808 | 0 4294967295 0 1 | 0 0 1 1 | 0 0 2 1 | \
    255 4294967295 0 1 | 255 4294967295 1 1 | 255 0 0 1 | 255 0 2 9223372036854775808";

const BY_RIGHTS: Start = Start {
    sheet: BASE,
    pokes: TOPPED,
    stage: Stage::Live,
};

const SETS: &str = "\
    rights: {63} on every line\n\
    rights: a policy's least {63} | 1 0 0 9223372036854775808\n\
    rights: a policy's least of all roles | 1 0 0 18446744073709551615\n\
    rights: a policy's least {} | 1 0 0 0\n\
    rights: a grant's holder {63} | 2 0 2 9223372036854775808\n\
    rights: a grant's holder {} | 2 0 2 0\n\
    rights: a grant's role 63 | 2 0 3 63\n\
    rights: a grant's role 64 | 2 0 3 64\n\
    rights: a step's set {63} | 4 0 2 9223372036854775808\n\
    rights: a step's set {} | 4 0 2 0\n\
    rights: an edge's set of all roles | 5 4 2 18446744073709551615\n\
    rights: an edge's set without 63 | 5 4 2 9223372036854775807\n\
    rights: an edge's set {0} | 5 4 2 1\n\
    rights: an edge's set {} | 5 4 2 0\n\
    rights: a line's set of all roles | 6 5 3 18446744073709551615\n\
    rights: a line's set without 63 | 6 5 3 9223372036854775807\n\
    rights: a line's set {0} | 6 5 3 1\n\
    rights: a line's set {} | 6 5 3 0\n\
    rights: a pointer's last set {63} | 7 2 3 9223372036854775808\n\
    rights: a pointer's last set {} | 7 2 3 0\n\
    rights: a tree's first set {63} | 7 3 3 9223372036854775808\n\
    rights: a tree's first set {} | 7 3 3 0\n\
    rights: a tree's second set {63} | 7 3 4 9223372036854775808\n\
    rights: a tree's second set {} | 7 3 4 0\n\
    rights: go in roles {63} | 8 1 4 9223372036854775808\n\
    rights: go in all roles | 8 1 4 18446744073709551615\n\
    rights: go in roles {} | 8 1 4 0\n\
    rights: enable role 63 | 8 10 4 63\n\
    rights: enable role 64 | 8 10 4 64\n\
    rights: disable role 63 | 8 11 4 63\n\
    rights: disable role 64 | 8 11 4 64\n\
    rights: a job's roles {63} | 9 0 1 9223372036854775808\n\
    rights: a job's roles {} | 9 0 1 0\n\
    rights: running in roles {63} | 0 0 1 9223372036854775808\n\
    rights: running in all roles | 0 0 1 18446744073709551615\n\
    rights: running in roles {} | 0 0 1 0\n\
    rights: a shelved line's set of all roles | 255 0 2 18446744073709551615\n\
    rights: a shelved line's set without 63 | 255 0 2 9223372036854775807\n\
    rights: a shelved line's set {0} | 255 0 2 1\n\
    rights: a shelved line's set {} | 255 0 2 0";

const DRAWN: &str = "\
    rights: {0} on every line";

pub(crate) fn run(bench: &mut Bench<'_>) -> io::Result<()> {
    bench.judge_all::<Rights>(BY_RIGHTS, SETS)?;
    bench.judge_all::<Rights>(LIVE, DRAWN)
}
