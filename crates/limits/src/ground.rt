// Policies, grants, locations, path steps and edges.
use super::bench::Bench;
use super::starts::DRAFT;
use drawn::Drawn;
use std::io;

const ROWS: &str = "\
    the base as it is\n\
    a policy's least {31} | 1 0 0 2147483648\n\
    a policy's least {32} | 1 0 0 4294967296\n\
    a policy's least {63} | 1 1 0 9223372036854775808\n\
    a policy's least {} | 1 1 0 0\n\
    a grant's policy 7 | 2 0 0 7\n\
    a grant's policy 8 | 2 0 0 8\n\
    a grant's policy 4294967295 | 2 0 0 4294967295\n\
    a grant's direction 1 | 2 0 1 1\n\
    a grant's direction 2 | 2 0 1 2\n\
    a grant's holder {0,31} | 2 0 2 2147483649\n\
    a grant's holder {0,32} | 2 0 2 4294967297\n\
    a grant's holder {} | 2 0 2 0\n\
    a grant's role 31 | 2 0 3 31\n\
    a grant's role 32 | 2 0 3 32\n\
    a location's policy 7 | 3 0 0 7\n\
    a location's policy 8 | 3 0 0 8\n\
    no locations, and edges | 3 1 0 0 | 3 2 0 0 | 3 4294967295 0 0\n\
    one location, and edges at two | 3 1 0 0 | 3 2 0 0 | 3 4294967295 0 1\n\
    an edge at location 1 | 5 4294967295 1 1\n\
    an edge at location 2 that is zero | 5 4294967295 2 1\n\
    an edge at location 3 | 5 4294967295 3 1";

const STEPS: &str = "\
    the first path 1 | 4 0 0 1\n\
    path 0, then 1 and 1 | 4 1 0 1\n\
    path 0, then 1 and 2 | 4 1 0 1 | 4 2 0 2\n\
    path 0, then 1 and 3 | 4 1 0 1 | 4 2 0 3\n\
    path 0, then 2 | 4 1 0 2\n\
    path 0, then 1 and 0 | 4 1 0 1 | 4 2 0 0\n\
    path 0, then 4294967295 | 4 2 0 4294967295\n\
    a step's label 4294967295 | 4 0 1 4294967295\n\
    a step's set {31} | 4 2 2 2147483648\n\
    a step's set {32} | 4 2 2 4294967296\n\
    a step's set {} | 4 2 2 0";

const EDGES: &str = "\
    a first edge of depth 0 | 5 0 0 0\n\
    a first edge of depth 2 | 5 0 0 2\n\
    a first edge of depth 2 at location 1 | 5 4 0 2\n\
    an edge one level down | 5 1 0 2\n\
    an edge two levels down | 5 1 0 3\n\
    an edge no level down | 5 1 0 1 | 5 2 0 1\n\
    an edge of depth 0 | 5 3 0 0\n\
    an edge below content 1 | 5 2 0 3\n\
    an edge below content 2 | 5 3 0 3\n\
    an edge below content 3 | 5 3 3 0 | 5 2 3 3 | 5 3 0 3\n\
    an edge below content 0 | 5 2 3 0 | 5 3 0 3\n\
    an edge's label 4294967295 | 5 0 1 4294967295\n\
    an edge's set {0,31} | 5 1 2 2147483649\n\
    an edge's set {0,32} | 5 1 2 4294967297\n\
    an edge's set {} | 5 1 2 0\n\
    an edge's set {31} | 5 1 2 2147483648\n\
    an edge's set {1} | 5 4 2 2\n\
    content 3 on an edge | 5 1 3 3 | 5 1 4 0\n\
    content 4 on an edge | 5 1 3 4 | 5 1 4 0\n\
    content 5 on an edge | 5 1 3 5 | 5 1 4 0\n\
    content 6 on an edge | 5 1 3 6 | 5 1 4 0\n\
    an edge's number 4294967295 | 5 1 4 4294967295\n\
    an edge's job 8 | 5 2 4 8\n\
    an edge's job 9 | 5 2 4 9\n\
    an edge's path 3 | 5 3 4 3\n\
    an edge's path 4 | 5 3 4 4\n\
    an edge's location 2 | 5 3 5 2\n\
    an edge's location 3 | 5 3 5 3";

pub(crate) fn run(bench: &mut Bench<'_>) -> io::Result<()> {
    bench.judge_all::<Drawn>(DRAFT, ROWS)?;
    bench.judge_all::<Drawn>(DRAFT, STEPS)?;
    bench.judge_all::<Drawn>(DRAFT, EDGES)
}
