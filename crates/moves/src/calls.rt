// Post, recall, show and audit.
use super::asking::Call;
use super::bench::Bench;
use std::io;

const POSTS: &str = "\
    the first job; 0 0; ok 0; ; 0 count: 1 | 0 0: 0 2 1\n\
    the last location and the last job; 2 14; ok 0; ; 0 count: 1 | 0 0: 2 2 33\n\
    the 63rd job; 0 4; ok 62; 0 0 62: 0 2 5 | 0 count: 62; 0 count: 63 | 0 62: 0 2 8\n\
    the 64th job; 0 4; ok 63; 0 0 63: 0 2 5 | 0 count: 63; 0 count: 64 | 0 63: 0 2 8\n\
    the 65th job; 0 4; 10: no room 1; 0 0 64: 0 2 5 | 0 count: 64\n\
    policy 1's job at policy 1; 1 3; ok 0; ; 0 count: 1 | 0 0: 1 8 26\n\
    policy 1's job at policy 0; 0 3; 9: the job is of another policy\n\
    policy 0's job at policy 1; 1 0; 9: the job is of another policy\n\
    another policy, where 64 run; 1 0; 9: the job is of another policy; 0 0 64: 0 2 5 | 0 count: 64\n\
    location 3 of 3; 3 0; 8: no such location\n\
    location 16; 16 0; 8: no such location\n\
    location 4294967295; 4294967295 0; 8: no such location\n\
    no such location, and no such job; 3 15; 8: no such location\n\
    job 15 of 15; 0 15; 8: no such job\n\
    job 4294967295; 0 4294967295; 8: no such job\n\
    no such job, where 64 run; 0 15; 8: no such job; 0 0 64: 0 2 5 | 0 count: 64\n\
    a path overwritten with 99; 0 0; 11: table 4 row 0: out of shape; 4 0: 99\n\
    a path overwritten with 99, and no such location; 3 0; 11: table 4 row 0: out of shape; 4 0: 99\n\
    65 jobs run; 0 0; 11: table 0 row 64: out of shape; 0 0 64: 0 2 5 | 0 count: 65\n\
    a row past the last job is not zero; 0 0; 11: table 0 row 0: out of shape; 0 0: 0 2 5\n\
    the job breaks rule 5, which post does not try; 0 0; ok 0; 9 0.1: 8; 0 count: 1 | 0 0: 0 8 1";

// Three jobs run, and one tree of two lines is shelved.
const THREE: &str =
    "0 count: 3 | 0 0: 0 2 5 | 0 1: 2 2 7 | 0 2: 0 2 9 1 7 | 255 count: 1 2 | 255 0 2: 1 5 3";

const RECALLS: &str = "\
    the first of three; 0; ok 0; ; 0 count: 2 | 0 0: 2 2 7 | 0 1: 0 2 9 1 7 | 0 2: 0 0 0 0 0\n\
    the second of three; 1; ok 0; ; 0 count: 2 | 0 1: 0 2 9 1 7 | 0 2: 0 0 0 0 0\n\
    the last of three; 2; ok 0; ; 0 count: 2 | 0 2: 0 0 0 0 0\n\
    position 3 of three; 3; 8: no such position\n\
    position 64; 64; 8: no such position\n\
    position 18446744073709551615; 18446744073709551615; 8: no such position\n\
    no job runs; 0; 8: no such position; 0 0 3: 0 0 0 0 0 | 0 count: 0\n\
    the only job; 0; ok 0; 0 1 2: 0 0 0 0 0 | 0 count: 1; 0 count: 0 | 0 0: 0 0 0\n\
    the job whose slot holds the shelved tree; 2; ok 0; 0 2: 0 2 11 0 0 0 0 0 0 0 0 4 0; 0 count: 2 | 0 2: 0 0 0 0 0 0 0 0 0 0 0 0 0\n\
    the last of 64; 63; ok 0; 0 0 64: 0 2 5 0 0 | 0 count: 64; 0 count: 63 | 0 63: 0 0 0\n\
    a path overwritten with 99; 0; 11: table 4 row 0: out of shape; 4 0: 99\n\
    a path overwritten with 99, and no such position; 3; 11: table 4 row 0: out of shape; 4 0: 99\n\
    a job that does not stand, and is asked for; 1; 11: table 0 row 1: out of shape; 0 1.2: 34";

const SHOWS: &str = "\
    {0,1} to {1}; 0 1 2; 2 2 3 1 1900 0\n\
    {0,1} to {2}; 0 1 4; 2 2 3 1 1900 0\n\
    {0,1} to {0}; 0 1 1; 2 2 3 1 1900 0\n\
    {0,1} to {0,1}; 0 1 3; 2 2 3 1 1900 0\n\
    {0,1} to {}; 0 1 0; nothing\n\
    {0,2} to {1}; 0 6 2; nothing\n\
    {0,2} to {2}; 0 6 4; 1 2 5 1 9 0\n\
    {0,2} to {1,2}; 0 6 6; nothing\n\
    {0,1} to {31}; 0 1 2147483648; nothing\n\
    {0,31} to {31}; 0 1 2147483648; 2 2 2147483649 1 1900 0; 5 1.2: 2147483649\n\
    {0,1} to {32}; 0 1 4294967296; nothing\n\
    {0,1} to {1,32}; 0 1 4294967298; nothing\n\
    a pointer; 0 10 2; 1 4 3 3 1 2\n\
    row 11 of 11; 0 11 1; nothing\n\
    row 128; 0 128 1; nothing\n\
    row 18446744073709551615; 0 18446744073709551615 1; nothing\n\
    the last row of 128; 0 127 2; 1 5 3 0 0 0; 5 count: 128 | 5 0 128: 1 5 3 0 0 0\n\
    row 0 of location 1; 1 0 8; 1 1 9 0 0 0\n\
    row 1 of location 1; 1 1 1; nothing\n\
    row 0 of location 2, which has no edge; 2 0 1; nothing\n\
    location 3 of 3; 3 0 1; nothing\n\
    location 16; 16 0 1; nothing\n\
    location 18446744073709551615; 18446744073709551615 0 1; nothing\n\
    a path overwritten with 99; 0 1 2; nothing; 4 0: 99\n\
    the edge breaks rule 2, which show does not try; 0 1 1; 2 2 9 1 1900 0; 5 1.2: 9";

const AUDITS: &str = "\
    the house; ; nothing\n\
    a job runs; ; nothing; 0 count: 1 | 0 0: 0 2 8\n\
    64 jobs run; ; nothing; 0 count: 64 | 0 0 64: 0 2 8\n\
    a grant to disable the top; ; table 2 row 1 rule 1; 2 1.3: 0\n\
    an edge {0,3}; ; table 5 row 1 rule 2; 5 1.2: 9\n\
    {0} over {0,1}; ; table 5 row 1 rule 3; 5 0.2: 1\n\
    a script of policy 1; ; table 5 row 7 rule 4; 5 7.4: 3\n\
    a job in roles {3}; ; table 9 row 0 rule 5; 9 0.1: 8\n\
    a go by a slot with a number; ; table 8 row 12 rule 6; 8 12.3: 0\n\
    a path {0,2} for roles {1}; ; table 8 row 11 rule 7; 4 3.2: 5\n\
    a tree pattern's second set {0,2} for roles {1}; ; table 8 row 9 rule 8; 7 3.4: 5\n\
    a template's line {0,3}; ; table 8 row 15 rule 9; 6 0.3: 9\n\
    a grant whose holders are {2}; ; table 8 row 17 rule 10; 2 0.2: 4\n\
    a grant to enable role 3 by {1}; ; table 8 row 17 rule 11; 2 0.3: 3 | 8 17.4: 3\n\
    a running job in roles {3}; ; table 0 row 1 rule 5; 0 count: 2 | 0 0: 0 2 5 | 0 1: 0 8 5\n\
    a running job at a go by an empty slot; ; table 0 row 0 rule 6; 0 count: 1 | 0 0: 0 2 13\n\
    a script in a slot; ; nothing; 0 count: 1 | 0 0: 0 2 5 0 0 2 0\n\
    a script of policy 1 in a slot; ; table 0 row 0 rule 12; 0 count: 1 | 0 0: 0 2 5 0 0 2 3\n\
    a path overwritten with 99; ; table 4 row 0 rule 0; 4 0: 99\n\
    shape is told before the rules; ; table 9 row 0 rule 0; 2 1.3: 0 | 9 0.2: 0\n\
    the rules of jobs are told before running jobs; ; table 9 row 0 rule 5; 9 0.1: 8 | 0 count: 1 | 0 0: 0 8 5";

pub(crate) fn run(bench: &mut Bench<'_>) -> io::Result<()> {
    bench.judge_all(Call::Post, "", POSTS)?;
    bench.judge_all(Call::Recall, THREE, RECALLS)?;
    bench.judge_all(Call::Show, "", SHOWS)?;
    bench.judge_all(Call::Audit, "", AUDITS)
}
