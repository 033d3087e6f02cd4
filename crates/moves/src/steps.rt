// Steps that are granted, one or more of each verb, and those that are denied for a reason other than a room.
use super::asking::Call;
use super::bench::Bench;
use std::io;

// Two jobs run: a case writes the command of the first, which makes the step, and the other waits at a fork into nothing.
const WAITED_FOR: &str = "0 count: 2 | 0 0: 0 2 1 | 0 1: 0 2 5";

const GRANTED: &str = "\
    fork; 0; ok 0; 0 0.2: 1; 0 count: 3 | 0 0.2: 5 | 0 1.2: 2 | 0 2: 0 2 3\n\
    both sides of a fork keep the slots; 0; ok 0; 0 0: 0 2 1 1 7; 0 count: 3 | 0 0: 0 2 5 0 0 | 0 1: 0 2 2 1 7 | 0 2: 0 2 3 1 7\n\
    the second of three; 1; ok 0; 0 count: 3 | 0 1: 0 2 1 | 0 2: 2 2 9; 0 count: 4 | 0 1: 2 2 9 | 0 2: 0 2 2 | 0 3: 0 2 3\n\
    fork into nothing; 0; ok 0; 0 0.2: 7; 0 count: 1 | 0 0.2: 5 | 0 1: 0 0 0\n\
    go; 0; ok 0; 0 0.2: 4; 0 0.2: 5 | 0 1: 1 8 5\n\
    run finds three, two of them scripts; 0; ok 3; 0 0.2: 6; 0 count: 4 | 0 0.2: 5 | 0 1.2: 7 | 0 2: 0 2 1 | 0 3: 0 2 4\n\
    run with nothing behind; 0; ok 3; 0 0.2: 2; 0 count: 3 | 0 0.2: 5 | 0 1.2: 1 | 0 2: 0 2 4\n\
    a script starts with its job's roles and empty slots; 0; ok 3; 0 0: 0 6 6 1 7 | 9 1.1: 4; \
    0 count: 4 | 0 0: 0 2 5 0 0 | 0 1: 0 6 7 1 7 | 0 2: 0 2 1 | 0 3: 0 4 4\n\
    read two numbers; 0; ok 2; 0 0.2: 8; 0 count: 3 | 0 0.2: 5 | 0 1: 0 2 9 1 7 | 0 2: 0 2 9 1 8\n\
    read over what slot 0 held; 0; ok 2; 0 0: 0 2 8 1 99; 0 count: 3 | 0 0: 0 2 5 0 0 | 0 1: 0 2 9 1 7 | 0 2: 0 2 9 1 8\n\
    read at location 2, which has no edge; 0; ok 0; 0 0: 2 2 8; 0 count: 1 | 0 0: 0 2 5 | 0 1: 0 0 0\n\
    read one number among three edges; 0; ok 3; 0 0.2: 23; 0 0.2: 5 | 0 1: 0 2 24 1 5\n\
    read two scripts among three edges; 0; ok 3; 0 0.2: 21; 0 count: 3 | 0 0.2: 5 | 0 1: 0 2 22 0 0 2 0 | 0 2: 0 2 22 0 0 2 1\n\
    read a pointer; 0; ok 1; 0 0.2: 12; 0 0.2: 5 | 0 1: 0 2 13 0 0 0 0 3 2 3 1\n\
    read where nothing is found; 0; ok 0; 0 0.2: 27; 0 count: 1 | 0 0.2: 5 | 0 1: 0 0 0\n\
    read two trees; 0; ok 2; 0 0.2: 10; \
    0 count: 3 | 0 0.2: 5 | 0 1: 0 2 11 0 0 0 0 0 0 0 0 4 0 | 0 2: 0 2 11 0 0 0 0 0 0 0 0 4 1 | \
    255 count: 2 2 0 | 255 0: 1 2 3 1 1900 0 | 255 1: 1 5 3 1 12 0\n\
    read a tree where one is not open; 0; ok 2; 0 0.2: 10 | 5 2.2: 5; \
    0 0.2: 5 | 0 1: 0 2 11 0 0 0 0 0 0 0 0 4 0 | 255 count: 1 0\n\
    read two trees with nothing behind; 0; ok 2; 0 0.2: 15; 0 count: 1 | 0 0.2: 5 | 0 1: 0 0 0\n\
    change two numbers to 42; 0; ok 2; 0 0.2: 25; 0 count: 1 | 0 0.2: 5 | 0 1: 0 0 0 | 5 4 2.4: 42\n\
    change a number at location 2; 0; ok 1; 0 0: 2 2 25 | 5 count.2: 1 | 5 12: 1 2 3 1 7 0; 0 count: 1 | 0 0: 0 2 5 | 0 1: 0 0 0 | 5 12.4: 42\n\
    change three edges, one of them a number; 0; ok 3; 0 0.2: 25 | 8 24.3: 2; 0 count: 1 | 0 0.2: 5 | 0 1: 0 0 0 | 5 8.4: 42\n\
    change the last number to a template; 0; ok 1; 0 0.2: 16 | 4 1.1: 8 | 5 10: 1 8 3 1 5 0; \
    0 0.2: 5 | 0 1.2: 17 | 5 count: 13 | 5 10: 1 8 3 0 0 0 | 5 11: 2 6 3 0 0 0 | 5 12: 3 7 3 1 5 0\n\
    change two trees to nothing; 0; ok 2; 0 0.2: 33; 0 count: 1 | 0 0.2: 5 | 0 1: 0 0 0 | 5 9 2: 0 0 0 0 0 0 | 5 count: 9 | \
    5 1: 1 1 3 0 0 0 | 5 2 2: 1 2 3 1 7 0 | 5 3.4: 8 | 5 4: 1 2 5 1 9 0 | 5 5: 1 3 3 2 0 0 | 5 6: 1 3 3 1 5 0 | 5 7: 1 3 3 2 1 0 | 5 8: 1 4 3 3 1 2\n\
    enable below two edges; 0; ok 2; 0 0.2: 18; 0 0.2: 5 | 0 1.2: 19 | 5 1 2.2: 7\n\
    disable below two edges; 0; ok 2; 0 0.2: 19; 0 0.2: 5 | 0 1.2: 20 | 5 1 2.2: 1\n\
    roles {3}, against rule 5, which step does not try; 0; ok 0; 0 0: 0 8 1; 0 count: 3 | 0 0: 0 2 5 | 0 1: 0 8 2 | 0 2: 0 8 3";

// The job that makes the step is the last of two. Its slots 2 and 3 hold a pointer to path 1 at location 2, and slot 4 the shelved
// tree, which is empty.
const FILLED: &str = "0 count: 2 | 0 0: 0 2 5 | 0 1: 0 2 5 0 0 0 0 3 2 3 1 4 0 | 255 count: 1 0";

const SLOTS: &str = "\
    go by slot 2; 1; ok 0; 0 1.2: 13; 0 1: 2 2 14\n\
    go by slot 2, empty; 1; 11: table 0 row 1: breaks rule 6; 0 1.2: 13 | 0 1.7: 0 0\n\
    go by slot 2, a number; 1; 11: table 0 row 1: breaks rule 6; 0 1: 0 2 13 0 0 0 0 1 0 | 7 0.1: 2\n\
    go by slot 2, a path; 1; 11: table 0 row 1: breaks rule 6; 0 1: 0 2 13 0 0 3 2 3 1 0 0 | 7 2.1: 1\n\
    run by slot 3; 1; ok 2; 0 1.2: 14; 0 count: 1 | 0 1: 0 0 0 0 0 0 0 0 0 0 0 0 0\n\
    run by slot 3, empty; 1; 11: table 0 row 1: breaks rule 6; 0 1.2: 14 | 0 1.9: 0 0\n\
    run by slot 3, a location; 1; 11: table 0 row 1: breaks rule 6; 0 1: 0 2 14 0 0 0 0 0 0 3 2 3 1 | 7 2.1: 3 | 7 3.1: 0\n\
    read by slot 3; 1; ok 2; 0 1.2: 29; 0 count: 1 | 0 1: 0 0 0 0 0 0 0 0 0 0 0 0 0\n\
    read by slot 3, empty; 1; 11: table 0 row 1: breaks rule 6; 0 1.2: 29 | 0 1.9: 0 0\n\
    change by slot 3; 1; ok 2; 0 1.2: 30; 0 count: 1 | 0 1: 0 0 0 0 0 0 0 0 0 0 0 0 0 | 5 4 2.4: 42\n\
    change by slot 3, empty; 1; 11: table 0 row 1: breaks rule 6; 0 1.2: 30 | 0 1.9: 0 0\n\
    enable by slot 3; 1; ok 2; 0 1.2: 31; 0 count: 1 | 0 1: 0 0 0 0 0 0 0 0 0 0 0 0 0\n\
    enable by slot 3, empty; 1; 11: table 0 row 1: breaks rule 6; 0 1.2: 31 | 0 1.9: 0 0\n\
    disable by slot 3; 1; ok 2; 0 1.2: 32; 0 count: 1 | 0 1: 0 0 0 0 0 0 0 0 0 0 0 0 0\n\
    disable by slot 3, empty; 1; 11: table 0 row 1: breaks rule 6; 0 1.2: 32 | 0 1.9: 0 0\n\
    change to the tree in slot 4; 1; ok 2; 0 1.2: 11; 0 count: 1 | 0 1: 0 0 0 0 0 0 0 0 0 0 0 0 0 | 5 4 2.3: 0 0\n\
    change to the tree in slot 4, empty; 1; 11: table 0 row 1: breaks rule 6; 0 1.2: 11 | 0 1.11: 0 0\n\
    change to a script in slot 1; 1; ok 2; 0 1.2: 22 | 0 1.5: 2 4; 0 count: 1 | 0 1: 0 0 0 0 0 0 0 0 0 0 0 0 0 | 5 4 2.3: 2 4\n\
    change to a script in slot 1, empty; 1; 11: table 0 row 1: breaks rule 6; 0 1.2: 22\n\
    change to the pointer in slots 2 and 3; 1; ok 2; 0 1.2: 22 | 8 21.6: 2; 0 count: 1 | 0 1: 0 0 0 0 0 0 0 0 0 0 0 0 0 | 5 4 2.3: 3 1 2\n\
    change to the path in slot 3; 1; 11: table 0 row 1: breaks rule 6; 0 1.2: 22 | 8 21.6: 3\n\
    change to a template with slot 0, which the change fills; 1; ok 0; 0 1.2: 16 | 8 15.3: 4; 0 1.2: 17\n\
    change to a template with slot 5, empty; 1; 11: table 0 row 1: breaks rule 6; 0 1.2: 16 | 6 1.5: 5\n\
    a slot that is not fit, where nothing is found; 1; 11: table 0 row 1: breaks rule 6; 0 1.2: 22 | 8 21.3: 4";

const DENIED: &str = "\
    position 2 of 2; 2; 8: no such position\n\
    position 64; 64; 8: no such position\n\
    position 18446744073709551615; 18446744073709551615; 8: no such position\n\
    no job runs; 0; 8: no such position; 0 0 2: 0 0 0 | 0 count: 0\n\
    a path overwritten with 99; 0; 11: table 4 row 0: out of shape; 4 0: 99\n\
    a path overwritten with 99, and no such position; 2; 11: table 4 row 0: out of shape; 4 0: 99\n\
    a path overwritten with 99, and a slot that is not fit; 0; 11: table 4 row 0: out of shape; 4 0: 99 | 0 0.2: 13\n\
    65 jobs run; 0; 11: table 0 row 64: out of shape; 0 0 64: 0 2 5 | 0 count: 65\n\
    65 shelved trees; 0; 11: table 255 row 64: out of shape; 255 count: 65\n\
    129 lines at location 2; 0; 11: table 5 row 140: out of shape; 5 count.2: 129 | 5 12 128: 1 5 3\n\
    another job's command is 0; 0; 11: table 0 row 1: out of shape; 0 1.2: 0";

pub(crate) fn run(bench: &mut Bench<'_>) -> io::Result<()> {
    bench.judge_all(Call::Step, WAITED_FOR, GRANTED)?;
    bench.judge_all(Call::Step, FILLED, SLOTS)?;
    bench.judge_all(Call::Step, WAITED_FOR, DENIED)
}
