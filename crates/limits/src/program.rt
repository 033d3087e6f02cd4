// Template lines, patterns, commands and jobs.
use super::bench::Bench;
use super::starts::DRAFT;
use drawn::Drawn;
use std::io;

const TEMPLATES: &str = "\
    the first template 1 | 6 0 0 1\n\
    template 0, then 2 | 6 5 0 2\n\
    template 0 goes on | 6 5 0 0 | 6 6 0 1 | 6 7 0 2 | 6 8 0 3\n\
    template 0 goes on, and 4 is named | 6 5 0 0 | 6 6 0 1 | 6 7 0 2 | 6 8 0 3 | 8 9 6 4\n\
    template 1, then 0 | 6 4 0 1 | 6 4 1 1 | 6 5 0 0\n\
    template 0, then 4294967295 | 6 5 0 4294967295\n\
    template 1 begins at depth 2 | 6 5 1 2\n\
    template 1 begins at depth 2, below content 0 | 6 4 4 0 | 6 5 1 2\n\
    a first line of depth 0 | 6 0 1 0\n\
    a first line of depth 2 | 6 0 1 2\n\
    a line two levels down | 6 1 1 3\n\
    a line a level up | 6 4 1 1\n\
    a line below content 1 | 6 2 1 3\n\
    a line below content 2 | 6 3 1 3\n\
    a line below content 3 | 6 4 1 3\n\
    a line below content 4 | 6 5 0 0 | 6 5 1 3\n\
    a line below content 0 | 6 3 4 0 | 6 4 1 3\n\
    a line's set {0,31} | 6 1 3 2147483649\n\
    a line's set {0,32} | 6 1 3 4294967297\n\
    a line's set {} | 6 1 3 0\n\
    a line's set {31} | 6 1 3 2147483648\n\
    a line's set {1} | 6 5 3 2\n\
    content 4 on a line | 6 1 4 4\n\
    content 5 on a line | 6 1 4 5 | 6 1 5 0\n\
    content 6 on a line | 6 1 4 6\n\
    a line's number 4294967295 | 6 1 5 4294967295\n\
    a line's job 8 | 6 2 5 8\n\
    a line's job 9 | 6 2 5 9\n\
    a line's path 3 | 6 3 5 3\n\
    a line's path 4 | 6 3 5 4\n\
    a line's location 2 | 6 3 6 2\n\
    a line's location 3 | 6 3 6 3\n\
    a line's slot 5 | 6 4 5 5\n\
    a line's slot 6 | 6 4 5 6";

const PATTERNS: &str = "\
    pattern kind 0 | 7 0 0 0\n\
    pattern kind 5 | 7 0 0 5\n\
    pattern kind 5 in place of 4 | 7 3 0 5\n\
    a number's slot 5 | 7 0 1 5\n\
    a number's slot 6 | 7 0 1 6\n\
    a job's slot 5 | 7 1 1 5\n\
    a job's slot 6 | 7 1 1 6\n\
    a job's policy 7 | 7 1 2 7\n\
    a job's policy 8 | 7 1 2 8\n\
    a pointer's slot 4 | 7 2 1 4\n\
    a pointer's slot 5 | 7 2 1 5\n\
    a pointer's policy 7 | 7 2 2 7\n\
    a pointer's policy 8 | 7 2 2 8\n\
    a pointer's last set {31} | 7 2 3 2147483648\n\
    a pointer's last set {32} | 7 2 3 4294967296\n\
    a pointer's last set {} | 7 2 3 0\n\
    a tree's slot 5 | 7 3 1 5\n\
    a tree's slot 6 | 7 3 1 6\n\
    a tree's policy 7 | 7 3 2 7\n\
    a tree's policy 8 | 7 3 2 8\n\
    a tree's first set {31} | 7 3 3 2147483648\n\
    a tree's first set {32} | 7 3 3 4294967296\n\
    a tree's first set {} | 7 3 3 0\n\
    a tree's second set {31} | 7 3 4 2147483648\n\
    a tree's second set {32} | 7 3 4 4294967296\n\
    a tree's second set {} | 7 3 4 0";

const COMMANDS: &str = "\
    verb 0 | 8 2 0 0\n\
    verb 8 | 8 11 0 8\n\
    go with operand kind 2 | 8 1 2 2\n\
    go to location 2 | 8 1 3 2\n\
    go to location 3 | 8 1 3 3\n\
    go to slot 5 | 8 1 2 1 | 8 1 3 5\n\
    go to slot 6 | 8 1 2 1 | 8 1 3 6\n\
    go in roles {31} | 8 1 4 2147483648\n\
    go in roles {32} | 8 1 4 4294967296\n\
    go in roles {} | 8 1 4 0\n\
    run with operand kind 2 | 8 2 2 2\n\
    run path 3 | 8 2 3 3\n\
    run path 4 | 8 2 3 4\n\
    run slot 5 | 8 2 2 1 | 8 2 3 5\n\
    run slot 6 | 8 2 2 1 | 8 2 3 6\n\
    read with operand kind 2 | 8 3 2 2\n\
    read path 3 | 8 3 3 3\n\
    read path 4 | 8 3 3 4\n\
    read slot 5 | 8 3 2 1 | 8 3 3 5\n\
    read slot 6 | 8 3 2 1 | 8 3 3 6\n\
    read by pattern 6 | 8 3 4 6\n\
    read by pattern 7 | 8 3 4 7\n\
    read by pattern 2^32 | 8 3 4 4294967296\n\
    change with operand kind 2 | 8 4 2 2\n\
    change path 3 | 8 4 3 3\n\
    change path 4 | 8 4 3 4\n\
    change slot 5 | 8 4 2 1 | 8 4 3 5\n\
    change slot 6 | 8 4 2 1 | 8 4 3 6\n\
    change by pattern 6 | 8 4 4 6\n\
    change by pattern 7 | 8 4 4 7\n\
    change by pattern 2^32 | 8 4 4 4294967296\n\
    change to content 6 | 8 9 5 6\n\
    change to number 4294967295 | 8 5 6 4294967295\n\
    change to job 8 | 8 6 6 8\n\
    change to job 9 | 8 6 6 9\n\
    change to a pointer by path 3 | 8 7 6 3\n\
    change to a pointer by path 4 | 8 7 6 4\n\
    change to a pointer to location 2 | 8 7 7 2\n\
    change to a pointer to location 3 | 8 7 7 3\n\
    change to slot 5 | 8 8 6 5\n\
    change to slot 6 | 8 8 6 6\n\
    change to template 4 | 8 9 6 4\n\
    change to template 5 | 8 9 6 5\n\
    enable with operand kind 2 | 8 10 2 2\n\
    enable path 3 | 8 10 3 3\n\
    enable path 4 | 8 10 3 4\n\
    enable slot 5 | 8 10 2 1 | 8 10 3 5\n\
    enable slot 6 | 8 10 2 1 | 8 10 3 6\n\
    enable role 31 | 8 10 4 31\n\
    enable role 32 | 8 10 4 32\n\
    enable role 2^32 | 8 10 4 4294967296";

const DISABLES: &str = "\
    disable with operand kind 2 | 8 11 2 2\n\
    disable path 3 | 8 11 2 0 | 8 11 3 3\n\
    disable path 4 | 8 11 2 0 | 8 11 3 4\n\
    disable slot 5 | 8 11 3 5\n\
    disable slot 6 | 8 11 3 6\n\
    disable role 31 | 8 11 4 31\n\
    disable role 32 | 8 11 4 32\n\
    disable role 2^32 | 8 11 4 4294967296";

// Commands are counted from 1 and rows from 0.
const WAYS: &str = "\
    command 1 goes on at 0 | 8 0 1 0\n\
    command 1 goes on at 1 | 8 0 1 1\n\
    command 1 goes on at 2 | 8 0 1 2\n\
    command 1 goes on at 12, as 11 does | 8 0 1 12\n\
    command 1 goes on at 12 alone | 8 0 1 12 | 8 10 1 0\n\
    command 1 goes on at 13 | 8 0 1 13\n\
    command 1 goes on at 4294967295 | 8 0 1 4294967295\n\
    command 2 goes on at 2 | 8 1 1 2\n\
    command 2 goes on at 3, as the fork does | 8 1 1 3\n\
    command 2 goes on at 3 alone | 8 1 1 3 | 8 0 4 0\n\
    command 2 goes on at 4, as 3 does | 8 1 1 4\n\
    command 3 goes on at 1 | 8 2 1 1\n\
    command 11 goes on at 11 | 8 10 1 11\n\
    command 12 goes on at 12 | 8 11 1 12\n\
    command 12 goes on at 13 | 8 11 1 13\n\
    the fork's other way 0 | 8 0 4 0\n\
    the fork's other way 1 | 8 0 4 1\n\
    the fork's other way 2, as its next | 8 0 4 2\n\
    the fork's other way 2 alone | 8 0 4 2 | 8 0 1 0\n\
    both ways of the fork 0 | 8 0 4 0 | 8 0 1 0\n\
    the fork's other way 13 | 8 0 4 13\n\
    the fork's other way 2^32 | 8 0 4 4294967296";

const JOBS: &str = "\
    a job of policy 7 | 9 0 0 7\n\
    a job of policy 8 | 9 0 0 8\n\
    a job's roles {31} | 9 0 1 2147483648\n\
    a job's roles {32} | 9 0 1 4294967296\n\
    a job's roles {} | 9 1 1 0\n\
    a job's command 0 | 9 0 2 0\n\
    a job's command 1 | 9 1 2 1\n\
    a job's command 12 | 9 0 2 12\n\
    a job's command 13 | 9 1 2 13\n\
    job 7 named, and eight jobs | 9 8 0 0 | 9 8 1 0 | 9 8 2 0 | 9 4294967295 0 8 | 8 6 6 7\n\
    job 8 named, and eight jobs | 9 8 0 0 | 9 8 1 0 | 9 8 2 0 | 9 4294967295 0 8 | 8 6 6 8";

pub(crate) fn run(bench: &mut Bench<'_>) -> io::Result<()> {
    bench.judge_all::<Drawn>(DRAFT, TEMPLATES)?;
    bench.judge_all::<Drawn>(DRAFT, PATTERNS)?;
    bench.judge_all::<Drawn>(DRAFT, COMMANDS)?;
    bench.judge_all::<Drawn>(DRAFT, DISABLES)?;
    bench.judge_all::<Drawn>(DRAFT, WAYS)?;
    bench.judge_all::<Drawn>(DRAFT, JOBS)
}
