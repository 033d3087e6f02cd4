// One line for each question, with what the code answers.
use std::io;

pub(crate) fn yes_no(holds: bool) -> &'static str {
    if holds { "yes" } else { "no" }
}

pub(crate) fn tell(rt: &HostRuntime, question: &str, answer: &str) -> io::Result<()> {
    println!(rt; "{question} -> {answer}")
}

// A number, and what four questions about it are answered.
pub(crate) fn row(
    rt: &HostRuntime,
    what: &str,
    number: u32,
    answers: [&'static str; 4],
) -> io::Result<()> {
    let [a, b, c, d] = answers;
    println!(rt; "{what} {number}: {a} {b} {c} {d}")
}
