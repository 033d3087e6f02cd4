// Cases as text. A case is a line whose parts are divided by semicolons: what it is called, the arguments of its call, the answer, what a
// host writes before the call, and what the call changes. Parts at the end may be missing.
use std::io;

#[derive(Clone, Copy)]
pub(crate) struct Case<'a> {
    pub(crate) what: &'a str,
    pub(crate) arguments: &'a str,
    pub(crate) answer: &'a str,
    pub(crate) host: &'a str,
    pub(crate) left: &'a str,
}

// What stands before the first semicolon, and behind it.
fn part(text: &str) -> (&str, &str) {
    text.split_once(';')
        .map_or((text.trim(), ""), |(first, rest)| (first.trim(), rest))
}

pub(crate) fn case_of(line: &str) -> Case<'_> {
    let (what, rest) = part(line);
    let (arguments, rest) = part(rest);
    let (answer, rest) = part(rest);
    let (host, left) = part(rest);
    Case {
        what,
        arguments,
        answer,
        host,
        left,
    }
}

// The row that stands for the number of rows in use has a name.
fn number_of(word: &str) -> Option<u64> {
    match word {
        "count" => Some(0xffff_ffff),
        _ => word.parse().ok(),
    }
}

// The numbers that stand in the text, one behind the other.
pub(crate) fn numbers_of(rt: &HostRuntime, text: &str) -> io::Result<Vec<u64>> {
    let numbers = text
        .split_whitespace()
        .filter_map(number_of)
        .collect(rt.alloc())?;
    Ok(numbers)
}

pub(crate) fn narrow(number: u64) -> u32 {
    (number % 0x1_0000_0000) as u32
}
