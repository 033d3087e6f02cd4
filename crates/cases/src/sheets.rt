// The sheet: both sides of every limit of a number, the kinds around the nine, and a cut at each byte of a line of each kind.
use super::tells::tell;
use listing::Listing;
use std::io;
use std::ops::ControlFlow;

// What stands first in the sheet.
pub(crate) fn first(rt: &HostRuntime, name: &str, sheet: &[u8]) -> io::Result<()> {
    let mut listing = Listing::new(sheet);
    match listing.next(rt.alloc())? {
        ControlFlow::Continue(text) => tell(rt, name, text.as_str()),
        ControlFlow::Break(answer) => tell(rt, name, answer.to_string(rt.alloc())?.as_str()),
    }
}

const NARROW: [(&str, &[u8]); 12] = [
    ("location 0", &[3, 0]),
    ("location 127", &[3, 0x7f]),
    ("location 128", &[3, 0x80, 1]),
    ("location 2^28 - 1, 4 bytes", &[3, 0xff, 0xff, 0xff, 0x7f]),
    ("location 2^28, 5 bytes", &[3, 0x80, 0x80, 0x80, 0x80, 1]),
    ("location 2^32 - 1", &[3, 0xff, 0xff, 0xff, 0xff, 0x0f]),
    ("location 2^32", &[3, 0x80, 0x80, 0x80, 0x80, 0x10]),
    ("location, cut after 4 bytes", &[3, 0x80, 0x80, 0x80, 0x80]),
    (
        "location, 128 added to byte 5",
        &[3, 0x80, 0x80, 0x80, 0x80, 0x80],
    ),
    ("location, 6 bytes", &[3, 0x80, 0x80, 0x80, 0x80, 0x80, 1]),
    ("location 1 and a zero byte", &[3, 0x81, 0]),
    ("location 0 and a zero byte", &[3, 0x80, 0]),
];

const WIDE: [(&str, &[u8]); 8] = [
    (
        "policy 2^63 - 1, 9 bytes",
        &[1, 0xff, 0xff, 0xff, 0xff, 0xff, 0xff, 0xff, 0xff, 0x7f],
    ),
    (
        "policy 2^63, 10 bytes",
        &[1, 0x80, 0x80, 0x80, 0x80, 0x80, 0x80, 0x80, 0x80, 0x80, 1],
    ),
    (
        "policy 2^64 - 1",
        &[1, 0xff, 0xff, 0xff, 0xff, 0xff, 0xff, 0xff, 0xff, 0xff, 1],
    ),
    (
        "policy 2^64",
        &[1, 0x80, 0x80, 0x80, 0x80, 0x80, 0x80, 0x80, 0x80, 0x80, 2],
    ),
    (
        "policy, cut after 9 bytes",
        &[1, 0x80, 0x80, 0x80, 0x80, 0x80, 0x80, 0x80, 0x80, 0x80],
    ),
    (
        "policy, 128 added to byte 10",
        &[
            1, 0x80, 0x80, 0x80, 0x80, 0x80, 0x80, 0x80, 0x80, 0x80, 0x80,
        ],
    ),
    (
        "policy, 11 bytes",
        &[
            1, 0x80, 0x80, 0x80, 0x80, 0x80, 0x80, 0x80, 0x80, 0x80, 0x80, 1,
        ],
    ),
    (
        "policy, zero byte 10",
        &[1, 0x80, 0x80, 0x80, 0x80, 0x80, 0x80, 0x80, 0x80, 0x80, 0],
    ),
];

const KINDS: [(&str, &[u8]); 8] = [
    ("no bytes", &[]),
    ("kind 0", &[0]),
    ("kind 9", &[9, 0, 8, 1]),
    ("kind 10", &[10, 0]),
    ("kind 128", &[0x80, 1, 0]),
    ("kind 1 and a zero byte", &[0x81, 0, 2]),
    ("kind 2^32 - 1", &[0xff, 0xff, 0xff, 0xff, 0x0f]),
    ("kind 2^32", &[0x80, 0x80, 0x80, 0x80, 0x10]),
];

// A line of each kind, with a number of two bytes in it.
const LINES: [(&str, &[u8]); 9] = [
    ("policy", &[1, 0x80, 1]),
    ("grant", &[2, 0, 1, 0x80, 1, 3]),
    ("location", &[3, 0x80, 1]),
    ("path step", &[4, 0, 7, 0x80, 1]),
    ("edge", &[5, 0, 2, 8, 5, 1, 0xec, 0x0e, 0]),
    ("template line", &[6, 0, 1, 7, 3, 1, 0xa0, 6, 0]),
    ("pattern", &[7, 4, 0, 0, 0x80, 1, 3]),
    ("command", &[8, 4, 0, 0, 0, 0x80, 1, 0, 0, 0]),
    ("job", &[9, 0, 0x80, 1, 1]),
];

// The line cut at each of its bytes, and then whole.
fn cuts(rt: &HostRuntime) -> io::Result<()> {
    for (name, line) in LINES {
        for at in 0..=line.len() {
            first(rt, name, &line[..at])?;
        }
    }
    Ok(())
}

fn all(rt: &HostRuntime, sheets: &[(&str, &[u8])]) -> io::Result<()> {
    for (name, sheet) in sheets {
        first(rt, name, sheet)?;
    }
    Ok(())
}

pub(crate) fn run(rt: &HostRuntime) -> io::Result<()> {
    all(rt, &NARROW)?;
    all(rt, &WIDE)?;
    all(rt, &KINDS)?;
    cuts(rt)
}
