// Reads a number, group by group.
ghost use Rattle.std.specs.Prelude.{◌≡◌, ◌<◌, ◌≤◌, length, drop, IfOk};
ghost use Rattle.number.specs.Spelling.{limit_of, read_number};
ghost use Rattle.number.specs.Laws.{OneSpelling};

use super::fault::{Cause, ReadFault};

// How large a number may be: 32 bits or 64.
#[derive(Clone, Copy, Debug, PartialEq, Eq)]
pub enum Width {
    Narrow,
    Wide,
}

// A number that was read, and where the bytes behind it begin.
#[derive(Clone, Copy, Debug, PartialEq, Eq)]
pub struct Number {
    pub value: u64,
    pub next: usize,
}

impl Width {
    fn limit(self) -> u64
        ensures answer { result ≡ limit_of self }
    {
        match self {
            Width::Narrow => u64::from(u32::MAX),
            Width::Wide => u64::MAX,
        }
    }
}

// The bytes from the place on; none behind the end.
fn bytes_from(bytes: &[u8], at: usize) -> &[u8]
    ensures answer { result.now ≡ drop at bytes.now }
{
    bytes.get(at..).unwrap_or(&[])
}

// The loop behind `read_number`, at any limit.
fn read_within(bytes: &[u8], at: usize, limit: u64) -> Result<Number, ReadFault>
    ensures answer { result ≡ read_number limit at bytes.now }
    ensures within { IfOk result (λ n. (at < n.next) × (n.next ≤ length bytes.now) × (n.value ≤ limit)) }
{
    let rest = bytes_from(bytes, at);
    let mut value: u64 = 0;
    for (groups, &byte) in rest.iter().enumerate() {
        let digit = u64::from(byte);
        let shift = 7 * groups;
        let place = at + groups;
        if digit > (limit - value) >> shift || digit == 0 && groups > 0 {
            return Err(Cause::TooLarge.at(place));
        }
        if digit < 128 {
            return Ok(Number {
                value: value + (digit << shift),
                next: place + 1,
            });
        }
        value += (digit - 128) << shift;
    }
    Err(Cause::Ends.at(at + rest.len()))
}

// The number of the width that stands at the place, or the fault at the byte that settles it.
pub fn read_number(bytes: &[u8], at: usize, width: Width) -> Result<Number, ReadFault>
    ensures answer { result ≡ read_number (limit_of width) at bytes.now }
    ensures within { IfOk result (λ n. (at < n.next) × (n.next ≤ length bytes.now) × (n.value ≤ limit_of width)) }
{
    read_within(bytes, at, width.limit())
}

// A number has one spelling; the function is here for its contract.
pub fn one_spelling()
    ensures laws { OneSpelling }
{}
