// Finding a line: its kind, and where its fields end.
ghost use Rattle.std.specs.Prelude.{◌≡◌, ◌<◌, ◌≤◌, length, IfSome, IfOk};
ghost use Rattle.sheet.specs.Fields.{fields_end, read_line};

use super::kinds::LineKind;
use number::{Cause, ReadFault, Width, read_number};

// A line of a sheet: its kind, the place of its first byte, and where its fields begin and end.
#[derive(Clone, Copy, Debug, PartialEq, Eq)]
pub struct Found {
    pub kind: LineKind,
    pub place: usize,
    pub start: usize,
    pub end: usize,
}

// Where the fields that begin at the place end.
fn skip_fields(bytes: &[u8], at: usize, widths: &[Width]) -> Result<usize, ReadFault>
    requires { at ≤ length bytes.now }
    ensures answer { result ≡ fields_end widths.now at bytes.now }
    ensures within { IfOk result (λ end. (at ≤ end) × (end ≤ length bytes.now)) }
{
    let mut place = at;
    for width in widths {
        place = read_number(bytes, place, *width)?.next;
    }
    Ok(place)
}

// The line that begins at the place; none at the end of the bytes.
pub(crate) fn find_line(bytes: &[u8], place: usize) -> Result<Option<Found>, ReadFault>
    ensures answer { result ≡ read_line place bytes.now }
    ensures within { IfOk result (λ found. IfSome found (λ f. (place < f.start) × (f.start ≤ f.end) × (f.end ≤ length bytes.now))) }
{
    if place == bytes.len() {
        return Ok(None);
    }
    let code = read_number(bytes, place, Width::Narrow)?;
    let kind = LineKind::try_from(code.value).map_err(|_| ReadFault {
        cause: Cause::UnknownKind,
        byte: code.next - 1,
    })?;
    let start = code.next;
    let end = skip_fields(bytes, start, kind.widths())?;
    Ok(Some(Found {
        kind,
        place,
        start,
        end,
    }))
}
