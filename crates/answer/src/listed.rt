// How one line of a sheet is listed.
ghost use Rattle.std.specs.Prelude.{◌≡◌, Some, IfOk, string_bytes};
ghost use Rattle.answer.specs.Listing.{listed_text};

use std::alloc::{AllocError, Global};
use std::fmt;

// The line with this number begins at the byte `place` of its sheet.
#[derive(Clone, Copy)]
struct Listed<'a> {
    line: usize,
    place: usize,
    kind: u32,
    fields: &'a [u64],
}

impl fmt::Display for Listed<'_> {
    ghost output = { λ l. Some (listed_text l.line l.place l.kind l.fields.now) };

    fn fmt<W: fmt::Write>(&self, f: &mut fmt::Formatter<W>) -> fmt::Result {
        write!(
            f,
            "line {} at {} kind {}:",
            self.line, self.place, self.kind
        )?;
        for field in self.fields {
            write!(f, " {field}")?;
        }
        Ok(())
    }
}

// The line's text. Want of memory is the only error.
pub fn listed_line(
    heap: Global,
    line: usize,
    place: usize,
    kind: u32,
    fields: &[u64],
) -> Result<String, AllocError>
    ensures answer { IfOk result (λ s. string_bytes s ≡ listed_text line place kind fields.now) }
{
    let listed = Listed {
        line,
        place,
        kind,
        fields,
    };
    format!(in heap; "{listed}")
}
