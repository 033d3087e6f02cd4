// Lists a sheet.
ghost use Rattle.std.specs.Prelude.{◌≡◌, length, IfOk, string_bytes};
ghost use Rattle.sheet.specs.Fields.{values};
ghost use Rattle.sheet.specs.Kinds.{widths};
ghost use Rattle.sheet.specs.Showing.{shows, shown, line_at, place_after};
ghost use Rattle.listing.specs.Listings.{line_text, seen_of, Tells, count_after};

use super::listing::Listing;
use answer::{Answer, listed_line};
use rows::field_at;
use sheet::{Line, PlacedLine, Reader};
use std::alloc::{AllocError, Global};
use std::ops::ControlFlow;

// The numbers of a line's fields, one after the other.
fn fields_of(heap: Global, line: Line<'_>) -> Result<Vec<u64>, AllocError>
    ensures answer { IfOk result (λ v. v.items ≡ values (widths (shows line.entry).0) 0 (shows line.entry).1) }
{
    let bytes = line.stretch();
    let widths = line.kind().widths();
    let mut fields = Vec::new(heap);
    let mut at = 0;
    for width in widths {
        let (value, next) = field_at(bytes, at, *width);
        fields.push(value)?;
        at = next;
    }
    Ok(fields)
}

fn text_of(heap: Global, line: usize, placed: PlacedLine<'_>) -> Result<String, AllocError>
    ensures answer { IfOk result (λ text. string_bytes text ≡ line_text line (seen_of placed.entry)) }
{
    let kind = placed.line.kind();
    let fields = fields_of(heap, placed.line)?;
    listed_line(heap, line, placed.place, u32::from(kind), fields.as_slice())
}

impl<'a> Listing<'a> {
    pub fn new(sheet: &'a [u8]) -> Listing<'a>
        ensures sheet { result.reader.sheet.now ≡ sheet.now }
        ensures place { result.reader.place ≡ 0 }
        ensures end { result.reader.frame.end ≡ length sheet.now }
        ensures line { result.line ≡ 0 }
    {
        Listing {
            reader: Reader::new(sheet),
            line: 0,
        }
    }

    // The text of the next line, or how the reading ended. At the end, and after a fault, it tells the same again.
    pub fn next(&mut self, heap: Global) -> Result<ControlFlow<Answer, String>, AllocError>
        ensures answer { IfOk result (Tells self.old.line (shown self.old.reader.sheet.now (line_at self.old.reader.frame self.old.reader.place self.old.reader.sheet.now))) }
        ensures count { self.new.line ≡ count_after self.old.line (shown self.old.reader.sheet.now (line_at self.old.reader.frame self.old.reader.place self.old.reader.sheet.now)) }
        ensures place { self.new.reader.place ≡ place_after self.old.reader.place (line_at self.old.reader.frame self.old.reader.place self.old.reader.sheet.now) }
        ensures same { self.new.reader.sheet.now ≡ self.old.reader.sheet.now }
    {
        let line = self.line;
        match self.reader.next_line() {
            Ok(Some(placed)) => {
                self.line = line + 1;
                Ok(ControlFlow::Continue(text_of(heap, line, placed)?))
            }
            Ok(None) => Ok(ControlFlow::Break(Answer::Count { count: line })),
            Err(fault) => Ok(ControlFlow::Break(Answer::ReadRefused {
                number: fault.number(),
                line,
                byte: fault.byte,
            })),
        }
    }
}
