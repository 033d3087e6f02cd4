// Reading: one line after the other.
ghost use Rattle.std.specs.Prelude.{◌≡◌, ◌^◌, ◌<◌, length};
ghost use Rattle.sheet.specs.Showing.{seen, shown, line_at, place_after, frame_after, Moves};

use super::finding::{Found, find_line};
use super::frame::{Frame, Reader};
use super::line::{PlacedLine, line_of};
use number::ReadFault;

impl<'a> Reader<'a> {
    // A reader at the beginning of the sheet.
    pub fn new(sheet: &'a [u8]) -> Reader<'a>
        ensures sheet { result.sheet.now ≡ sheet.now }
        ensures place { result.place ≡ 0 }
        ensures frame { result.frame ≡ record { end = length sheet.now; last_kind = None } }
    {
        Reader {
            sheet,
            place: 0,
            frame: Frame {
                end: sheet.len(),
                last_kind: None,
            },
        }
    }

    // The next line, or none at the end. After a fault the reader stands as before the line.
    pub fn next_line(&mut self) -> Result<Option<PlacedLine<'a>>, ReadFault>
        ensures answer { seen result ≡ shown self.old.sheet.now (line_at self.old.frame self.old.place self.old.sheet.now) }
        ensures place { self.new.place ≡ place_after self.old.place (line_at self.old.frame self.old.place self.old.sheet.now) }
        ensures frame { self.new.frame ≡ frame_after self.old.frame (line_at self.old.frame self.old.place self.old.sheet.now) }
        ensures same { self.new.sheet.now ≡ self.old.sheet.now }
        ensures moves { Moves result self.old.place self.new.place }
        ensures small { self.new.place < 2 ^ 64 }
    {
        let until = self.frame.end;
        let Some(found) = find_line(&self.sheet[..until], self.place)? else {
            return Ok(None);
        };
        let Found {
            kind,
            place,
            start,
            end,
        } = found;
        let line = line_of(kind, &self.sheet[start..end]);
        self.place = end;
        self.frame.last_kind = Some(kind);
        Ok(Some(PlacedLine { line, place }))
    }
}
