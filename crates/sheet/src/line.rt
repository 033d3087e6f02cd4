// A line of a sheet, by its kind; each case borrows the stretch of the sheet that holds its fields, and so has arms of its own.
ghost use Rattle.std.specs.Prelude.{◌≡◌};
ghost use Rattle.sheet.specs.Showing.{shows};

use super::kinds::LineKind;

#[derive(Clone, Copy, Debug, PartialEq, Eq)]
pub enum Line<'a> {
    Policy(&'a [u8]),
    Grant(&'a [u8]),
    Location(&'a [u8]),
    PathStep(&'a [u8]),
    Edge(&'a [u8]),
    TemplateLine(&'a [u8]),
    Pattern(&'a [u8]),
    Command(&'a [u8]),
    Job(&'a [u8]),
}

// A line, and the offset of its first byte.
#[derive(Clone, Copy, Debug, PartialEq, Eq)]
pub struct PlacedLine<'a> {
    pub line: Line<'a>,
    pub place: usize,
}

impl<'a> Line<'a> {
    pub fn kind(self) -> LineKind
        ensures answer { result ≡ (shows self.entry).0 }
    {
        match self {
            Line::Policy(_) => LineKind::Policy,
            Line::Grant(_) => LineKind::Grant,
            Line::Location(_) => LineKind::Location,
            Line::PathStep(_) => LineKind::PathStep,
            Line::Edge(_) => LineKind::Edge,
            Line::TemplateLine(_) => LineKind::TemplateLine,
            Line::Pattern(_) => LineKind::Pattern,
            Line::Command(_) => LineKind::Command,
            Line::Job(_) => LineKind::Job,
        }
    }

    // The bytes of the line's fields.
    pub fn stretch(self) -> &'a [u8]
        ensures answer { result.now ≡ (shows self.entry).1 }
    {
        match self {
            Line::Policy(stretch)
            | Line::Grant(stretch)
            | Line::Location(stretch)
            | Line::PathStep(stretch)
            | Line::Edge(stretch)
            | Line::TemplateLine(stretch)
            | Line::Pattern(stretch)
            | Line::Command(stretch)
            | Line::Job(stretch) => stretch,
        }
    }
}

pub(crate) fn line_of<'a>(kind: LineKind, stretch: &'a [u8]) -> Line<'a>
    ensures answer { shows result ≡ (kind, stretch.now) }
{
    match kind {
        LineKind::Policy => Line::Policy(stretch),
        LineKind::Grant => Line::Grant(stretch),
        LineKind::Location => Line::Location(stretch),
        LineKind::PathStep => Line::PathStep(stretch),
        LineKind::Edge => Line::Edge(stretch),
        LineKind::TemplateLine => Line::TemplateLine(stretch),
        LineKind::Pattern => Line::Pattern(stretch),
        LineKind::Command => Line::Command(stretch),
        LineKind::Job => Line::Job(stretch),
    }
}
