// The row that a line spells, whatever its kind.
ghost use Rattle.std.specs.Prelude.{◌≡◌};
ghost use Rattle.sheet.specs.Showing.{shows};
ghost use Rattle.filing.specs.Rows.{row_shown, row_kind};

use rows::{
    CommandRow, EdgeRow, GrantRow, JobRow, LocationRow, PathStepRow, PatternRow, PolicyRow,
    TemplateRow,
};
use sheet::{Line, LineKind};

#[derive(Clone, Copy, Debug, PartialEq, Eq)]
pub enum Row {
    Policy(PolicyRow),
    Grant(GrantRow),
    Location(LocationRow),
    PathStep(PathStepRow),
    Edge(EdgeRow),
    TemplateLine(TemplateRow),
    Pattern(PatternRow),
    Command(CommandRow),
    Job(JobRow),
}

// The row that the line spells.
impl From<Line<'_>> for Row {
    ghost from_gives = { λ line row. row ≡ row_shown (shows line) };

    fn from(line: Line<'_>) -> Row {
        match line {
            Line::Policy(stretch) => Row::Policy(PolicyRow::decode(stretch)),
            Line::Grant(stretch) => Row::Grant(GrantRow::decode(stretch)),
            Line::Location(stretch) => Row::Location(LocationRow::decode(stretch)),
            Line::PathStep(stretch) => Row::PathStep(PathStepRow::decode(stretch)),
            Line::Edge(stretch) => Row::Edge(EdgeRow::decode(stretch)),
            Line::TemplateLine(stretch) => Row::TemplateLine(TemplateRow::decode(stretch)),
            Line::Pattern(stretch) => Row::Pattern(PatternRow::decode(stretch)),
            Line::Command(stretch) => Row::Command(CommandRow::decode(stretch)),
            Line::Job(stretch) => Row::Job(JobRow::decode(stretch)),
        }
    }
}

impl Row {
    // The kind of the line that spells the row.
    pub(crate) fn kind(self) -> LineKind
        ensures answer { result ≡ row_kind self }
    {
        match self {
            Row::Policy(_) => LineKind::Policy,
            Row::Grant(_) => LineKind::Grant,
            Row::Location(_) => LineKind::Location,
            Row::PathStep(_) => LineKind::PathStep,
            Row::Edge(_) => LineKind::Edge,
            Row::TemplateLine(_) => LineKind::TemplateLine,
            Row::Pattern(_) => LineKind::Pattern,
            Row::Command(_) => LineKind::Command,
            Row::Job(_) => LineKind::Job,
        }
    }
}
