// The rows that lines spell, with named fields of the right widths. A stretch that the reader handed out always decodes; of
// any other bytes, a field is 0 where no number stands, so a decode is no `From`. Kinds are numbers here, as the host holds
// them.
ghost use Rattle.std.specs.Prelude.{◌≡◌, ℕ, ◌-◌, ◌≤◌, length, slice_get};
ghost use Rattle.number.specs.declared.reading.Width.TheVariants.{Narrow, Wide};
ghost use Rattle.number.specs.Spelling.{limit_of};
ghost use Rattle.sheet.specs.Fields.{field_at};
ghost use Rattle.rows.specs.Numbering.{next_number};
ghost use Rattle.rows.specs.Decoding.{policy_row, grant_row, location_row, path_step_row, tree_line_at, edge_row, template_row, pattern_row, command_row, job_row};

use number::{Width, read_number};
use order::RoleSet;

#[derive(Clone, Copy, Debug, Default, PartialEq, Eq)]
pub struct PolicyRow {
    pub least: RoleSet,
}

#[derive(Clone, Copy, Debug, Default, PartialEq, Eq)]
pub struct GrantRow {
    pub policy: u32,
    pub direction: u32,
    pub holder: RoleSet,
    pub role: u32,
}

#[derive(Clone, Copy, Debug, Default, PartialEq, Eq)]
pub struct LocationRow {
    pub policy: u32,
}

#[derive(Clone, Copy, Debug, Default, PartialEq, Eq)]
pub struct PathStepRow {
    pub path: u32,
    pub label: u32,
    pub set: RoleSet,
}

// What edges and template lines have in common.
#[derive(Clone, Copy, Debug, Default, PartialEq, Eq)]
pub struct TreeLine {
    pub depth: u32,
    pub label: u32,
    pub set: RoleSet,
    pub content: u32,
    pub first: u32,
    pub second: u32,
}

#[derive(Clone, Copy, Debug, Default, PartialEq, Eq)]
pub struct EdgeRow {
    pub location: u32,
    pub line: TreeLine,
}

#[derive(Clone, Copy, Debug, Default, PartialEq, Eq)]
pub struct TemplateRow {
    pub template: u32,
    pub line: TreeLine,
}

#[derive(Clone, Copy, Debug, Default, PartialEq, Eq)]
pub struct PatternRow {
    pub kind: u32,
    pub slot: u32,
    pub policy: u32,
    pub first: RoleSet,
    pub second: RoleSet,
}

#[derive(Clone, Copy, Debug, Default, PartialEq, Eq)]
pub struct CommandRow {
    pub verb: u32,
    pub next: u32,
    pub operand_kind: u32,
    pub operand: u32,
    pub first: u64,
    pub second: u32,
    pub third: u32,
    pub fourth: u32,
}

#[derive(Clone, Copy, Debug, Default, PartialEq, Eq)]
pub struct JobRow {
    pub policy: u32,
    pub roles: RoleSet,
    pub command: u32,
}

// A row that stands among others under a number: a step in its path, a line in its template.
pub trait Numbered {
    ghost number: { Self → ℕ };

    fn number(&self) -> u32
        ensures answer { result ≡ number self.now };
}

impl Numbered for PathStepRow {
    ghost number = { λ step. step.path };

    fn number(&self) -> u32 {
        self.path
    }
}

impl Numbered for TemplateRow {
    ghost number = { λ line. line.template };

    fn number(&self) -> u32 {
        self.template
    }
}

// How many of what the rows are numbered by have begun: one more than the number of the last row, 0 where there is none.
pub fn next_number<T: Numbered>(rows: &[T]) -> usize
    ensures answer { result ≡ next_number T.number (slice_get rows.now (length rows.now - 1)) }
{
    match rows.last() {
        Some(last) => last.number() as usize + 1,
        None => 0,
    }
}

// The number at the place, and where the bytes behind it begin; 0 where none stands.
#[tactic(auto, unfolding(sheet::specs::Fields::field_at))]
pub fn field_at(bytes: &[u8], at: usize, width: Width) -> (u64, usize)
    ensures answer { result ≡ field_at width at bytes.now }
    ensures within { result.0 ≤ limit_of width }
{
    match read_number(bytes, at, width) {
        Ok(number) => (number.value, number.next),
        Err(_) => (0, at),
    }
}

// The fields of a stretch that are still to be read: they begin at the place.
#[derive(Clone, Copy)]
struct Fields<'a> {
    bytes: &'a [u8],
    at: usize,
}

impl<'a> Fields<'a> {
    // All the fields of a stretch.
    fn new(bytes: &'a [u8]) -> Fields<'a>
        ensures bytes { result.bytes.now ≡ bytes.now }
        ensures at { result.at ≡ 0 }
    {
        Fields { bytes, at: 0 }
    }

    // The next field.
    fn next(&mut self, width: Width) -> u64
        ensures answer { result ≡ (field_at width self.old.at self.old.bytes.now).0 }
        ensures after { self.new ≡ record self.old { at = (field_at width self.old.at self.old.bytes.now).1 } }
        ensures within { result ≤ limit_of width }
    {
        let (value, next) = field_at(self.bytes, self.at, width);
        self.at = next;
        value
    }

    fn wide(&mut self) -> u64
        ensures answer { result ≡ (field_at Wide self.old.at self.old.bytes.now).0 }
        ensures after { self.new ≡ record self.old { at = (field_at Wide self.old.at self.old.bytes.now).1 } }
    {
        self.next(Width::Wide)
    }

    fn narrow(&mut self) -> u32
        ensures answer { result ≡ (field_at Narrow self.old.at self.old.bytes.now).0 }
        ensures after { self.new ≡ record self.old { at = (field_at Narrow self.old.at self.old.bytes.now).1 } }
    {
        self.next(Width::Narrow) as u32
    }

    // The fields of an edge or a template line behind the first.
    fn tree_line(&mut self) -> TreeLine
        ensures answer { result ≡ tree_line_at self.old.at self.old.bytes.now }
    {
        TreeLine {
            depth: self.narrow(),
            label: self.narrow(),
            set: self.wide(),
            content: self.narrow(),
            first: self.narrow(),
            second: self.narrow(),
        }
    }
}

impl PolicyRow {
    pub fn decode(stretch: &[u8]) -> PolicyRow
        ensures answer { result ≡ policy_row stretch.now }
    {
        PolicyRow {
            least: Fields::new(stretch).wide(),
        }
    }
}

impl GrantRow {
    pub fn decode(stretch: &[u8]) -> GrantRow
        ensures answer { result ≡ grant_row stretch.now }
    {
        let mut fields = Fields::new(stretch);
        GrantRow {
            policy: fields.narrow(),
            direction: fields.narrow(),
            holder: fields.wide(),
            role: fields.narrow(),
        }
    }
}

impl LocationRow {
    pub fn decode(stretch: &[u8]) -> LocationRow
        ensures answer { result ≡ location_row stretch.now }
    {
        LocationRow {
            policy: Fields::new(stretch).narrow(),
        }
    }
}

impl PathStepRow {
    pub fn decode(stretch: &[u8]) -> PathStepRow
        ensures answer { result ≡ path_step_row stretch.now }
    {
        let mut fields = Fields::new(stretch);
        PathStepRow {
            path: fields.narrow(),
            label: fields.narrow(),
            set: fields.wide(),
        }
    }
}

impl EdgeRow {
    pub fn decode(stretch: &[u8]) -> EdgeRow
        ensures answer { result ≡ edge_row stretch.now }
    {
        let mut fields = Fields::new(stretch);
        EdgeRow {
            location: fields.narrow(),
            line: fields.tree_line(),
        }
    }
}

impl TemplateRow {
    pub fn decode(stretch: &[u8]) -> TemplateRow
        ensures answer { result ≡ template_row stretch.now }
    {
        let mut fields = Fields::new(stretch);
        TemplateRow {
            template: fields.narrow(),
            line: fields.tree_line(),
        }
    }
}

impl PatternRow {
    pub fn decode(stretch: &[u8]) -> PatternRow
        ensures answer { result ≡ pattern_row stretch.now }
    {
        let mut fields = Fields::new(stretch);
        PatternRow {
            kind: fields.narrow(),
            slot: fields.narrow(),
            policy: fields.narrow(),
            first: fields.wide(),
            second: fields.wide(),
        }
    }
}

impl JobRow {
    pub fn decode(stretch: &[u8]) -> JobRow
        ensures answer { result ≡ job_row stretch.now }
    {
        let mut fields = Fields::new(stretch);
        JobRow {
            policy: fields.narrow(),
            roles: fields.wide(),
            command: fields.narrow(),
        }
    }
}

impl CommandRow {
    pub fn decode(stretch: &[u8]) -> CommandRow
        ensures answer { result ≡ command_row stretch.now }
    {
        let mut fields = Fields::new(stretch);
        CommandRow {
            verb: fields.narrow(),
            next: fields.narrow(),
            operand_kind: fields.narrow(),
            operand: fields.narrow(),
            first: fields.wide(),
            second: fields.narrow(),
            third: fields.narrow(),
            fourth: fields.narrow(),
        }
    }
}
