// Lines of trees and of templates: from depth 1, down one level at a time, and only below content 0.
ghost use Rattle.std.specs.Prelude.{◌≡◌, ◌&&◌, nat_le};
ghost use Rattle.standing.specs.declared.lines.LineBefore.{LineBefore};
ghost use Rattle.standing.specs.declared.lines.LinesBefore.{LinesBefore};
ghost use Rattle.standing.specs.declared.lines.Home.TheVariants.{Tree};
ghost use Rattle.standing.specs.Tests.{root, follows, content_stands, belongs, content_passes, line_passes, line_after, no_lines, template_passes, lines_after};

use super::sizes::Sizes;
use meaning::{Content, ContentKind};
use order::{has_role, in_use_of};
use rows::{TemplateRow, TreeLine};
use scan::Judged;

// Where a line lies.
#[derive(Clone, Copy, Debug, PartialEq, Eq)]
pub enum Home {
    Tree,
    Template,
}

// The depth of the line before, and whether lines may lie under it.
#[derive(Clone, Copy, Debug, PartialEq, Eq)]
pub struct LineBefore {
    pub depth: u32,
    pub branch: bool,
}

// How many templates there are so far, and the last line of the last of them.
#[derive(Clone, Copy, Debug, PartialEq, Eq)]
pub struct LinesBefore {
    pub templates: usize,
    pub line: LineBefore,
}

// Lines of depth 1 may lie under the root.
const ROOT: LineBefore = LineBefore {
    depth: 0,
    branch: true,
};

fn deep_enough(before: LineBefore, depth: u32) -> bool
    ensures answer { result ≡ (nat_le 1 depth && (nat_le depth 12 && follows before depth)) }
{
    1 <= depth
        && depth <= 12
        && (depth <= before.depth || (before.branch && depth - 1 == before.depth))
}

// Whether what the content names exists.
pub(crate) fn content_stands(names: &Sizes, content: Content) -> bool
    ensures answer { result ≡ content_stands names.now content }
{
    match content {
        Content::Tree | Content::Number(_) => true,
        Content::Script { job } => (job as usize) < names.jobs,
        Content::Pointer { path, location } => {
            (path as usize) < names.paths && (location as usize) < names.locations
        }
        Content::Held { slot } => slot < 6,
        Content::Template { template } => (template as usize) < names.templates,
    }
}

// What a slot holds lies only in templates and changes, and a whole template only in changes.
fn belongs(home: Home, content: Content) -> bool
    ensures answer { result ≡ belongs home content }
{
    match content {
        Content::Held { .. } => home == Home::Template,
        Content::Template { .. } => false,
        _ => true,
    }
}

fn content_passes(home: Home, names: &Sizes, line: TreeLine) -> bool
    ensures answer { result ≡ content_passes home names.now line }
{
    Content::decode(line.content, line.first, line.second).is_some_and(|content| belongs(
        home, content,
    ) && content_stands(names, content))
}

fn line_passes(home: Home, names: &Sizes, before: LineBefore, line: TreeLine) -> bool
    ensures answer { result ≡ line_passes home names.now before line }
{
    deep_enough(before, line.depth)
        && in_use_of(names.roles, line.set)
        && has_role(line.set, names.top)
        && content_passes(home, names, line)
}

fn line_after(line: TreeLine) -> LineBefore
    ensures answer { result ≡ line_after line }
{
    LineBefore {
        depth: line.depth,
        branch: ContentKind::try_from(line.content) == Ok(ContentKind::Tree),
    }
}

impl Judged<Sizes> for TreeLine {
    type Before = LineBefore;

    ghost first = { root };

    ghost passes = { λ s b i x. line_passes Tree s b x };

    ghost after = { λ b x. line_after x };

    fn before_all() -> LineBefore {
        ROOT
    }

    fn passes(&self, names: &Sizes, before: &LineBefore, _row: usize) -> bool {
        line_passes(Home::Tree, names, *before, *self)
    }

    fn note(&self, before: &mut LineBefore) {
        *before = line_after(*self);
    }
}

impl Judged<Sizes> for TemplateRow {
    type Before = LinesBefore;

    ghost first = { no_lines };

    ghost passes = { λ s b i x. template_passes s b x };

    ghost after = { λ b x. lines_after x };

    fn before_all() -> LinesBefore {
        LinesBefore {
            templates: 0,
            line: ROOT,
        }
    }

    fn passes(&self, names: &Sizes, before: &LinesBefore, _row: usize) -> bool {
        let template = self.template as usize;
        if template + 1 == before.templates {
            line_passes(Home::Template, names, before.line, self.line)
        } else {
            template == before.templates
                && before.templates < 32
                && line_passes(Home::Template, names, ROOT, self.line)
        }
    }

    fn note(&self, before: &mut LinesBefore) {
        *before = LinesBefore {
            templates: self.template as usize + 1,
            line: line_after(self.line),
        };
    }
}
