// What lines become, put behind the lines that came out so far.
ghost use Rattle.std.specs.Prelude.{◌≡◌, ℕ, ◌+◌, ◌≤◌};
ghost use Rattle.layout.specs.Held.{in_use};
ghost use Rattle.obeying.specs.TreeLaws.{at_depth, lowered};
ghost use Rattle.outcomes.specs.Outcomes.{added_all};
ghost use Rattle.pasting.specs.Templates.{template_lines};
ghost use Rattle.replacing.specs.Pasting.{placed, line_content, filled, pasted};
ghost use Rattle.changes.specs.Pastes.{pasted_of, held_at};
ghost use Rattle.changes.specs.Turns.{Shallow};

use super::paste::{Holding, Paste};
use layout::Table;
use meaning::Content;
use outcomes::Outcome;
use pasting::template_lines;
use rows::{TemplateRow, TreeLine};

// The edge with what it gets, and the tree below it.
fn put(out: &mut Outcome, line: TreeLine, paste: Paste<'_>)
    requires shallow { Shallow 1000 (pasted_of paste).under }
    requires near { line.depth ≤ 1000 }
    ensures after { out.new ≡ added_all out.old (placed line (pasted_of paste.entry)) }
{
    out.add(TreeLine {
        content: paste.content,
        first: paste.first,
        second: paste.second,
        ..line
    });
    out.add_lowered(paste.under, line.depth);
}

// A line of a template, so many levels further down, with what a slot holds where it asks for that.
fn put_line(out: &mut Outcome, slots: &Holding<'_, '_>, line: TreeLine, levels: u32)
    requires shallow { (k : ℕ) → Shallow 1000 (held_at slots.now k).under }
    requires near { line.depth + levels ≤ 1000 }
    ensures after { out.new ≡ added_all out.old (placed (at_depth line (line.depth + levels)) (line_content (held_at slots.now) line)) }
{
    let paste = slots.line_content(line);
    let depth = line.depth + levels;
    put(out, TreeLine { depth, ..line }, paste);
}

// The lines of a template, so many levels further down, with its slots filled.
fn put_filled(out: &mut Outcome, slots: &Holding<'_, '_>, template: &[TreeLine], levels: u32)
    requires shallow { (k : ℕ) → Shallow 1000 (held_at slots.now k).under }
    requires low { Shallow 500 template.now }
    requires near { levels ≤ 500 }
    ensures after { out.new ≡ added_all out.old (lowered levels (filled (held_at slots.now) template.now)) }
{
    for line in template {
        put_line(out, slots, *line, levels);
    }
}

// The edge with the content of a change.
pub(crate) fn put_content(
    out: &mut Outcome,
    slots: &Holding<'_, '_>,
    templates: &Table<TemplateRow, 256>,
    content: Content,
    line: TreeLine,
)
    requires shallow { (k : ℕ) → Shallow 1000 (held_at slots.now k).under }
    requires low { (k : ℕ) → Shallow 500 (template_lines (in_use templates.now) k) }
    requires near { line.depth ≤ 500 }
    ensures after { out.new ≡ added_all out.old (placed line (pasted (held_at slots.now) (in_use templates.now) content)) }
{
    match content {
        Content::Tree => put(out, line, Paste::plain(0, 0, 0)),
        Content::Number(number) => put(out, line, Paste::plain(1, number, 0)),
        Content::Script { job } => put(out, line, Paste::plain(2, job, 0)),
        Content::Pointer { path, location } => put(out, line, Paste::plain(3, path, location)),
        Content::Held { slot } => put(out, line, slots.at(slot)),
        Content::Template { template } => {
            let lines = template_lines(templates, template);
            put(out, line, Paste::plain(0, 0, 0));
            put_filled(out, slots, lines.in_use(), line.depth);
        }
    }
}
