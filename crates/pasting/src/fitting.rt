// Whether slots hold what can lie on an edge.
ghost use Rattle.std.specs.Prelude.{◌≡◌, ◌+◌, Decides};
ghost use Rattle.layout.specs.Held.{in_use};
ghost use Rattle.layout.specs.Network.{network};
ghost use Rattle.layout.specs.Zeros.{line0};
ghost use Rattle.scan.specs.Scan.{Each};
ghost use Rattle.pasting.specs.Templates.{template_lines};
ghost use Rattle.pasting.specs.Words.{IsRoute, PartFits, HeldFits, LineFits, ContentFits};
ghost use Rattle.pasting.specs.Tests.{is_route, part_fits, held_fits, line_fits, lines_fit, content_fits};

use super::templates::template_lines;
use layout::{Table, Tables};
use meaning::{Content, ContentKind};
use rows::{PatternRow, TemplateRow, TreeLine};
use slots::{Part, Slots, part_at};

fn is_route(part: Option<Part>) -> bool
    ensures answer { result ≡ is_route part }
    ensures says { Decides result (IsRoute part) }
{
    matches!(part, Some(Part::Route { .. }))
}

// Whether what the slot was filled with can lie on an edge; the next slot has to hold the path to a location.
fn part_fits(part: Option<Part>, next: Option<Part>) -> bool
    ensures answer { result ≡ part_fits part next }
    ensures says { Decides result (PartFits part next) }
{
    match part {
        Some(Part::Number | Part::Script { .. } | Part::Tree { .. }) => true,
        Some(Part::Place { .. }) => is_route(next),
        Some(Part::Route { .. }) | None => false,
    }
}

fn held_fits(patterns: &[PatternRow], slots: &Slots, slot: u32) -> bool
    ensures answer { result ≡ held_fits patterns.now slots.now slot }
    ensures says { Decides result (HeldFits patterns.now slots.now slot) }
{
    let slot = slot as usize;
    part_fits(
        part_at(patterns, slots, slot),
        part_at(patterns, slots, slot + 1),
    )
}

fn line_fits(patterns: &[PatternRow], slots: &Slots, line: TreeLine) -> bool
    ensures answer { result ≡ line_fits patterns.now slots.now line }
    ensures says { Decides result (LineFits patterns.now slots.now line) }
{
    match ContentKind::try_from(line.content) {
        Ok(ContentKind::Held) => held_fits(patterns, slots, line.first),
        _ => true,
    }
}

fn lines_fit(patterns: &[PatternRow], slots: &Slots, tree: &[TreeLine]) -> bool
    ensures answer { result ≡ lines_fit patterns.now slots.now tree.now }
    ensures says { Decides result (Each (LineFits patterns.now slots.now) line0 tree.now) }
{
    for line in tree {
        if !line_fits(patterns, slots, *line) {
            return false;
        }
    }
    true
}

fn template_fits(
    patterns: &[PatternRow],
    slots: &Slots,
    templates: &Table<TemplateRow, 256>,
    template: u32,
) -> bool
    ensures answer { result ≡ lines_fit patterns.now slots.now (template_lines (in_use templates.now) template) }
    ensures says { Decides result (Each (LineFits patterns.now slots.now) line0 (template_lines (in_use templates.now) template)) }
{
    let lines = template_lines(templates, template);
    lines_fit(patterns, slots, lines.in_use())
}

// Whether each slot that the content uses holds what can lie there.
pub fn content_fits(tables: &Tables, slots: &Slots, content: Content) -> bool
    ensures answer { result ≡ content_fits (network tables.now).plan slots.now content }
    ensures says { Decides result (ContentFits (network tables.now).plan slots.now content) }
{
    let patterns = tables.patterns.in_use();
    match content {
        Content::Held { slot } => held_fits(patterns, slots, slot),
        Content::Template { template } => {
            template_fits(patterns, slots, &tables.templates, template)
        }
        _ => true,
    }
}
