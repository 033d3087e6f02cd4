// Changes: several matches at once, a template with a tree slot, and outcomes one line and one level too large.
ghost use Rattle.std.specs.Prelude.{◌≡◌, ℕ, ◌≤◌, true};
ghost use Rattle.layout.specs.Zeros.{template0};
ghost use Rattle.scan.specs.Scan.{Each};
ghost use Rattle.changes.specs.Pastes.{held as held_by};
ghost use Rattle.changes.specs.Turns.{Shallow};

use super::standing_lines::stands;
use super::tells::show;
use super::woods::{branch, number, one_pair, step};
use changes::{Change, Paste};
use drawn::Drawn;
use layout::Tables;
use meaning::{Content, Pattern};
use rows::{PathStepRow, PolicyRow, TemplateRow, TreeLine};
use std::io;
use trees::Path;

// Whether no line of a template is too deep to be put into a tree.
fn templates_are_low(rows: &[TemplateRow]) -> bool
    ensures says { result ≡ true → Each (λ row. row.line.depth ≤ 500) template0 rows.now }
{
    for row in rows {
        if row.line.depth > 12 {
            return false;
        }
    }
    true
}

// Slots that hold nothing.
fn no_slots() -> [Paste<'static>; 6]
    ensures shallow { (k : ℕ) → Shallow 500 (held_by result k).under }
{
    let empty = Paste {
        content: 0,
        first: 0,
        second: 0,
        under: &[],
    };
    [empty; 6]
}

// A change of what the one step and the pattern find, by a content that may use slot 0.
fn changed(
    rt: &HostRuntime,
    order: &Drawn,
    tables: &Tables,
    steps: &[PathStepRow],
    pattern: Pattern,
    content: Content,
    tree: &[TreeLine],
) -> io::Result<()> {
    if tree.len() > 128 || !stands(tree) || !templates_are_low(tables.templates.in_use()) {
        return println!(rt; "  no tree");
    }
    let flags = Path { order, steps }.select(tables, pattern, tree);
    let slots = no_slots();
    let change = Change {
        content,
        slots: &slots,
        own: 0,
        templates: &tables.templates,
    };
    let outcome = change.apply(tree, &flags);
    let count = outcome.count;
    let deepest = outcome.deepest;
    println!(rt; "  {count} lines, depth {deepest}")?;
    match outcome.tree() {
        Some(after) if after.count <= 13 => show(rt, after.in_use()),
        Some(_) => println!(rt; "  a tree"),
        None => println!(rt; "  no room"),
    }
}

// An empty network with one policy, whose least set is {1}, and the lines of one template.
fn tables_with(template: &[TreeLine]) -> Tables {
    let mut tables = layout::blank();
    let _ = tables.policies.push(PolicyRow { least: 0b10 });
    for line in template {
        let _ = tables.templates.push(TemplateRow {
            template: 0,
            line: *line,
        });
    }
    tables
}

const NUMBERS: Pattern = Pattern::Number { slot: 0 };

const TREES: Pattern = Pattern::Tree {
    slot: 0,
    policy: 0,
    top: 0b11,
    all: 0b1,
};

const FILL: Content = Content::Template { template: 0 };

// What a slot holds, on a line of a template.
const fn held(depth: u32, label: u32, slot: u32) -> TreeLine {
    TreeLine {
        depth,
        label,
        set: 0b11,
        content: 4,
        first: slot,
        second: 0,
    }
}

// A tree that is cut and put back into another place, and several matches next to each other.
fn worked(rt: &HostRuntime, order: &Drawn) -> io::Result<()> {
    let tree = [
        branch(1, 4, 0b11),
        number(2, 5, 0b11, 17),
        number(2, 6, 0b11, 18),
        number(1, 9, 0b11, 3),
    ];
    let tables = tables_with(&[branch(1, 1, 0b11), held(1, 2, 0)]);
    println!(rt; "4 by a template, slot 0 holds its tree")?;
    changed(rt, order, &tables, &[step(4, 0b1)], TREES, FILL, &tree)?;
    println!(rt; "4 by the empty tree")?;
    changed(
        rt,
        order,
        &tables,
        &[step(4, 0b1)],
        TREES,
        Content::Tree,
        &tree,
    )?;
    println!(rt; "4 as a number")?;
    changed(
        rt,
        order,
        &tables,
        &[step(4, 0b1)],
        NUMBERS,
        Content::Number(7),
        &tree,
    )?;
    let row = [
        number(1, 5, 0b1, 1),
        number(1, 5, 0b1, 2),
        branch(1, 5, 0b1),
        number(1, 5, 0b1, 3),
    ];
    println!(rt; "three of four 5 as numbers, by a template")?;
    changed(rt, order, &tables, &[step(5, 0b1)], NUMBERS, FILL, &row)
}

fn limits(rt: &HostRuntime, order: &Drawn) -> io::Result<()> {
    let mut wide = [number(1, 5, 0b1, 1); 127];
    wide[126].label = 9;
    println!(rt; "127 lines, one line more")?;
    let one = tables_with(&[branch(1, 1, 0b1)]);
    changed(rt, order, &one, &[step(9, 0b1)], NUMBERS, FILL, &wide)?;
    println!(rt; "127 lines, two lines more")?;
    let two = tables_with(&[branch(1, 1, 0b1), branch(1, 2, 0b1)]);
    changed(rt, order, &two, &[step(9, 0b1)], NUMBERS, FILL, &wide)?;
    println!(rt; "127 lines, one more for each of 126")?;
    changed(rt, order, &one, &[step(5, 0b1)], NUMBERS, FILL, &wide)?;
    let mut levels = [branch(1, 1, 0b1); 12];
    for row in 0..12 {
        levels[row].depth = row as u32 + 1;
    }
    println!(rt; "depth 1, eleven levels more")?;
    let eleven = tables_with(&levels[..11]);
    changed(
        rt,
        order,
        &eleven,
        &[step(9, 0b1)],
        NUMBERS,
        FILL,
        &wide[126..],
    )?;
    println!(rt; "depth 1, twelve levels more")?;
    let twelve = tables_with(&levels);
    changed(
        rt,
        order,
        &twelve,
        &[step(9, 0b1)],
        NUMBERS,
        FILL,
        &wide[126..],
    )?;
    println!(rt; "no lines")?;
    changed(rt, order, &one, &[step(9, 0b1)], NUMBERS, FILL, &[])
}

pub(crate) fn run(rt: &HostRuntime) -> io::Result<()> {
    let order = one_pair();
    worked(rt, &order)?;
    limits(rt, &order)
}
