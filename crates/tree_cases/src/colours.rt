// Finding, enabling and disabling: the worked cases, then trees of 0, 1 and 128 lines, depth 12, and edges next to each other.
use super::standing_lines::stands;
use super::tells::{show, tell_found};
use super::woods::{branch, number, one_pair, step};
use drawn::Drawn;
use order::Role;
use rows::{PathStepRow, TreeLine};
use std::io;
use trees::Path;

fn tree_m() -> [TreeLine; 3] {
    [
        branch(1, 7, 0b11),
        number(2, 8, 0b101, 1900),
        number(2, 9, 0b11, 12),
    ]
}

fn chain() -> [TreeLine; 3] {
    [branch(1, 6, 0b11), branch(2, 7, 0b11), branch(3, 8, 0b101)]
}

fn enabled(
    rt: &HostRuntime,
    order: &Drawn,
    steps: &[PathStepRow],
    role: Role,
    tree: &mut [TreeLine],
) -> io::Result<()> {
    if !steps.is_empty() && role < 64 && stands(tree) {
        Path { order, steps }.enable(role, tree);
    }
    show(rt, tree)
}

fn disabled(
    rt: &HostRuntime,
    order: &Drawn,
    steps: &[PathStepRow],
    role: Role,
    tree: &mut [TreeLine],
) -> io::Result<()> {
    if !steps.is_empty() && stands(tree) {
        Path { order, steps }.disable(role, tree);
    }
    show(rt, tree)
}

fn worked(rt: &HostRuntime, order: &Drawn) -> io::Result<()> {
    let mut tree = tree_m();
    tell_found(
        rt,
        "7{1}/8{2}",
        order,
        &[step(7, 0b10), step(8, 0b100)],
        &tree,
    )?;
    tell_found(
        rt,
        "7{1}/8{1}",
        order,
        &[step(7, 0b10), step(8, 0b10)],
        &tree,
    )?;
    println!(rt; "enable 1 by 7{{1}}")?;
    enabled(rt, order, &[step(7, 0b10)], 1, &mut tree)?;
    let mut again = tree_m();
    println!(rt; "disable 1 by 7{{1}}")?;
    disabled(rt, order, &[step(7, 0b10)], 1, &mut again)?;
    let mut down = chain();
    println!(rt; "disable 1 by 6{{1}}")?;
    disabled(rt, order, &[step(6, 0b10)], 1, &mut down)
}

// A tree of 12 levels, of one edge each.
fn deep() -> [TreeLine; 12] {
    let mut tree = [branch(1, 5, 0b1); 12];
    for row in 0..12 {
        tree[row].depth = row as u32 + 1;
    }
    tree
}

fn limits(rt: &HostRuntime, order: &Drawn) -> io::Result<()> {
    let one = [branch(1, 5, 0b1)];
    let wide = [branch(1, 5, 0b1); 128];
    let deep = deep();
    let mut deeper = [branch(1, 5, 0b1); 13];
    for row in 0..13 {
        deeper[row].depth = row as u32 + 1;
    }
    let steps = [step(5, 0b1)];
    let eight = [step(5, 0b1); 8];
    tell_found(rt, "no lines", order, &steps, &[])?;
    tell_found(rt, "one line", order, &steps, &one)?;
    tell_found(rt, "128 lines", order, &steps, &wide)?;
    tell_found(rt, "12 levels, eight steps", order, &eight, &deep)?;
    tell_found(rt, "13 levels", order, &steps, &deeper)?;
    tell_found(rt, "another label", order, &[step(6, 0b1)], &one)?;
    tell_found(
        rt,
        "the last",
        order,
        &[step(9, 0b1)],
        &[one[0], branch(1, 9, 0b1)],
    )
}

pub(crate) fn run(rt: &HostRuntime) -> io::Result<()> {
    let order = one_pair();
    worked(rt, &order)?;
    limits(rt, &order)
}
