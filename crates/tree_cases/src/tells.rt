// One line for each question, with what the code answers.
use super::standing_lines::stands;
use drawn::Drawn;
use rows::{PathStepRow, TreeLine};
use std::io;
use trees::{Path, count_found};

// A tree, each line by its depth, label, set and content.
pub(crate) fn show(rt: &HostRuntime, tree: &[TreeLine]) -> io::Result<()> {
    for line in tree {
        let TreeLine {
            depth,
            label,
            set,
            content,
            first,
            ..
        } = *line;
        println!(rt; "  depth {depth} label {label} set {set} content {content} {first}")?;
    }
    Ok(())
}

// The rows that the path finds, and how many they are.
pub(crate) fn tell_found(
    rt: &HostRuntime,
    question: &str,
    order: &Drawn,
    steps: &[PathStepRow],
    tree: &[TreeLine],
) -> io::Result<()> {
    if tree.len() > 128 || !stands(tree) {
        return println!(rt; "{question} -> no tree");
    }
    let found = Path { order, steps }.find(tree);
    print!(rt; "{question} -> rows")?;
    for row in 0..tree.len() {
        if found[row] {
            print!(rt; " {row}")?;
        }
    }
    let count = count_found(&found);
    println!(rt; ", {count} found")
}
