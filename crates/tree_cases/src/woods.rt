// Trees, paths and orders to run on.
use drawn::Drawn;
use order::RoleSet;
use rows::{PathStepRow, TreeLine};

// The order drawn from the pair (1, 2) alone.
pub(crate) fn one_pair() -> Drawn {
    let mut order = Drawn::fresh();
    let _ = order.draw(&[(1, 2)]);
    order
}

pub(crate) const fn branch(depth: u32, label: u32, set: RoleSet) -> TreeLine {
    TreeLine {
        depth,
        label,
        set,
        content: 0,
        first: 0,
        second: 0,
    }
}

pub(crate) const fn number(depth: u32, label: u32, set: RoleSet, first: u32) -> TreeLine {
    TreeLine {
        depth,
        label,
        set,
        content: 1,
        first,
        second: 0,
    }
}

pub(crate) const fn step(label: u32, set: RoleSet) -> PathStepRow {
    PathStepRow {
        path: 0,
        label,
        set,
    }
}
