// The lines of a small house, as they are printed.
use super::dump;
use layout::{RunningRow, Tables, blank};
use rows::{GrantRow, PolicyRow, TreeLine};
use std::test::Fail;

const EDGE: TreeLine = TreeLine {
    depth: 1,
    label: 7,
    set: 3,
    content: 1,
    first: 1900,
    second: 0,
};

// One policy, one grant, an edge at each of two locations, a job that runs there, and a shelved tree of one line.
fn house() -> Tables {
    let mut tables = blank();
    tables.policies.rows[0] = PolicyRow { least: 5 };
    tables.policies.count = 1;
    tables.grants.rows[0] = GrantRow {
        policy: 0,
        direction: 1,
        holder: 3,
        role: 4,
    };
    tables.grants.count = 1;
    tables.trees[0].rows[0] = EDGE;
    tables.trees[0].count = 1;
    tables.trees[2].rows[0] = EDGE;
    tables.trees[2].count = 1;
    tables.running.rows[0] = RunningRow {
        location: 0,
        roles: 1,
        command: 9,
        ..RunningRow::default()
    };
    tables.running.rows[0].slots[2].pattern = 4;
    tables.running.rows[0].slots[2].value = 77;
    tables.running.count = 1;
    tables.shelf.trees.rows[0] = 1;
    tables.shelf.trees.count = 1;
    tables.shelf.lines[0] = EDGE;
    tables
}

const LINES: [&str; 8] = [
    "table 1 row 0: {0,2}",
    "table 2 row 0: 0 1 {0,1} 4",
    "table 5 row 0: 0 1 7 {0,1} 1 1900 0",
    "table 5 row 1: 2 1 7 {0,1} 1 1900 0",
    "running 0: 0 {0} 9 slot 2 pattern 3 value 77",
    "shelf 0: 1",
    "shelf 0 line 0: 1 7 {0,1} 1 1900 0",
    "end",
];

#[test]
fn each_line_is_written(rt: HostRuntime) -> Result<(), Fail> {
    let lines = dump(rt.alloc(), &house())?;
    assert_eq!(rt; lines.len(), LINES.len());
    for (line, wanted) in lines.iter().zip(LINES) {
        assert_eq!(rt; line.as_str(), wanted);
    }
    Ok(())
}
