// Live networks: running jobs, and rule 12.
use super::bench::{Case, prepare, tell};
use drawn::Drawn;
use layout::Tables;
use rules::live_fault;
use std::io;

const CASES: [Case; 17] = [
    Case {
        what: "no running job",
        pokes: &[],
    },
    Case {
        what: "5: a running job in roles {3}",
        pokes: &[
            (0, 4294967295, 0, 1),
            (0, 0, 1, 2),
            (0, 0, 2, 4),
            (0, 0, 1, 8),
        ],
    },
    Case {
        what: "6: a running job at a run by an empty slot",
        pokes: &[
            (0, 4294967295, 0, 1),
            (0, 0, 1, 2),
            (0, 0, 2, 4),
            (0, 0, 2, 13),
        ],
    },
    Case {
        what: "12: a running job with empty slots, at a fork",
        pokes: &[
            (0, 4294967295, 0, 1),
            (0, 0, 1, 2),
            (0, 0, 2, 4),
            (0, 0, 2, 11),
        ],
    },
    Case {
        what: "12: a script of policy 0",
        pokes: &[
            (0, 4294967295, 0, 1),
            (0, 0, 1, 2),
            (0, 0, 2, 4),
            (0, 0, 2, 11),
            (0, 0, 5, 2),
            (0, 0, 6, 0),
        ],
    },
    Case {
        what: "12: a script of policy 1",
        pokes: &[
            (0, 4294967295, 0, 1),
            (0, 0, 1, 2),
            (0, 0, 2, 4),
            (0, 0, 2, 11),
            (0, 0, 5, 2),
            (0, 0, 6, 1),
        ],
    },
    Case {
        what: "12: a location of policy 1, and a path with last set {0,3}",
        pokes: &[
            (0, 4294967295, 0, 1),
            (0, 0, 1, 2),
            (0, 0, 2, 4),
            (0, 0, 2, 11),
            (0, 0, 7, 3),
            (0, 0, 8, 1),
            (0, 0, 9, 3),
            (0, 0, 10, 2),
        ],
    },
    Case {
        what: "12: a location of policy 0",
        pokes: &[
            (0, 4294967295, 0, 1),
            (0, 0, 1, 2),
            (0, 0, 2, 4),
            (0, 0, 2, 11),
            (0, 0, 7, 3),
            (0, 0, 8, 0),
            (0, 0, 9, 3),
            (0, 0, 10, 2),
        ],
    },
    Case {
        what: "12: a path with last set {0,1}",
        pokes: &[
            (0, 4294967295, 0, 1),
            (0, 0, 1, 2),
            (0, 0, 2, 4),
            (0, 0, 2, 11),
            (0, 0, 7, 3),
            (0, 0, 8, 1),
            (0, 0, 9, 3),
            (0, 0, 10, 0),
        ],
    },
    Case {
        what: "12: any number",
        pokes: &[
            (0, 4294967295, 0, 1),
            (0, 0, 1, 2),
            (0, 0, 2, 4),
            (0, 0, 2, 11),
            (0, 0, 3, 1),
            (0, 0, 4, 1900),
        ],
    },
    Case {
        what: "12: a shelved edge {0,1}",
        pokes: &[
            (0, 4294967295, 0, 1),
            (0, 0, 1, 2),
            (0, 0, 2, 4),
            (255, 4294967295, 0, 1),
            (255, 4294967295, 1, 1),
            (255, 0, 0, 1),
            (255, 0, 2, 3),
            (0, 0, 2, 11),
            (0, 0, 11, 4),
            (0, 0, 12, 0),
        ],
    },
    Case {
        what: "12: a shelved edge {0}, which the second set {0,1} holds",
        pokes: &[
            (0, 4294967295, 0, 1),
            (0, 0, 1, 2),
            (0, 0, 2, 4),
            (255, 4294967295, 0, 1),
            (255, 4294967295, 1, 1),
            (255, 0, 0, 1),
            (255, 0, 2, 3),
            (255, 0, 2, 1),
            (0, 0, 2, 11),
            (0, 0, 11, 4),
            (0, 0, 12, 0),
        ],
    },
    Case {
        what: "12: a shelved edge {0,2}, which is not in the first set {0,1}",
        pokes: &[
            (0, 4294967295, 0, 1),
            (0, 0, 1, 2),
            (0, 0, 2, 4),
            (255, 4294967295, 0, 1),
            (255, 4294967295, 1, 1),
            (255, 0, 0, 1),
            (255, 0, 2, 3),
            (255, 0, 2, 5),
            (0, 0, 2, 11),
            (0, 0, 11, 4),
            (0, 0, 12, 0),
        ],
    },
    Case {
        what: "12: the empty tree",
        pokes: &[
            (0, 4294967295, 0, 1),
            (0, 0, 1, 2),
            (0, 0, 2, 4),
            (255, 4294967295, 0, 1),
            (0, 0, 2, 11),
            (0, 0, 11, 4),
            (0, 0, 12, 0),
        ],
    },
    Case {
        what: "7: told before 12 of the same job",
        pokes: &[
            (0, 4294967295, 0, 1),
            (0, 0, 1, 2),
            (0, 0, 2, 4),
            (0, 0, 2, 15),
            (0, 0, 5, 2),
            (0, 0, 6, 1),
        ],
    },
    Case {
        what: "shape is told before a running job",
        pokes: &[
            (0, 4294967295, 0, 1),
            (0, 0, 1, 2),
            (0, 0, 2, 4),
            (0, 0, 1, 8),
            (0, 0, 2, 99),
        ],
    },
    Case {
        what: "the rules of jobs are told before running jobs",
        pokes: &[
            (0, 4294967295, 0, 1),
            (0, 0, 1, 2),
            (0, 0, 2, 4),
            (9, 0, 1, 8),
            (0, 0, 1, 8),
        ],
    },
];

fn judge(rt: &HostRuntime, order: &Drawn, tables: &mut Tables, case: Case) -> io::Result<()> {
    let what = case.what;
    let Ok((draft, written)) = prepare(tables, case) else {
        return println!(rt; "{what} -> not loaded");
    };
    if !written {
        tables::close(draft, tables).spend();
        return println!(rt; "{what} -> not written");
    }
    let fault = live_fault(order, tables);
    tables::close(draft, tables).spend();
    match fault {
        Some(fault) => tell(rt, what, fault),
        None => println!(rt; "{what} -> none"),
    }
}

pub(crate) fn run(rt: &HostRuntime, order: &Drawn, tables: &mut Tables) -> io::Result<()> {
    for case in CASES {
        judge(rt, order, tables, case)?;
    }
    Ok(())
}
