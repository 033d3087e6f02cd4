// Drafts: each of the rules 1 to 11.
use super::bench::{Case, prepare, tell};
use drawn::Drawn;
use layout::Tables;
use rules::{admit, close};
use std::io;

const CASES: [Case; 50] = [
    Case {
        what: "the house",
        pokes: &[],
    },
    Case {
        what: "1: disable role 0, the top",
        pokes: &[(2, 1, 3, 0)],
    },
    Case {
        what: "1: disable role 2",
        pokes: &[(2, 1, 3, 2), (8, 8, 4, 2)],
    },
    Case {
        what: "1: enable role 0",
        pokes: &[(2, 0, 3, 0), (8, 7, 4, 0)],
    },
    Case {
        what: "2: least {1}, an edge {0,3}",
        pokes: &[(5, 1, 2, 9)],
    },
    Case {
        what: "2: least {1}, an edge {0,1,2}",
        pokes: &[(5, 1, 2, 7)],
    },
    Case {
        what: "2: least {3}, an edge {0,1} at the next location",
        pokes: &[(5, 3, 2, 3)],
    },
    Case {
        what: "2: before 3, where an edge breaks both",
        pokes: &[(5, 0, 2, 1), (5, 1, 2, 9)],
    },
    Case {
        what: "3: {0} over {0,2}",
        pokes: &[(5, 0, 2, 1)],
    },
    Case {
        what: "3: {0} over {0}",
        pokes: &[(5, 0, 2, 1), (5, 1, 2, 1), (5, 2, 2, 1)],
    },
    Case {
        what: "4: a script of policy 1 at policy 0",
        pokes: &[(5, 2, 4, 1)],
    },
    Case {
        what: "4: another script of policy 0",
        pokes: &[(5, 2, 4, 2)],
    },
    Case {
        what: "5: least {1}, a job in roles {3}",
        pokes: &[(9, 0, 1, 8)],
    },
    Case {
        what: "5: least {3}, a go in roles {1}",
        pokes: &[(8, 13, 4, 2)],
    },
    Case {
        what: "5: least {3}, a go by a slot in roles {2}",
        pokes: &[(8, 11, 4, 4)],
    },
    Case {
        what: "6: a go by an empty slot",
        pokes: &[(8, 11, 3, 0)],
    },
    Case {
        what: "6: a go by a slot with a path",
        pokes: &[(8, 11, 3, 3)],
    },
    Case {
        what: "6: a run by a slot with a location",
        pokes: &[(8, 12, 3, 2)],
    },
    Case {
        what: "6: a run by a slot that a change filled for its content",
        pokes: &[(8, 10, 2, 1)],
    },
    Case {
        what: "6: a path pasted alone",
        pokes: &[(8, 6, 6, 3)],
    },
    Case {
        what: "6: an empty slot pasted",
        pokes: &[(8, 4, 6, 5)],
    },
    Case {
        what: "6: an empty slot on a line of a template",
        pokes: &[(6, 3, 5, 5)],
    },
    Case {
        what: "6: a number of the change's own pattern pasted",
        pokes: &[(8, 4, 6, 0)],
    },
    Case {
        what: "6: a location pasted, the next slot filled with a number",
        pokes: &[(7, 0, 1, 3)],
    },
    Case {
        what: "7: {0,2} for roles {1}",
        pokes: &[(8, 10, 3, 1)],
    },
    Case {
        what: "7: a slot's path {0,2} for roles {3}",
        pokes: &[(7, 2, 3, 5)],
    },
    Case {
        what: "8: a tree pattern's second set {0,2} for roles {1}",
        pokes: &[(7, 3, 4, 5)],
    },
    Case {
        what: "8: a tree pattern's second set {0} for roles {1}",
        pokes: &[(7, 3, 4, 1)],
    },
    Case {
        what: "8: a tree pattern's second set {1} for roles {1}",
        pokes: &[(7, 3, 4, 2)],
    },
    Case {
        what: "9: a template's line {0,3}, least {1}",
        pokes: &[(6, 1, 3, 9)],
    },
    Case {
        what: "9: {0,2} over {0,1} in a template",
        pokes: &[(6, 0, 3, 5)],
    },
    Case {
        what: "9: a script of policy 1 in a template",
        pokes: &[(6, 2, 5, 1)],
    },
    Case {
        what: "9: a slot with a script of policy 1",
        pokes: &[(7, 1, 2, 1)],
    },
    Case {
        what: "9: a slot with a tree of policy 1",
        pokes: &[(7, 3, 2, 1)],
    },
    Case {
        what: "9: a slot with a tree whose first set is {0,3}",
        pokes: &[(7, 3, 3, 9)],
    },
    Case {
        what: "9: a slot with a tree whose first set is {0}",
        pokes: &[(7, 3, 3, 1)],
    },
    Case {
        what: "9: a path's last set {0,2}, a top line {0,1}",
        pokes: &[(6, 4, 3, 3)],
    },
    Case {
        what: "9: a path's last set {0,2}, a top line {0}",
        pokes: &[(6, 4, 3, 1)],
    },
    Case {
        what: "10: no grant to enable role 3",
        pokes: &[(8, 7, 4, 3)],
    },
    Case {
        what: "10: the grant is to enable, not to disable",
        pokes: &[(2, 1, 1, 0)],
    },
    Case {
        what: "10: the grant is of policy 1",
        pokes: &[(2, 0, 0, 1)],
    },
    Case {
        what: "10: the holders are {1,2}, the roles {1}",
        pokes: &[(2, 0, 2, 6)],
    },
    Case {
        what: "10: the holders are {1}, the roles {1,2}",
        pokes: &[(9, 0, 1, 6)],
    },
    Case {
        what: "10: holders and roles are {1,2}",
        pokes: &[(9, 0, 1, 6), (2, 0, 2, 6), (2, 1, 2, 6)],
    },
    Case {
        what: "11: {0,1}, and role 3 is enabled",
        pokes: &[(2, 0, 3, 3), (8, 7, 4, 3)],
    },
    Case {
        what: "11: {0,1}, and role 1 is enabled",
        pokes: &[(2, 0, 3, 1), (8, 7, 4, 1)],
    },
    Case {
        what: "next is told before a fork's other",
        pokes: &[(8, 10, 3, 1), (8, 11, 4, 4)],
    },
    Case {
        what: "a command is told before what follows it",
        pokes: &[(7, 3, 4, 5), (8, 7, 4, 3)],
    },
    Case {
        what: "grants are told before edges, edges before jobs",
        pokes: &[(2, 1, 3, 0), (5, 1, 2, 9), (9, 0, 1, 8)],
    },
    Case {
        what: "shape is told before the rules",
        pokes: &[(2, 1, 3, 0), (9, 2, 2, 0)],
    },
];

fn judge(rt: &HostRuntime, order: &Drawn, tables: &mut Tables, case: Case) -> io::Result<()> {
    let what = case.what;
    let Ok((draft, written)) = prepare(tables, case) else {
        return println!(rt; "{what} -> not loaded");
    };
    if !written {
        tables::close(draft, tables).spend();
        return println!(rt; "{what} -> not written");
    }
    match admit(draft, tables, order) {
        Ok((live, jobs)) => {
            close(live, tables).spend();
            println!(rt; "{what} -> ok {jobs}")
        }
        Err((draft, fault)) => {
            tables::close(draft, tables).spend();
            tell(rt, what, fault)
        }
    }
}

pub(crate) fn run(rt: &HostRuntime, order: &Drawn, tables: &mut Tables) -> io::Result<()> {
    for case in CASES {
        judge(rt, order, tables, case)?;
    }
    Ok(())
}
