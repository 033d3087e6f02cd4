// The calls, by their arguments as numbers, and their answers as text.
use super::text::narrow;
use drawn::Drawn;
use layout::Tables;
use machine::{Denial, FaultRecord, audit, post, recall, show, step};
use rows::TreeLine;
use rules::Live;
use std::io;

#[derive(Clone, Copy, Debug, PartialEq, Eq)]
pub(crate) enum Call {
    Post,
    Step,
    Recall,
    Show,
    Audit,
}

impl Call {
    pub(crate) fn name(self) -> &'static str {
        match self {
            Call::Post => "post",
            Call::Step => "step",
            Call::Recall => "recall",
            Call::Show => "show",
            Call::Audit => "audit",
        }
    }
}

fn numbered(rt: &HostRuntime, answer: Result<usize, Denial>) -> io::Result<String> {
    match answer {
        Ok(number) => Ok(format!(in rt.alloc(); "ok {number}")?),
        Err(denial) => {
            let number = denial.number();
            Ok(format!(in rt.alloc(); "{number}: {denial}")?)
        }
    }
}

fn edge(rt: &HostRuntime, line: Option<TreeLine>) -> io::Result<String> {
    let Some(line) = line else {
        return Ok(format!(in rt.alloc(); "nothing")?);
    };
    let TreeLine {
        depth,
        label,
        set,
        content,
        first,
        second,
    } = line;
    Ok(format!(in rt.alloc(); "{depth} {label} {set} {content} {first} {second}")?)
}

// A breach of shape is told as rule 0.
fn found(rt: &HostRuntime, fault: Option<FaultRecord>) -> io::Result<String> {
    match fault {
        Some(FaultRecord { table, row, rule }) => {
            let table = u32::from(table);
            let rule = rule.map_or(0, |rule| rule.number());
            Ok(format!(in rt.alloc(); "table {table} row {row} rule {rule}")?)
        }
        None => Ok(format!(in rt.alloc(); "nothing")?),
    }
}

// No call has other arguments.
pub(crate) fn answer(
    rt: &HostRuntime,
    live: &Live,
    tables: &mut Tables,
    order: &Drawn,
    call: Call,
    arguments: &[u64],
) -> io::Result<String> {
    match (call, arguments) {
        (Call::Post, [location, job]) => numbered(
            rt,
            post(live, tables, order, narrow(*location), narrow(*job)),
        ),
        (Call::Step, [position]) => numbered(rt, step(live, tables, order, *position as usize)),
        (Call::Recall, [position]) => {
            let answer = recall(live, tables, order, *position as usize);
            numbered(rt, answer.map(|()| 0))
        }
        (Call::Show, [location, row, roles]) => edge(
            rt,
            show(
                live,
                tables,
                order,
                *location as usize,
                *row as usize,
                *roles,
            ),
        ),
        (Call::Audit, []) => found(rt, audit(live, tables, order)),
        _ => Ok(format!(in rt.alloc(); "no call")?),
    }
}
