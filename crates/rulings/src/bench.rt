// Tables that hold the house, changed by hand as a host can.
use super::house::HOUSE;
use layout::Tables;
use poke::{Poke, poke};
use rules::Fault;
use std::io;
use tables::{Blank, Draft, LoadFault, load};

// What a case is called, and the numbers that are written over: table, row, field, value.
#[derive(Clone, Copy)]
pub(crate) struct Case {
    pub(crate) what: &'static str,
    pub(crate) pokes: &'static [(u32, u32, u32, u64)],
}

// The house is loaded, and the case written over it; also whether all of it was written.
pub(crate) fn prepare(tables: &mut Tables, case: Case) -> Result<(Draft, bool), LoadFault> {
    let draft = match load(Blank::new(0), tables, &HOUSE) {
        Ok((draft, _lines)) => draft,
        Err((blank, fault)) => {
            blank.spend();
            return Err(fault);
        }
    };
    let mut all = true;
    for &(table, row, field, value) in case.pokes {
        let change = Poke {
            table,
            row,
            field,
            value,
        };
        all = poke(tables, change).is_ok() && all;
    }
    Ok((draft, all))
}

pub(crate) fn tell(rt: &HostRuntime, what: &str, fault: Fault) -> io::Result<()> {
    let number = fault.number();
    println!(rt; "{what} -> {number}: {fault}")
}
