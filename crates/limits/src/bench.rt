// The bench: tables that a sheet fills, changed by hand, as a host can, and then judged; and the system, which prints.
use super::sheets::{numbers_of, parts, written};
use super::starts::Start;
use layout::Tables;
use order::Order;
use poke::{Poke, poke};
use shape::{Stage, shape};
use std::io;
use tables::{Blank, LoadFault, load};

// Every case is run on the same tables, one behind the other.
#[derive(Drop)]
pub(crate) struct Bench<'a> {
    pub(crate) rt: &'a HostRuntime,
    pub(crate) tables: &'a mut Tables,
}

fn narrow(number: u64) -> u32 {
    (number % 0x1_0000_0000) as u32
}

impl Bench<'_> {
    // A refused sheet leaves the tables blank.
    pub(crate) fn fill(&mut self, sheet: &[u8]) -> Result<(), LoadFault> {
        match load(Blank::new(0), self.tables, sheet) {
            Ok((draft, _)) => {
                let (_, _) = draft.spend();
                Ok(())
            }
            Err((blank, fault)) => {
                blank.spend();
                Err(fault)
            }
        }
    }

    // Whether the number was written; no number is.
    fn write_one(&mut self, text: &str) -> io::Result<bool> {
        let numbers = numbers_of(self.rt, text)?;
        let [table, row, field, value] = numbers.as_slice() else {
            return Ok(numbers.is_empty());
        };
        let change = Poke {
            table: narrow(*table),
            row: narrow(*row),
            field: narrow(*field),
            value: *value,
        };
        Ok(poke(self.tables, change).is_ok())
    }

    // Whether all of the numbers were written.
    pub(crate) fn write(&mut self, pokes: &str) -> io::Result<bool> {
        let mut all = true;
        for text in pokes.split('|') {
            all = self.write_one(text)? && all;
        }
        Ok(all)
    }

    // Where the tables have no shape.
    pub(crate) fn tell_place<O: Order>(&self, what: &str, stage: Stage) -> io::Result<()> {
        match shape::<O>(self.tables, stage) {
            Some(place) => {
                let table = u32::from(place.table);
                let row = place.row;
                println!(self.rt; "{what} -> table {table} row {row}")
            }
            None => println!(self.rt; "{what} -> none"),
        }
    }

    // What the case writes into the tables that were filled for it, and the place.
    pub(crate) fn judge<O: Order>(
        &mut self,
        filled: bool,
        stage: Stage,
        case: &str,
    ) -> io::Result<()> {
        let (what, pokes) = parts(case);
        if self.write(pokes)? && filled {
            self.tell_place::<O>(what, stage)
        } else {
            println!(self.rt; "{what} -> not written")
        }
    }

    pub(crate) fn judge_all<O: Order>(&mut self, start: Start, cases: &str) -> io::Result<()> {
        let sheet = written(self.rt, start.sheet)?;
        for case in cases.lines() {
            let filled = self.fill(sheet.as_slice()).is_ok() && self.write(start.pokes)?;
            self.judge::<O>(filled, start.stage, case)?;
        }
        Ok(())
    }
}
