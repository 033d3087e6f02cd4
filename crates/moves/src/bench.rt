// The bench: the house is admitted, a host writes into its tables, and a call is made; then the whole tables are compared with those that
// are wanted.
use super::asking::{Call, answer};
use super::hosts::write;
use super::house::HOUSE;
use super::text::{Case, case_of, numbers_of};
use drawn::Drawn;
use guarantee::admit;
use layout::Tables;
use machine::audit;
use rules::Live;
use std::io;
use tables::{Blank, Draft, load};

// Every case is run on the same tables, one behind the other.
#[derive(Drop)]
pub(crate) struct Bench<'a> {
    pub(crate) rt: &'a HostRuntime,
    pub(crate) order: &'a Drawn,
    pub(crate) tables: &'a mut Tables,
    pub(crate) wanted: &'a mut Tables,
    // Whether all cases came out as they tell.
    pub(crate) as_told: bool,
}

fn loaded(tables: &mut Tables) -> Option<Draft> {
    match load(Blank::new(0), tables, &HOUSE) {
        Ok((draft, _lines)) => Some(draft),
        Err((blank, _fault)) => {
            blank.spend();
            None
        }
    }
}

fn admitted(order: &Drawn, tables: &mut Tables) -> Option<Live> {
    match admit(loaded(tables)?, tables, order) {
        Ok((live, _jobs)) => Some(live),
        Err((draft, _fault)) => {
            tables::close(draft, tables).spend();
            None
        }
    }
}

impl Bench<'_> {
    // The tables that are wanted after the call: those before it, and what it changes.
    fn want(&mut self, start: &str, case: Case<'_>) -> io::Result<bool> {
        let Some(draft) = loaded(self.wanted) else {
            return Ok(false);
        };
        let (_, _) = draft.spend();
        let before = write(self.rt, self.wanted, start)? && write(self.rt, self.wanted, case.host)?;
        Ok(before && write(self.rt, self.wanted, case.left)?)
    }

    // An audit that found nothing before the call finds nothing behind it.
    fn call(&mut self, live: &Live, call: Call, arguments: &str) -> io::Result<String> {
        let sound = audit(live, self.tables, self.order).is_none();
        let arguments = numbers_of(self.rt, arguments)?;
        let answer = answer(
            self.rt,
            live,
            self.tables,
            self.order,
            call,
            arguments.as_slice(),
        )?;
        if sound && audit(live, self.tables, self.order).is_some() {
            return Ok(format!(in self.rt.alloc(); "{answer}, and a rule is broken")?);
        }
        Ok(answer)
    }

    // What is told where something did not come out so.
    pub(crate) fn expect(&mut self, holds: bool, told: &str) -> io::Result<()> {
        if holds {
            return Ok(());
        }
        self.as_told = false;
        println!(self.rt; "  not as told: {told}")
    }

    fn try_case(&mut self, live: &Live, call: Call, start: &str, case: Case<'_>) -> io::Result<()> {
        let wanted = self.want(start, case)?;
        let written = write(self.rt, self.tables, start)?
            && write(self.rt, self.tables, case.host)?;
        let answer = self.call(live, call, case.arguments)?;
        let name = call.name();
        let what = case.what;
        println!(self.rt; "{name}: {what} -> {answer}")?;
        let same = answer.as_str() == case.answer && *self.tables == *self.wanted;
        self.expect(written && wanted && same, case.answer)
    }

    pub(crate) fn admitted(&mut self) -> Option<Live> {
        admitted(self.order, self.tables)
    }

    fn judge(&mut self, call: Call, start: &str, case: Case<'_>) -> io::Result<()> {
        let Some(live) = self.admitted() else {
            return self.expect(false, "an admitted house");
        };
        let judged = self.try_case(&live, call, start, case);
        rules::close(live, self.tables).spend();
        judged
    }

    // The cases of one call that begin from the same tables.
    pub(crate) fn judge_all(&mut self, call: Call, start: &str, cases: &str) -> io::Result<()> {
        for line in cases.lines() {
            self.judge(call, start, case_of(line))?;
        }
        Ok(())
    }

    pub(crate) fn end(&self) -> io::Result<()> {
        if self.as_told {
            println!(self.rt; "all as told")
        } else {
            Err(io::ErrorKind::Other.into())
        }
    }
}
