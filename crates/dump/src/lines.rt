// How one row is written as a line.
ghost use Rattle.std.specs.Prelude.{◌≡◌, ℕ, List, Some, IfOk, string_bytes};
ghost use Rattle.sheet.specs.Kinds.{code_of};
ghost use Rattle.dump.specs.Dumping.{row_line, slot_text, slots_text, running_line, shelved_line};

use super::field::FieldTexts;
use super::listed::Fields;
use layout::{RunningRow, Slot};
use rows::TreeLine;
use sheet::LineKind;
use std::alloc::{AllocError, Global};
use std::fmt;

// Where rows of one type stand, which tells how each is written.
pub(crate) trait Place<R>: Copy {
    ghost text: { Self → ℕ → R → List ℕ };

    fn line(self, heap: Global, number: usize, row: R) -> Result<String, AllocError>
        ensures answer { IfOk result (λ s. string_bytes s ≡ text self number row) };
}

// A table, told by its kind of lines.
#[derive(Clone, Copy)]
pub(crate) struct InTable(pub(crate) LineKind);

impl<R: Fields> Place<R> for InTable {
    ghost text = { λ table number row. row_line R.listed (code_of table.0) number row };

    fn line(self, heap: Global, number: usize, row: R) -> Result<String, AllocError> {
        let table = u32::from(self.0);
        let fields = row.fields(heap)?;
        format!(in heap;
            "table {table} row {number}:{}",
            FieldTexts(fields.as_slice())
        )
    }
}

// A slot by its number, if it is filled.
#[derive(Clone, Copy, Debug)]
struct SlotText {
    number: usize,
    slot: Slot,
}

impl fmt::Display for SlotText {
    ghost output = { λ s. Some (slot_text s.number s.slot) };

    fn fmt<W: fmt::Write>(&self, f: &mut fmt::Formatter<W>) -> fmt::Result {
        let Some((row, value)) = self.slot.filling() else {
            return Ok(());
        };
        write!(f, " slot {} pattern {row} value {value}", self.number)
    }
}

// The filled slots of a running job.
#[derive(Clone, Copy, Debug)]
struct SlotTexts<'a>(&'a [Slot]);

impl fmt::Display for SlotTexts<'_> {
    ghost output = { λ slots. Some (slots_text 0 slots.0.now) };

    fn fmt<W: fmt::Write>(&self, f: &mut fmt::Formatter<W>) -> fmt::Result {
        for (number, slot) in self.0.iter().enumerate() {
            let text = SlotText {
                number,
                slot: *slot,
            };
            write!(f, "{text}")?;
        }
        Ok(())
    }
}

// The list of running jobs.
#[derive(Clone, Copy)]
pub(crate) struct InRunning;

impl Place<RunningRow> for InRunning {
    ghost text = { λ _ number row. running_line number row };

    fn line(self, heap: Global, number: usize, row: RunningRow) -> Result<String, AllocError> {
        let fields = row.fields(heap)?;
        format!(in heap;
            "running {number}:{}{}",
            FieldTexts(fields.as_slice()),
            SlotTexts(&row.slots)
        )
    }
}

// A tree of the shelf, by its number.
#[derive(Clone, Copy)]
pub(crate) struct InTree(pub(crate) usize);

impl Place<TreeLine> for InTree {
    ghost text = { λ tree number row. shelved_line tree.0 number row };

    fn line(self, heap: Global, number: usize, row: TreeLine) -> Result<String, AllocError> {
        let fields = row.fields(heap)?;
        format!(in heap;
            "shelf {} line {number}:{}",
            self.0,
            FieldTexts(fields.as_slice())
        )
    }
}
