// A read goes on once for each edge that it reads.
ghost use Rattle.std.specs.Prelude.{◌≡◌, ◌<◌, ◌≤◌, [], ◌∷◌, length};
ghost use Rattle.rooms.specs.Rooms.{Aftermath, scratch_of};
ghost use Rattle.edges.specs.Rows.{flagged_rows};
ghost use Rattle.reduction.specs.Effects.{copies, reader, readers};
ghost use Rattle.successors.specs.Successors.{with_copies, FlagsOf};

use layout::RunningRow;
use meaning::Pattern;
use rooms::Scratch;
use rows::TreeLine;
use trees::copy_under;
use values::filled_slots;

// A read by this job, whose next command is `next`, with the pattern of row `filler`.
#[derive(Clone, Copy, Debug)]
pub struct Reading {
    pub job: RunningRow,
    pub next: u32,
    pub pattern: Pattern,
    pub filler: u32,
}

impl Reading {
    // What a tree pattern matched is copied to the shelf.
    fn copy(&self, tree: &[TreeLine], row: usize, scratch: &mut Scratch)
        requires inside { row < length tree.now }
        requires few { length tree.now ≤ 128 }
        ensures after { (a : Aftermath) → scratch.old ≡ scratch_of a → scratch.new ≡ scratch_of (with_copies a [] (copies self.now.pattern tree.now (row ∷ []))) }
    {
        if let Pattern::Tree { .. } = self.pattern {
            scratch.shelve(copy_under(tree, row).in_use());
        }
    }

    // The job at its next command, with what it reads on the line of this row in its slots; a tree gets this number.
    fn reader(&self, tree: &[TreeLine], row: usize, number: u32) -> RunningRow
        requires inside { row < length tree.now }
        requires filler { self.now.filler < 64 }
        ensures answer { result ≡ reader self.now.job self.now.next self.now.pattern self.now.filler tree.now number row }
    {
        let slots = filled_slots(self.pattern, self.filler, tree[row], number, self.job.slots);
        RunningRow {
            command: self.next,
            slots,
            ..self.job
        }
    }

    fn read_edge(&self, tree: &[TreeLine], row: usize, number: u32, scratch: &mut Scratch)
        requires inside { row < length tree.now }
        requires few { length tree.now ≤ 128 }
        requires filler { self.now.filler < 64 }
        ensures after { (a : Aftermath) → scratch.old ≡ scratch_of a → scratch.new ≡ scratch_of (with_copies a (reader self.now.job self.now.next self.now.pattern self.now.filler tree.now number row ∷ []) (copies self.now.pattern tree.now (row ∷ []))) }
    {
        scratch.join(self.reader(tree, row, number));
        self.copy(tree, row, scratch);
    }

    // The job goes on once for each flagged line, in tree order, and copied trees are numbered on from `first`.
    pub fn read_edges(
        &self,
        tree: &[TreeLine],
        flags: &[bool; 128],
        first: u32,
        scratch: &mut Scratch,
    )
        requires few { length tree.now ≤ 128 }
        requires flags { FlagsOf tree.now flags.now }
        requires filler { self.now.filler < 64 }
        requires first { first ≤ 64 }
        ensures after { (a : Aftermath) → scratch.old ≡ scratch_of a → scratch.new ≡ scratch_of (with_copies a (readers self.now.job self.now.next self.now.pattern self.now.filler tree.now first (flagged_rows flags.now)) (copies self.now.pattern tree.now (flagged_rows flags.now))) }
    {
        let mut number = first;
        for row in 0..tree.len() {
            if flags[row] {
                self.read_edge(tree, row, number, scratch);
                number += 1;
            }
        }
    }
}
