// The shelf: copied trees that lie one after the other.
ghost use Rattle.std.specs.Prelude.{◌≡◌, ℕ, ◌≤◌};
ghost use Rattle.layout.specs.Held.{in_use};
ghost use Rattle.scan.specs.Scan.{carried};
ghost use Rattle.shape.specs.declared.shelves.Shelved.{Shelved};
ghost use Rattle.shape.specs.Place.{shelf_after, shelved_passes, shelf_end, shelf_rest, shelf_fault};

use layout::{Shelf, Table};
use rows::TreeLine;
use scan::{Judged, first_fault};
use standing::Sizes;
use zeros::first_written;

// What a shelved tree may name, and the lines of all of them.
#[derive(Clone, Copy, Debug, PartialEq, Eq)]
pub(crate) struct Shelved<'a> {
    pub(crate) sizes: Sizes,
    pub(crate) lines: &'a [TreeLine; 1024],
}

// Where the next tree begins; nothing lies behind the last line.
fn shelf_after(start: usize, lines: usize) -> usize
    ensures answer { result ≡ shelf_after start lines }
{
    start.saturating_add(lines).min(1024)
}

fn shelved_passes(names: &Sizes, shelved: &[TreeLine; 1024], start: usize, lines: usize) -> bool
    ensures answer { result ≡ shelved_passes names.now shelved.now start lines }
{
    start <= 1024
        && lines <= 1024 - start
        && lines <= 128
        && first_fault(names, &shelved[start..start + lines]).is_none()
}

// A tree of the shelf is kept by how many lines it has; the trees before it say where it begins.
impl<'a> Judged<Shelved<'a>> for usize {
    type Before = usize;

    ghost first = { 0 };

    ghost passes = { λ s start i lines. shelved_passes s.sizes s.lines.now start lines };

    ghost after = { shelf_after };

    fn before_all() -> usize
        ensures answer { result ≡ 0 }
    {
        0
    }

    fn passes(&self, names: &Shelved<'a>, before: &usize, _row: usize) -> bool {
        shelved_passes(&names.sizes, names.lines, *before, *self)
    }

    fn note(&self, before: &mut usize)
        ensures after { before.new ≡ shelf_after before.old self.now }
    {
        *before = shelf_after(*before, *self);
    }
}

// Where the last of the trees ends.
fn shelf_end(trees: &Table<usize, 64>) -> usize
    ensures answer { result ≡ shelf_end trees.now }
{
    trees
        .in_use()
        .iter()
        .fold(0, |start, lines| shelf_after(start, *lines))
}

// Lines past the last tree are told where the next tree would be.
fn shelf_rest(shelf: &Shelf) -> Option<usize>
    ensures answer { result ≡ shelf_rest shelf.now }
{
    let count = shelf.trees.count;
    if 64 < count {
        return Some(64);
    }
    first_written(&shelf.lines, shelf_end(&shelf.trees))
        .map(|_| count)
        .or_else(|| first_written(&shelf.trees.rows, count))
}

pub(crate) fn shelf_fault(names: &Sizes, shelf: &Shelf) -> Option<usize>
    ensures answer { result ≡ shelf_fault names.now shelf.now }
{
    let shelved = Shelved {
        sizes: *names,
        lines: &shelf.lines,
    };
    first_fault(&shelved, shelf.trees.in_use()).or_else(|| shelf_rest(shelf))
}
