// Writes the tables, line by line.
ghost use Rattle.std.specs.Prelude.{◌≡◌, ◌++◌, ◌∷◌, [], IfOk, OnOk, map};
ghost use Rattle.sheet.specs.Kinds.{code_of};
ghost use Rattle.layout.specs.Held.{in_use};
ghost use Rattle.layout.specs.Network.{network};
ghost use Rattle.dump.specs.Dumping.{texts, numbered, table_lines, edges_from, lines_before, lines_behind, shelf_line, shelved_line, shelf_lines, lines_last, dump_lines};
ghost use Rattle.dump.specs.Listed.{edge_fields};

use super::lines::{InRunning, InTable, InTree, Place};
use super::listed::Fields;
use layout::{Shelf, Table, Tables};
use rows::{EdgeRow, TreeLine};
use sheet::LineKind;
use std::alloc::{AllocError, Global};

// The edges of all locations, each with its location.
fn edges_of(heap: Global, trees: &[Table<TreeLine, 128>; 16]) -> Result<Vec<EdgeRow>, AllocError>
    ensures answer { IfOk result (λ edges. edges.items ≡ edges_from 0 (map in_use trees.now)) }
{
    let mut edges = Vec::new(heap);
    for (location, tree) in trees.iter().enumerate() {
        for line in tree.in_use() {
            edges.push(EdgeRow {
                location: location as u32,
                line: *line,
            })?;
        }
    }
    Ok(edges)
}

// What is written so far.
#[derive(Drop)]
struct Written {
    heap: Global,
    lines: Vec<String>,
}

impl Written {
    fn rows<R: Copy, P: Place<R>>(&mut self, place: P, rows: &[R]) -> Result<(), AllocError>
        ensures lines { OnOk result (texts self.new.lines ≡ texts self.old.lines ++ numbered (P.text place) 0 rows.now) }
    {
        for (number, row) in rows.iter().enumerate() {
            let line = place.line(self.heap, number, *row)?;
            self.lines.push(line)?;
        }
        Ok(())
    }

    fn table<R: Fields>(&mut self, kind: LineKind, rows: &[R]) -> Result<(), AllocError>
        ensures lines { OnOk result (texts self.new.lines ≡ texts self.old.lines ++ table_lines R.listed (code_of kind) rows.now) }
    {
        self.rows(InTable(kind), rows)
    }

    // The tables whose kinds come before that of the edges.
    fn before_edges(&mut self, tables: &Tables) -> Result<(), AllocError>
        ensures lines { OnOk result (texts self.new.lines ≡ texts self.old.lines ++ lines_before (network tables.now).plan) }
    {
        self.table(LineKind::Policy, tables.policies.in_use())?;
        self.table(LineKind::Grant, tables.grants.in_use())?;
        self.table(LineKind::Location, tables.locations.in_use())?;
        self.table(LineKind::PathStep, tables.steps.in_use())
    }

    fn edges(&mut self, trees: &[Table<TreeLine, 128>; 16]) -> Result<(), AllocError>
        ensures lines { OnOk result (texts self.new.lines ≡ texts self.old.lines ++ table_lines edge_fields 5 (edges_from 0 (map in_use trees.now))) }
    {
        let edges = edges_of(self.heap, trees)?;
        self.table(LineKind::Edge, edges.as_slice())
    }

    fn behind_edges(&mut self, tables: &Tables) -> Result<(), AllocError>
        ensures lines { OnOk result (texts self.new.lines ≡ texts self.old.lines ++ lines_behind (network tables.now).plan) }
    {
        self.table(LineKind::TemplateLine, tables.templates.in_use())?;
        self.table(LineKind::Pattern, tables.patterns.in_use())?;
        self.table(LineKind::Command, tables.commands.in_use())?;
        self.table(LineKind::Job, tables.jobs.in_use())
    }

    // A shelved tree: its length, as the shelf has it, and its lines.
    fn tree(&mut self, tree: usize, length: usize, lines: &[TreeLine]) -> Result<(), AllocError>
        ensures lines { OnOk result (texts self.new.lines ≡ texts self.old.lines ++ (shelf_line tree length ∷ numbered (shelved_line tree) 0 lines.now)) }
    {
        let line = format!(in self.heap; "shelf {tree}: {length}")?;
        self.lines.push(line)?;
        self.rows(InTree(tree), lines)
    }

    // The trees stand one behind the other; a length that passes the array counts as all that is left of it.
    fn shelf(&mut self, shelf: &Shelf) -> Result<(), AllocError>
        ensures lines { OnOk result (texts self.new.lines ≡ texts self.old.lines ++ shelf_lines 0 (in_use shelf.now.trees) shelf.now.lines) }
    {
        let mut lines = shelf.lines.as_slice();
        for (tree, length) in shelf.trees.in_use().iter().enumerate() {
            let (these, more) = lines.split_at(lines.len().min(*length));
            self.tree(tree, *length, these)?;
            lines = more;
        }
        Ok(())
    }

    // What comes behind the tables of the sheet.
    fn behind_tables(&mut self, tables: &Tables) -> Result<(), AllocError>
        ensures lines { OnOk result (texts self.new.lines ≡ texts self.old.lines ++ lines_last tables.now) }
    {
        self.rows(InRunning, tables.running.in_use())?;
        self.shelf(&tables.shelf)?;
        let end = format!(in self.heap; "end")?;
        self.lines.push(end)?;
        Ok(())
    }
}

// All lines of the dump. Want of memory is the only error.
pub fn dump(heap: Global, tables: &Tables) -> Result<Vec<String>, AllocError>
    ensures answer { IfOk result (λ lines. texts lines ≡ dump_lines tables.now) }
{
    let mut written = Written {
        heap,
        lines: Vec::new(heap),
    };
    written.before_edges(tables)?;
    written.edges(&tables.trees)?;
    written.behind_edges(tables)?;
    written.behind_tables(tables)?;
    Ok(written.lines)
}
