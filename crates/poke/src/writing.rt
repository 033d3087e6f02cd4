// One number of the tables is written over.
ghost use Rattle.std.specs.Prelude.{◌≡◌, OnErr};
ghost use Rattle.poke.specs.Poking.{poked};

use super::edges::poke_edges;
use super::poking::Poke;
use super::shelved::poke_shelf;
use super::table::poke_table;
use super::wrong::Wrong;
use layout::{TableKind, Tables};
use sheet::LineKind;

// Writes the number, or tells the first of its numbers that is wrong.
#[tactic(auto, using(layout::proofs::Numbers::tables_numbered))]
pub fn poke(tables: &mut Tables, poke: Poke) -> Result<(), Wrong>
    ensures answer { result ≡ (poked tables.old poke.table poke.row poke.field poke.value).0 }
    ensures after { tables.new ≡ (poked tables.old poke.table poke.row poke.field poke.value).1 }
    ensures same { OnErr result (tables.new ≡ tables.old) }
{
    match TableKind::try_from(poke.table)? {
        TableKind::Running => poke_table(&mut tables.running, poke),
        TableKind::Lines(LineKind::Policy) => poke_table(&mut tables.policies, poke),
        TableKind::Lines(LineKind::Grant) => poke_table(&mut tables.grants, poke),
        TableKind::Lines(LineKind::Location) => poke_table(&mut tables.locations, poke),
        TableKind::Lines(LineKind::PathStep) => poke_table(&mut tables.steps, poke),
        TableKind::Lines(LineKind::Edge) => poke_edges(tables, poke),
        TableKind::Lines(LineKind::TemplateLine) => poke_table(&mut tables.templates, poke),
        TableKind::Lines(LineKind::Pattern) => poke_table(&mut tables.patterns, poke),
        TableKind::Lines(LineKind::Command) => poke_table(&mut tables.commands, poke),
        TableKind::Lines(LineKind::Job) => poke_table(&mut tables.jobs, poke),
        TableKind::Shelf => poke_shelf(&mut tables.shelf, poke),
    }
}
