// Writes a row into its table.
ghost use Rattle.std.specs.Prelude.{◌≡◌, ◌<◌, length, is_ok, if◌then◌else◌};
ghost use Rattle.rows.specs.declared.row.EdgeRow.{EdgeRow};
ghost use Rattle.layout.specs.Network.{network, Holds};
ghost use Rattle.filing.specs.declared.decoded.Row.TheVariants.{Edge};
ghost use Rattle.filing.specs.Filing.{has_room, filed};

use super::decoded::Row;
use layout::{NoRoom, Tables};

// Paths and templates are counted from 0; there are at most so many.
const PATHS: u32 = 64;

const TEMPLATES: u32 = 32;

// One row more, unless there is no room. An edge has its location before it.
pub(crate) fn put(tables: &mut Tables, row: Row) -> Result<(), NoRoom>
    requires holds { Holds tables.old (network tables.old) }
    requires stands { (edge : EdgeRow) → row ≡ Edge edge → edge.location < length (network tables.old).plan.locations }
    ensures answer { is_ok result ≡ has_room (network tables.old) row }
    ensures after { Holds tables.new (if is_ok result then filed (network tables.old) row else network tables.old) }
{
    match row {
        Row::Policy(row) => tables.policies.push(row),
        Row::Grant(row) => tables.grants.push(row),
        Row::Location(row) => tables.locations.push(row),
        Row::PathStep(row) if row.path < PATHS => tables.steps.push(row),
        Row::PathStep(_) => Err(NoRoom),
        Row::Edge(row) => tables.trees[row.location as usize].push(row.line),
        Row::TemplateLine(row) if row.template < TEMPLATES => tables.templates.push(row),
        Row::TemplateLine(_) => Err(NoRoom),
        Row::Pattern(row) => tables.patterns.push(row),
        Row::Command(row) => tables.commands.push(row),
        Row::Job(row) => tables.jobs.push(row),
    }
}
