// Where tables are out of shape.
ghost use Rattle.std.specs.Prelude.{◌≡◌};
ghost use Rattle.shape.specs.Place.{placed, in_draft};

use layout::TableKind;

// A row of a table, from 0: edges count over all locations, the shelf by tree.
#[derive(Clone, Copy, Debug, PartialEq, Eq)]
pub struct Place {
    pub table: TableKind,
    pub row: usize,
}

// A draft has no running jobs and no shelved trees.
#[derive(Clone, Copy, Debug, PartialEq, Eq)]
pub enum Stage {
    Draft,
    Live,
}

pub(crate) fn placed(table: TableKind, row: Option<usize>) -> Option<Place>
    ensures answer { result ≡ placed table row }
{
    row.map(|row| Place { table, row })
}

// In a draft a table that has to be empty is told at its first row.
pub(crate) fn in_draft(stage: Stage, count: usize, fault: Option<usize>) -> Option<usize>
    ensures answer { result ≡ in_draft stage count fault }
{
    match stage {
        Stage::Draft if 0 < count => Some(0),
        _ => fault,
    }
}
