// Starts for cases that share one. A number that is written is told by its table, row, field and value; the row 4294967295
// stands for the number of rows in use.
use shape::Stage;

// What every case begins from: a sheet, and what is written over it.
#[derive(Clone, Copy, Debug, PartialEq, Eq)]
pub(crate) struct Start {
    pub(crate) sheet: &'static str,
    pub(crate) pokes: &'static str,
    pub(crate) stage: Stage,
}

// Eight policies, one grant, three locations, four paths (the first of two steps), four edges at location 0 and one at
// location 1, five templates (the first of five lines), seven patterns, the first four one of each kind, twelve commands and
// nine jobs: no two kinds have as many rows. The only role in use is 0.
pub(crate) const BASE: &str = "\
    1 8 0 1 1 | 1 1 0 2 0 0 1 0 | 2 1 1 3 0 | 1 1 0 3 7 | 1 2 0 4 0 0 1 | 1 1 0 4 1 0 1 | \
    2 1 1 4 2 0 1 | 1 1 0 5 0 1 0 1 0 0 0 | 1 1 0 5 0 2 0 1 1 5 0 | 1 1 0 5 0 2 0 1 2 0 0 | \
    1 1 0 5 0 1 0 1 3 0 0 | 1 1 0 5 1 1 0 1 0 0 0 | 1 1 0 6 0 1 0 1 0 0 0 | \
    1 1 0 6 0 2 0 1 1 5 0 | 1 1 0 6 0 2 0 1 2 0 0 | 1 1 0 6 0 2 0 1 3 0 0 | \
    1 1 0 6 0 2 0 1 4 0 0 | 1 1 0 6 1 1 0 1 0 0 0 | 3 1 1 6 2 1 0 1 0 0 0 | 1 1 0 7 1 0 0 0 0 | \
    1 1 0 7 2 1 0 0 0 | 1 1 0 7 3 2 0 1 0 | 1 1 0 7 4 4 0 1 1 | 1 3 0 7 1 0 0 0 0 | \
    1 1 0 8 1 2 0 0 3 0 0 0 | 1 1 0 8 2 0 0 0 1 0 0 0 | 1 1 0 8 3 4 0 0 0 0 0 0 | \
    1 1 0 8 4 5 0 0 0 0 0 0 | 1 1 0 8 5 6 0 0 0 0 0 0 | 1 1 0 8 5 7 0 0 0 1 5 0 | \
    1 1 0 8 5 8 0 0 0 2 0 0 | 1 1 0 8 5 9 0 0 0 3 0 0 | 1 1 0 8 5 10 0 0 0 4 0 0 | \
    1 1 0 8 5 11 0 0 0 5 0 0 | 1 1 0 8 6 12 0 0 0 0 0 0 | 1 1 0 8 7 0 1 0 0 0 0 0 | \
    1 1 0 9 0 1 1 | 1 1 0 9 1 1 12 | 1 7 0 9 1 1 12";

pub(crate) const DRAFT: Start = Start {
    sheet: BASE,
    pokes: "",
    stage: Stage::Draft,
};

// One running job whose slots 0 to 4 the four patterns have filled, and two shelved trees of two lines and one.
pub(crate) const MOVING: &str = "\
    0 4294967295 0 1 | 0 0 1 1 | 0 0 2 1 | 0 0 3 1 | 0 0 4 77 | 0 0 5 2 | 0 0 7 3 | 0 0 9 3 | \
    0 0 11 4 | 255 4294967295 0 2 | 255 4294967295 1 2 | 255 4294967295 2 1 | 255 0 0 1 | \
    255 0 2 1 | 255 1 0 2 | 255 1 2 1 | 255 1 3 1 | 255 1 4 5 | 255 2 0 1 | 255 2 2 1";

pub(crate) const LIVE: Start = Start {
    sheet: BASE,
    pokes: MOVING,
    stage: Stage::Live,
};
