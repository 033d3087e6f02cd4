// The rows that the lines of a sheet spell, decoded from their stretches.
#![tactic(auto)]

mod row;

pub use row::{
    CommandRow, EdgeRow, GrantRow, JobRow, LocationRow, Numbered, PathStepRow, PatternRow,
    PolicyRow, TemplateRow, TreeLine, field_at, next_number,
};
