// The tables of a network. Rows hold numbers; the host may write anything into them.
ghost use Rattle.std.specs.Prelude.{◌≡◌};
ghost use Rattle.layout.specs.Slots.{filling};

use super::held::Table;
use order::RoleSet;
use rows::{
    CommandRow, GrantRow, JobRow, LocationRow, PathStepRow, PatternRow, PolicyRow, TemplateRow,
    TreeLine,
};

// What a slot of a running job holds: the row of the pattern that filled it and 1, or 0 for none; and the value. The host holds
// numbers, and `filling` reads them as an Option.
#[derive(Clone, Copy, Debug, Default, PartialEq, Eq)]
pub struct Slot {
    pub pattern: u32,
    pub value: u32,
}

impl Slot {
    // The row of the pattern that filled it, and the value, if one did.
    pub fn filling(self) -> Option<(usize, u32)>
        ensures answer { result ≡ filling self }
    {
        let row = self.pattern.checked_sub(1)?;
        Some((row as usize, self.value))
    }
}

// A running job: where it is, in which roles, its next command (counted from 1), and its slots.
#[derive(Clone, Copy, Debug, PartialEq, Eq)]
pub struct RunningRow {
    pub location: u32,
    pub roles: RoleSet,
    pub command: u32,
    pub slots: [Slot; 6],
}

// Copied trees: how many lines each has, and all lines one after the other.
#[derive(Clone, Copy, Debug, PartialEq, Eq)]
pub struct Shelf {
    pub trees: Table<usize, 64>,
    pub lines: [TreeLine; 1024],
}

#[derive(Debug, PartialEq, Eq, Drop)]
pub struct Tables {
    pub policies: Table<PolicyRow, 16>,
    pub grants: Table<GrantRow, 64>,
    pub locations: Table<LocationRow, 16>,
    pub steps: Table<PathStepRow, 256>,
    // The edges of each location.
    pub trees: [Table<TreeLine, 128>; 16],
    pub templates: Table<TemplateRow, 256>,
    pub patterns: Table<PatternRow, 64>,
    pub commands: Table<CommandRow, 255>,
    pub jobs: Table<JobRow, 64>,
    pub running: Table<RunningRow, 64>,
    pub shelf: Shelf,
}
