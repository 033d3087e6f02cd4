// One number of a row is written over.
#![tactic(auto, unfolding(crate::specs::Cells::narrowed))]

ghost use Rattle.std.specs.Prelude.{◌≡◌, ℕ, Result};
ghost use Rattle.poke.specs.declared.wrong.Wrong.{Wrong};
ghost use Rattle.poke.specs.Cells.{policy_with, grant_with, location_with, step_with, line_with, template_with, pattern_with, command_with, job_with, slot_with, slots_with, running_with};

use super::wrong::Wrong;
use layout::{RunningRow, Slot};
use rows::{
    CommandRow, GrantRow, JobRow, LocationRow, PathStepRow, PatternRow, PolicyRow, TemplateRow,
    TreeLine,
};

// A row whose numbers are counted from 0, and can be written over one by one. Rows differ in each number's name and width, so
// each has a method of its own.
pub(crate) trait Cells: Copy {
    ghost written: { Self → ℕ → ℕ → Result Self Wrong };

    fn with_field(self, field: u32, value: u64) -> Result<Self, Wrong>
        ensures answer { result ≡ written self field value };
}

impl Cells for PolicyRow {
    ghost written = { policy_with };

    fn with_field(self, field: u32, value: u64) -> Result<PolicyRow, Wrong> {
        match field {
            0 => Ok(PolicyRow { least: value }),
            _ => Err(Wrong::Field),
        }
    }
}

impl Cells for GrantRow {
    ghost written = { grant_with };

    fn with_field(self, field: u32, value: u64) -> Result<GrantRow, Wrong> {
        match field {
            0 => Ok(GrantRow {
                policy: u32::try_from(value)?,
                ..self
            }),
            1 => Ok(GrantRow {
                direction: u32::try_from(value)?,
                ..self
            }),
            2 => Ok(GrantRow {
                holder: value,
                ..self
            }),
            3 => Ok(GrantRow {
                role: u32::try_from(value)?,
                ..self
            }),
            _ => Err(Wrong::Field),
        }
    }
}

impl Cells for LocationRow {
    ghost written = { location_with };

    fn with_field(self, field: u32, value: u64) -> Result<LocationRow, Wrong> {
        match field {
            0 => Ok(LocationRow {
                policy: u32::try_from(value)?,
            }),
            _ => Err(Wrong::Field),
        }
    }
}

impl Cells for PathStepRow {
    ghost written = { step_with };

    fn with_field(self, field: u32, value: u64) -> Result<PathStepRow, Wrong> {
        match field {
            0 => Ok(PathStepRow {
                path: u32::try_from(value)?,
                ..self
            }),
            1 => Ok(PathStepRow {
                label: u32::try_from(value)?,
                ..self
            }),
            2 => Ok(PathStepRow { set: value, ..self }),
            _ => Err(Wrong::Field),
        }
    }
}

impl Cells for TreeLine {
    ghost written = { line_with };

    fn with_field(self, field: u32, value: u64) -> Result<TreeLine, Wrong> {
        match field {
            0 => Ok(TreeLine {
                depth: u32::try_from(value)?,
                ..self
            }),
            1 => Ok(TreeLine {
                label: u32::try_from(value)?,
                ..self
            }),
            2 => Ok(TreeLine { set: value, ..self }),
            3 => Ok(TreeLine {
                content: u32::try_from(value)?,
                ..self
            }),
            4 => Ok(TreeLine {
                first: u32::try_from(value)?,
                ..self
            }),
            5 => Ok(TreeLine {
                second: u32::try_from(value)?,
                ..self
            }),
            _ => Err(Wrong::Field),
        }
    }
}

impl Cells for TemplateRow {
    ghost written = { template_with };

    fn with_field(self, field: u32, value: u64) -> Result<TemplateRow, Wrong> {
        if field == 0 {
            let template = u32::try_from(value)?;
            return Ok(TemplateRow { template, ..self });
        }
        let line = self.line.with_field(field - 1, value)?;
        Ok(TemplateRow { line, ..self })
    }
}

impl Cells for PatternRow {
    ghost written = { pattern_with };

    fn with_field(self, field: u32, value: u64) -> Result<PatternRow, Wrong> {
        match field {
            0 => Ok(PatternRow {
                kind: u32::try_from(value)?,
                ..self
            }),
            1 => Ok(PatternRow {
                slot: u32::try_from(value)?,
                ..self
            }),
            2 => Ok(PatternRow {
                policy: u32::try_from(value)?,
                ..self
            }),
            3 => Ok(PatternRow {
                first: value,
                ..self
            }),
            4 => Ok(PatternRow {
                second: value,
                ..self
            }),
            _ => Err(Wrong::Field),
        }
    }
}

impl Cells for CommandRow {
    ghost written = { command_with };

    fn with_field(self, field: u32, value: u64) -> Result<CommandRow, Wrong> {
        match field {
            0 => Ok(CommandRow {
                verb: u32::try_from(value)?,
                ..self
            }),
            1 => Ok(CommandRow {
                next: u32::try_from(value)?,
                ..self
            }),
            2 => Ok(CommandRow {
                operand_kind: u32::try_from(value)?,
                ..self
            }),
            3 => Ok(CommandRow {
                operand: u32::try_from(value)?,
                ..self
            }),
            4 => Ok(CommandRow {
                first: value,
                ..self
            }),
            5 => Ok(CommandRow {
                second: u32::try_from(value)?,
                ..self
            }),
            6 => Ok(CommandRow {
                third: u32::try_from(value)?,
                ..self
            }),
            7 => Ok(CommandRow {
                fourth: u32::try_from(value)?,
                ..self
            }),
            _ => Err(Wrong::Field),
        }
    }
}

impl Cells for JobRow {
    ghost written = { job_with };

    fn with_field(self, field: u32, value: u64) -> Result<JobRow, Wrong> {
        match field {
            0 => Ok(JobRow {
                policy: u32::try_from(value)?,
                ..self
            }),
            1 => Ok(JobRow {
                roles: value,
                ..self
            }),
            2 => Ok(JobRow {
                command: u32::try_from(value)?,
                ..self
            }),
            _ => Err(Wrong::Field),
        }
    }
}

fn slot_with(slot: Slot, part: u32, value: u64) -> Result<Slot, Wrong>
    ensures answer { result ≡ slot_with slot part value }
{
    let value = u32::try_from(value)?;
    match part {
        0 => Ok(Slot {
            pattern: value,
            ..slot
        }),
        _ => Ok(Slot { value, ..slot }),
    }
}

fn slots_with(mut slots: [Slot; 6], part: u32, value: u64) -> Result<[Slot; 6], Wrong>
    ensures answer { result ≡ slots_with slots part value }
{
    let at = (part / 2) as usize;
    if at >= slots.len() {
        return Err(Wrong::Field);
    }
    slots[at] = slot_with(slots[at], part % 2, value)?;
    Ok(slots)
}

impl Cells for RunningRow {
    ghost written = { running_with };

    fn with_field(self, field: u32, value: u64) -> Result<RunningRow, Wrong> {
        match field {
            0 => Ok(RunningRow {
                location: u32::try_from(value)?,
                ..self
            }),
            1 => Ok(RunningRow {
                roles: value,
                ..self
            }),
            2 => Ok(RunningRow {
                command: u32::try_from(value)?,
                ..self
            }),
            _ => {
                let slots = slots_with(self.slots, field - 3, value)?;
                Ok(RunningRow { slots, ..self })
            }
        }
    }
}
