// The fields of each row.
ghost use Rattle.std.specs.Prelude.{◌≡◌, List, ◌∷◌, IfOk};
ghost use Rattle.dump.specs.declared.field.Field.TheVariants.{Number};
ghost use Rattle.dump.specs.declared.field.Field.{Field};
ghost use Rattle.dump.specs.Listed.{policy_fields, grant_fields, location_fields, step_fields, line_fields, edge_fields, template_fields, pattern_fields, command_fields, job_fields, running_fields};

use super::field::Field;
use layout::RunningRow;
use rows::{
    CommandRow, EdgeRow, GrantRow, JobRow, LocationRow, PathStepRow, PatternRow, PolicyRow,
    TemplateRow, TreeLine,
};
use std::alloc::{AllocError, Global};

// A row that is written as its fields. Rows differ in each of them, so each has a method of its own.
pub(crate) trait Fields: Copy {
    ghost listed: { Self → List Field };

    fn fields(self, heap: Global) -> Result<Vec<Field>, AllocError>
        ensures answer { IfOk result (λ fields. fields.items ≡ listed self) };
}

// A tree's line behind the number that says where it belongs.
fn led_fields(heap: Global, first: u32, line: TreeLine) -> Result<Vec<Field>, AllocError>
    ensures answer { IfOk result (λ fields. fields.items ≡ Number first ∷ line_fields line) }
{
    let mut fields = line.fields(heap)?;
    fields.insert(0, Field::from(first))?;
    Ok(fields)
}

impl Fields for PolicyRow {
    ghost listed = { policy_fields };

    fn fields(self, heap: Global) -> Result<Vec<Field>, AllocError> {
        Ok(vec![in heap; Field::Set(self.least)]?)
    }
}

impl Fields for GrantRow {
    ghost listed = { grant_fields };

    fn fields(self, heap: Global) -> Result<Vec<Field>, AllocError> {
        Ok(vec![in heap;
            Field::from(self.policy),
            Field::from(self.direction),
            Field::Set(self.holder),
            Field::from(self.role),
        ]?)
    }
}

impl Fields for LocationRow {
    ghost listed = { location_fields };

    fn fields(self, heap: Global) -> Result<Vec<Field>, AllocError> {
        Ok(vec![in heap; Field::from(self.policy)]?)
    }
}

impl Fields for PathStepRow {
    ghost listed = { step_fields };

    fn fields(self, heap: Global) -> Result<Vec<Field>, AllocError> {
        Ok(vec![in heap;
            Field::from(self.path),
            Field::from(self.label),
            Field::Set(self.set),
        ]?)
    }
}

impl Fields for TreeLine {
    ghost listed = { line_fields };

    fn fields(self, heap: Global) -> Result<Vec<Field>, AllocError> {
        Ok(vec![in heap;
            Field::from(self.depth),
            Field::from(self.label),
            Field::Set(self.set),
            Field::from(self.content),
            Field::from(self.first),
            Field::from(self.second),
        ]?)
    }
}

impl Fields for EdgeRow {
    ghost listed = { edge_fields };

    fn fields(self, heap: Global) -> Result<Vec<Field>, AllocError> {
        led_fields(heap, self.location, self.line)
    }
}

impl Fields for TemplateRow {
    ghost listed = { template_fields };

    fn fields(self, heap: Global) -> Result<Vec<Field>, AllocError> {
        led_fields(heap, self.template, self.line)
    }
}

impl Fields for PatternRow {
    ghost listed = { pattern_fields };

    fn fields(self, heap: Global) -> Result<Vec<Field>, AllocError> {
        Ok(vec![in heap;
            Field::from(self.kind),
            Field::from(self.slot),
            Field::from(self.policy),
            Field::Set(self.first),
            Field::Set(self.second),
        ]?)
    }
}

impl Fields for CommandRow {
    ghost listed = { command_fields };

    fn fields(self, heap: Global) -> Result<Vec<Field>, AllocError> {
        Ok(vec![in heap;
            Field::from(self.verb),
            Field::from(self.next),
            Field::from(self.operand_kind),
            Field::from(self.operand),
            Field::Number(self.first),
            Field::from(self.second),
            Field::from(self.third),
            Field::from(self.fourth),
        ]?)
    }
}

impl Fields for JobRow {
    ghost listed = { job_fields };

    fn fields(self, heap: Global) -> Result<Vec<Field>, AllocError> {
        Ok(vec![in heap;
            Field::from(self.policy),
            Field::Set(self.roles),
            Field::from(self.command),
        ]?)
    }
}

// A running job, but for its slots.
impl Fields for RunningRow {
    ghost listed = { running_fields };

    fn fields(self, heap: Global) -> Result<Vec<Field>, AllocError> {
        Ok(vec![in heap;
            Field::from(self.location),
            Field::Set(self.roles),
            Field::from(self.command),
        ]?)
    }
}
