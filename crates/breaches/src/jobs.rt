// Jobs: their roles and their commands.
ghost use Rattle.std.specs.Prelude.{◌≡◌, ℕ, ◌≤◌, ◌<◌, length, None, IfSome, slice_index_or};
ghost use Rattle.layout.specs.Held.{in_use};
ghost use Rattle.layout.specs.Network.{network};
ghost use Rattle.layout.specs.Zeros.{job0};
ghost use Rattle.scan.specs.Scan.{Each};
ghost use Rattle.typing.specs.Flow.{Flows};
ghost use Rattle.breaches.specs.Broken.{JobBroken};
ghost use Rattle.breaches.specs.Told.{job_told, jobs_told};
ghost use Rattle.breaches.specs.Words.{job_standing, JobTyped};

use super::breach::{Rule, RuleBreach};
use super::judging::{Judge, first_told};
use commands::{CommandRule, Commands, Standing};
use layout::{TableKind, Tables};
use order::{Order, set_below};
use pasting::least_of;
use rows::JobRow;
use sheet::LineKind;
use typing::first_breach;

// A job starts at its policy, with its roles and empty slots.
fn job_standing(job: &JobRow) -> Standing
    ensures answer { result ≡ job_standing job.now }
{
    Standing {
        policy: job.policy,
        roles: job.roles,
        slots: [0; 6],
    }
}

// The jobs of the job table.
#[derive_where(Clone, Copy)]
struct Jobs<'a, O> {
    order: &'a O,
    tables: &'a Tables,
}

impl<O: Order> Judge<JobRow> for Jobs<'_, O> {
    ghost told = { λ s row j. job_told (O.below s.order.now) (network s.tables.now).plan row j };

    // that a job of which nothing is told is typed rests on what shape gives of the commands
    ghost clear = { λ s row j. Flows (in_use s.tables.now.commands) → j.command ≤ length (in_use s.tables.now.commands) → JobTyped (O.below s.order.now) (network s.tables.now).plan j };

    ghost keeps = { λ s row j. JobTyped (O.below s.order.now) (network s.tables.now).plan j };

    ghost breaks = { λ s row j. JobBroken (O.below s.order.now) (network s.tables.now).plan row j };

    fn judge(&self, row: usize, job: &JobRow) -> Option<RuleBreach> {
        if !set_below(self.order, least_of(self.tables, job.policy), job.roles) {
            return Some(RuleBreach {
                table: TableKind::Lines(LineKind::Job),
                row,
                rule: Rule::Command(CommandRule::Entry),
            });
        }
        let commands = Commands {
            order: self.order,
            tables: self.tables,
        };
        let breach = first_breach(&commands, job_standing(job), job.command)?;
        Some(RuleBreach {
            table: TableKind::Lines(LineKind::Command),
            row: breach.row,
            rule: Rule::Command(breach.rule),
        })
    }
}

// The first job, or command that a job leads to, that breaks a rule.
pub(crate) fn jobs_breach<O: Order>(order: &O, tables: &Tables) -> Option<RuleBreach>
    ensures answer { result ≡ jobs_told (O.below order.now) (network tables.now).plan }
    ensures clear { Flows (in_use tables.now.commands) → Each (λ j. j.command ≤ length (in_use tables.now.commands)) job0 (in_use tables.now.jobs) → result ≡ None → Each (JobTyped (O.below order.now) (network tables.now).plan) job0 (in_use tables.now.jobs) }
    ensures keeps { Each (JobTyped (O.below order.now) (network tables.now).plan) job0 (in_use tables.now.jobs) → result ≡ None }
    ensures breaks { IfSome result (λ b. (k : ℕ) × (k < length (in_use tables.now.jobs)) × JobBroken (O.below order.now) (network tables.now).plan k (slice_index_or (in_use tables.now.jobs) k job0) b) }
{
    first_told(&Jobs { order, tables }, tables.jobs.in_use())
}
