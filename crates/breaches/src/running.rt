// Running jobs: their roles, their commands, and what their slots hold.
ghost use Rattle.std.specs.Prelude.{◌≡◌, ℕ, ◌≤◌, ◌<◌, length, map, None, IfSome, slice_index_or};
ghost use Rattle.layout.specs.Held.{in_use};
ghost use Rattle.layout.specs.Network.{network};
ghost use Rattle.layout.specs.Zeros.{no_running};
ghost use Rattle.layout.specs.declared.kind.TableKind.TheVariants.{Running};
ghost use Rattle.scan.specs.Scan.{Each};
ghost use Rattle.typing.specs.Flow.{Flows};
ghost use Rattle.breaches.specs.Broken.{RunsBroken, RunningBroken};
ghost use Rattle.breaches.specs.Told.{running_rule, running_told, all_running_told};
ghost use Rattle.breaches.specs.Words.{running_standing, RunsTyped, RunningTyped, RunningObeys};

use super::breach::{Rule, RuleBreach};
use super::ground::policy_at;
use super::judging::{Judge, first_told};
use commands::{CommandRule, Commands, Standing};
use layout::{RunningRow, Slot, TableKind, Tables};
use matching::Values;
use order::{Order, set_below};
use pasting::least_of;
use slots::Slots;
use typing::first_breach;

// Which patterns filled the slots, by the numbers that say so.
fn fillers(slots: &[Slot; 6]) -> Slots
    ensures answer { result ≡ map (λ x. x.pattern) slots.now }
{
    let mut fillers = [0; 6];
    for (slot, held) in slots.iter().enumerate() {
        fillers[slot] = held.pattern as usize;
    }
    fillers
}

// The running jobs of these tables.
#[derive_where(Clone, Copy)]
struct RunningJobs<'a, O> {
    order: &'a O,
    tables: &'a Tables,
}

fn at(place: usize, rule: Rule) -> RuleBreach
    ensures answer { result ≡ record { table = Running; row = place; rule = rule } }
{
    RuleBreach {
        table: TableKind::Running,
        row: place,
        rule,
    }
}

// A running job is held to the policy of its location, with its roles and the patterns that filled its slots.
pub fn running_standing(tables: &Tables, job: &RunningRow) -> Standing
    ensures answer { result ≡ running_standing (network tables.now).plan job.now }
{
    Standing {
        policy: policy_at(tables, job.location as usize),
        roles: job.roles,
        slots: fillers(&job.slots),
    }
}

impl<O: Order> RunningJobs<'_, O> {
    // What its roles or its commands break.
    fn command_rule(&self, job: &RunningRow) -> Option<CommandRule>
        ensures answer { result ≡ running_rule (O.below self.now.order.now) (network self.now.tables.now).plan job.now }
        ensures clear { Flows (in_use self.now.tables.now.commands) → job.now.command ≤ length (in_use self.now.tables.now.commands) → result ≡ None → RunsTyped (O.below self.now.order.now) (network self.now.tables.now).plan job.now }
        ensures keeps { RunsTyped (O.below self.now.order.now) (network self.now.tables.now).plan job.now → result ≡ None }
        ensures breaks { IfSome result (RunsBroken (O.below self.now.order.now) (network self.now.tables.now).plan job.now) }
    {
        let standing = running_standing(self.tables, job);
        if !set_below(
            self.order,
            least_of(self.tables, standing.policy),
            job.roles,
        ) {
            return Some(CommandRule::Entry);
        }
        let commands = Commands {
            order: self.order,
            tables: self.tables,
        };
        let breach = first_breach(&commands, standing, job.command)?;
        Some(breach.rule)
    }
}

impl<O: Order> Judge<RunningRow> for RunningJobs<'_, O> {
    ghost told = { λ s place r. running_told (O.below s.order.now) (network s.tables.now).plan (network s.tables.now).shelf place r };

    // that a job of which nothing is told is typed rests on what shape gives of the commands
    ghost clear = { λ s place r. Flows (in_use s.tables.now.commands) → r.command ≤ length (in_use s.tables.now.commands) → RunningTyped (O.below s.order.now) (network s.tables.now).plan (network s.tables.now).shelf r };

    ghost keeps = { λ s place r. RunningTyped (O.below s.order.now) (network s.tables.now).plan (network s.tables.now).shelf r };

    ghost breaks = { λ s place r. RunningBroken (O.below s.order.now) (network s.tables.now).plan (network s.tables.now).shelf place r };

    fn judge(&self, place: usize, job: &RunningRow) -> Option<RuleBreach> {
        if let Some(rule) = self.command_rule(job) {
            return Some(at(place, Rule::Command(rule)));
        }
        let values = Values {
            order: self.order,
            tables: self.tables,
        };
        if values.slots_match(&job.slots) {
            return None;
        }
        Some(at(place, Rule::Filled))
    }
}

// The first running job that breaks a rule.
pub(crate) fn all_running_breach<O: Order>(order: &O, tables: &Tables) -> Option<RuleBreach>
    ensures answer { result ≡ all_running_told (O.below order.now) (network tables.now) }
    ensures clear { Flows (in_use tables.now.commands) → Each (λ r. r.command ≤ length (in_use tables.now.commands)) no_running (in_use tables.now.running) → result ≡ None → RunningObeys (O.below order.now) (network tables.now) }
    ensures keeps { RunningObeys (O.below order.now) (network tables.now) → result ≡ None }
    ensures breaks { IfSome result (λ b. (k : ℕ) × (k < length (in_use tables.now.running)) × RunningBroken (O.below order.now) (network tables.now).plan (network tables.now).shelf k (slice_index_or (in_use tables.now.running) k no_running) b) }
{
    first_told(&RunningJobs { order, tables }, tables.running.in_use())
}
