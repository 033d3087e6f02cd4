// Policies, grants, locations, patterns and jobs: rows that ask nothing of the rows before.
ghost use Rattle.std.specs.Prelude.{◌≡◌};
ghost use Rattle.meaning.specs.declared.patterns.Pattern.{Pattern};
ghost use Rattle.standing.specs.Tests.{policy_passes, grant_passes, location_passes, pattern_stands, pattern_passes, job_passes};

use super::sizes::Sizes;
use meaning::{Direction, Pattern};
use order::in_use_of;
use rows::{GrantRow, JobRow, LocationRow, PatternRow, PolicyRow};
use scan::Stands;

impl Stands<Sizes> for PolicyRow {
    ghost stands = { λ s i x. policy_passes s x };

    fn stands(&self, names: &Sizes, _row: usize) -> bool {
        in_use_of(names.roles, self.least)
    }
}

impl Stands<Sizes> for GrantRow {
    ghost stands = { λ s i x. grant_passes s x };

    fn stands(&self, names: &Sizes, _row: usize) -> bool {
        (self.policy as usize) < names.policies
            && Direction::try_from(self.direction).is_ok()
            && self.role < names.roles
            && in_use_of(names.roles, self.holder)
    }
}

impl Stands<Sizes> for LocationRow {
    ghost stands = { λ s i x. location_passes s x };

    fn stands(&self, names: &Sizes, _row: usize) -> bool {
        let policy = self.policy as usize;
        policy < names.policies
    }
}

fn pattern_stands(names: &Sizes, pattern: Pattern) -> bool
    ensures answer { result ≡ pattern_stands names.now pattern }
{
    match pattern {
        Pattern::Number { slot } => slot < 6,
        Pattern::Script { slot, policy } => slot < 6 && (policy as usize) < names.policies,
        Pattern::Pointer { slot, policy, last } => {
            slot < 5 && (policy as usize) < names.policies && in_use_of(names.roles, last)
        }
        Pattern::Tree {
            slot,
            policy,
            top,
            all,
        } => {
            slot < 6
                && (policy as usize) < names.policies
                && in_use_of(names.roles, top)
                && in_use_of(names.roles, all)
        }
    }
}

impl Stands<Sizes> for PatternRow {
    ghost stands = { λ s i x. pattern_passes s x };

    fn stands(&self, names: &Sizes, _row: usize) -> bool {
        Pattern::decode(*self).is_some_and(|pattern| pattern_stands(names, pattern))
    }
}

impl Stands<Sizes> for JobRow {
    ghost stands = { λ s i x. job_passes s x };

    fn stands(&self, names: &Sizes, _row: usize) -> bool {
        (self.policy as usize) < names.policies
            && 0 < self.command
            && (self.command as usize) <= names.commands
            && in_use_of(names.roles, self.roles)
    }
}
