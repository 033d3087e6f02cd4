// What a command works on.
ghost use Rattle.std.specs.Prelude.{◌≡◌};
ghost use Rattle.layout.specs.Network.{network};
ghost use Rattle.commands.specs.Rules.{goal_of, last_of, slots_after, used_set};

use super::standing::Standing;
use layout::Tables;
use meaning::{Operand, Verb};
use order::{Order, RoleSet};
use slots::{Slots, destination, filled, path_set};

// The commands of a network, under an order of roles.
#[derive_where(Clone, Copy)]
pub struct Commands<'a, O> {
    pub order: &'a O,
    pub tables: &'a Tables,
}

impl<O: Order> Commands<'_, O> {
    // The policy of the location that the operand names.
    pub(crate) fn goal_of(&self, standing: &Standing, location: Operand) -> Option<u32>
        ensures answer { result ≡ goal_of (network self.now.tables.now).plan standing.now location }
    {
        let patterns = self.tables.patterns.in_use();
        destination(
            self.tables.locations.in_use(),
            patterns,
            &standing.slots,
            location,
        )
    }

    // The last set of the path that the operand names.
    pub(crate) fn last_of(&self, standing: &Standing, path: Operand) -> Option<RoleSet>
        ensures answer { result ≡ last_of (network self.now.tables.now).plan standing.now path }
    {
        let patterns = self.tables.patterns.in_use();
        path_set(self.tables.steps.in_use(), patterns, &standing.slots, path)
    }

    // The last set of the path that the verb works by, if it works by one.
    pub(crate) fn used_set(&self, standing: &Standing, verb: Verb) -> Option<RoleSet>
        ensures answer { result ≡ used_set (network self.now.tables.now).plan standing.now verb }
    {
        match verb {
            Verb::Fork { .. } | Verb::Go { .. } => None,
            Verb::Run { path }
            | Verb::Read { path, .. }
            | Verb::Change { path, .. }
            | Verb::Enable { path, .. }
            | Verb::Disable { path, .. } => self.last_of(standing, path),
        }
    }

    // The slots after the pattern of this row has filled its own.
    pub(crate) fn slots_after(&self, standing: &Standing, pattern: u32) -> Slots
        ensures answer { result ≡ slots_after (network self.now.tables.now).plan standing.now pattern }
    {
        filled(self.tables.patterns.in_use(), standing.slots, pattern)
    }
}
