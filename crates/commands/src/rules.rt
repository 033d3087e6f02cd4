// The rules of one command.
ghost use Rattle.std.specs.Prelude.{◌≡◌, Decides, Contains, IfSome};
ghost use Rattle.order.specs.RoleSets.{SetBelow, set_below};
ghost use Rattle.layout.specs.Network.{network};
ghost use Rattle.layout.specs.Held.{in_use};
ghost use Rattle.pasting.specs.Words.{least_of, ContentObeys};
ghost use Rattle.pasting.specs.Tests.{content_obeys};
ghost use Rattle.commands.specs.Rules.{slots_after, EntryAsks, SlotsAsk, PathAsks, Open, PatternAsks, ContentAsks, wanted, GrantAsks, EnablingAsks, Asks, LowestBroken};
ghost use Rattle.commands.specs.Tests.{if_some, entry_passes, slots_pass, path_passes, opens_pattern, pattern_passes, content_passes, is_grant, granted, grant_passes, enabling_passes, broken};

use super::rule::CommandRule;
use super::standing::Standing;
use super::works::Commands;
use meaning::{Content, Direction, Pattern, Verb};
use order::{Order, RoleSet, set_below, some_below};
use pasting::{Place, content_fits, least_of};
use rows::GrantRow;
use slots::pattern_at;

fn is_grant(standing: &Standing, direction: Direction, role: u32, grant: &GrantRow) -> bool
    ensures answer { result ≡ is_grant (wanted standing.now direction role) grant.now }
{
    grant.policy == standing.policy
        && Direction::try_from(grant.direction) == Ok(direction)
        && grant.holder == standing.roles
        && grant.role == role
}

impl<O: Order> Commands<'_, O> {
    // Whether roles may enter the policy, if there is one to enter.
    fn enters(&self, policy: Option<u32>, roles: RoleSet) -> bool
        ensures answer { result ≡ if_some policy (λ q. set_below (O.below self.now.order.now) (least_of (network self.now.tables.now).plan q) roles) }
        ensures says { Decides result (IfSome policy (λ q. SetBelow (O.below self.now.order.now) (least_of (network self.now.tables.now).plan q) roles)) }
    {
        policy.is_none_or(|policy| set_below(self.order, least_of(self.tables, policy), roles))
    }

    fn entry_passes(&self, standing: &Standing, verb: Verb) -> bool
        ensures answer { result ≡ entry_passes (O.below self.now.order.now) (network self.now.tables.now).plan standing.now verb }
        ensures says { Decides result (EntryAsks (O.below self.now.order.now) (network self.now.tables.now).plan standing.now verb) }
    {
        match verb {
            Verb::Go { location, roles } => self.enters(self.goal_of(standing, location), roles),
            _ => true,
        }
    }

    // Whether each slot that the verb uses was filled with what the use needs.
    pub fn slots_pass(&self, standing: &Standing, verb: Verb) -> bool
        ensures answer { result ≡ slots_pass (network self.now.tables.now).plan standing.now verb }
        ensures says { Decides result (SlotsAsk (network self.now.tables.now).plan standing.now verb) }
    {
        match verb {
            Verb::Fork { .. } => true,
            Verb::Go { location, .. } => self.goal_of(standing, location).is_some(),
            Verb::Change {
                path,
                pattern,
                content,
            } => {
                self.last_of(standing, path).is_some()
                    && content_fits(self.tables, &self.slots_after(standing, pattern), content)
            }
            Verb::Run { path }
            | Verb::Read { path, .. }
            | Verb::Enable { path, .. }
            | Verb::Disable { path, .. } => self.last_of(standing, path).is_some(),
        }
    }

    fn path_passes(&self, standing: &Standing, verb: Verb) -> bool
        ensures answer { result ≡ path_passes (O.below self.now.order.now) (network self.now.tables.now).plan standing.now verb }
        ensures says { Decides result (PathAsks (O.below self.now.order.now) (network self.now.tables.now).plan standing.now verb) }
    {
        let last = self.used_set(standing, verb);
        last.is_none_or(|last| set_below(self.order, last, standing.roles))
    }

    // Whether the sets in what the pattern matches are ≤ the roles.
    fn opens_pattern(&self, roles: RoleSet, pattern: Option<Pattern>) -> bool
        ensures answer { result ≡ opens_pattern (O.below self.now.order.now) roles pattern }
        ensures says { Decides result (Open (O.below self.now.order.now) roles pattern) }
    {
        match pattern {
            Some(Pattern::Tree { all, .. }) => set_below(self.order, all, roles),
            _ => true,
        }
    }

    fn pattern_passes(&self, standing: &Standing, verb: Verb) -> bool
        ensures answer { result ≡ pattern_passes (O.below self.now.order.now) (network self.now.tables.now).plan standing.now verb }
        ensures says { Decides result (PatternAsks (O.below self.now.order.now) (network self.now.tables.now).plan standing.now verb) }
    {
        match verb {
            Verb::Read { pattern, .. } | Verb::Change { pattern, .. } => {
                let patterns = self.tables.patterns.in_use();
                self.opens_pattern(standing.roles, pattern_at(patterns, pattern as usize))
            }
            _ => true,
        }
    }
    // Whether the content obeys the standing's policy under edges of the set, if there is one, once the pattern of this row has
    // filled its slots.
    fn pastes(
        &self,
        standing: &Standing,
        pattern: u32,
        last: Option<RoleSet>,
        content: Content,
    ) -> bool
        ensures answer { result ≡ if_some last (λ above. content_obeys (O.below self.now.order.now) (network self.now.tables.now).plan standing.now.policy above (slots_after (network self.now.tables.now).plan standing.now pattern) content) }
        ensures says { Decides result (IfSome last (λ above. ContentObeys (O.below self.now.order.now) (network self.now.tables.now).plan standing.now.policy above (slots_after (network self.now.tables.now).plan standing.now pattern) content)) }
    {
        let Some(last) = last else {
            return true;
        };
        let place = Place {
            order: self.order,
            tables: self.tables,
            policy: standing.policy,
            slots: &self.slots_after(standing, pattern),
        };
        place.obeys(last, content)
    }

    fn content_passes(&self, standing: &Standing, verb: Verb) -> bool
        ensures answer { result ≡ content_passes (O.below self.now.order.now) (network self.now.tables.now).plan standing.now verb }
        ensures says { Decides result (ContentAsks (O.below self.now.order.now) (network self.now.tables.now).plan standing.now verb) }
    {
        match verb {
            Verb::Change {
                path,
                pattern,
                content,
            } => self.pastes(standing, pattern, self.last_of(standing, path), content),
            _ => true,
        }
    }

    // Whether the policy grants it to those who hold just these roles.
    fn granted(&self, standing: &Standing, direction: Direction, role: u32) -> bool
        ensures answer { result ≡ granted (in_use self.now.tables.now.grants) (wanted standing.now direction role) }
        ensures says { Decides result (Contains (in_use self.now.tables.now.grants) (wanted standing.now direction role)) }
    {
        let mut grants = self.tables.grants.in_use().iter();
        grants.any(|grant| is_grant(standing, direction, role, grant))
    }

    fn grant_passes(&self, standing: &Standing, verb: Verb) -> bool
        ensures answer { result ≡ grant_passes (network self.now.tables.now).plan standing.now verb }
        ensures says { Decides result (GrantAsks (network self.now.tables.now).plan standing.now verb) }
    {
        match verb {
            Verb::Enable { role, .. } => self.granted(standing, Direction::Enable, role),
            Verb::Disable { role, .. } => self.granted(standing, Direction::Disable, role),
            _ => true,
        }
    }

    fn enabling_passes(&self, standing: &Standing, verb: Verb) -> bool
        ensures answer { result ≡ enabling_passes (O.below self.now.order.now) (network self.now.tables.now).plan standing.now verb }
        ensures says { Decides result (EnablingAsks (O.below self.now.order.now) (network self.now.tables.now).plan standing.now verb) }
    {
        match verb {
            Verb::Enable { path, role } => {
                let last = self.last_of(standing, path);
                last.is_none_or(|last| some_below(self.order, last, role))
            }
            _ => true,
        }
    }

    // The lowest rule that the command breaks. Any verb may be asked about.
    #[tactic(auto, unfolding(crate::specs::Tests::broken))]
    pub fn broken(&self, standing: &Standing, verb: Verb) -> Option<CommandRule>
        ensures answer { result ≡ broken (O.below self.now.order.now) (network self.now.tables.now).plan standing.now verb }
        ensures says { LowestBroken (Asks (O.below self.now.order.now) (network self.now.tables.now).plan standing.now verb) result }
    {
        if !self.entry_passes(standing, verb) {
            Some(CommandRule::Entry)
        } else if !self.slots_pass(standing, verb) {
            Some(CommandRule::Slots)
        } else if !self.path_passes(standing, verb) {
            Some(CommandRule::Path)
        } else if !self.pattern_passes(standing, verb) {
            Some(CommandRule::Pattern)
        } else if !self.content_passes(standing, verb) {
            Some(CommandRule::Content)
        } else if !self.grant_passes(standing, verb) {
            Some(CommandRule::Grant)
        } else if !self.enabling_passes(standing, verb) {
            Some(CommandRule::Enabling)
        } else {
            None
        }
    }
}
