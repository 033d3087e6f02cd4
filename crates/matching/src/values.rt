// The values of filled slots.
ghost use Rattle.std.specs.Prelude.{◌≡◌, ℕ, ◌<◌, length, Decides, [], get_or, ◌&&◌, nat_lt, slice_index_or};
ghost use Rattle.layout.specs.Held.{in_use};
ghost use Rattle.layout.specs.Network.{network};
ghost use Rattle.layout.specs.Zeros.{job0};
ghost use Rattle.obeying.specs.Rules.{Matches};
ghost use Rattle.obeying.specs.Breaches.{tree_matches};
ghost use Rattle.slots.specs.Operands.{last_set};
ghost use Rattle.slots.specs.Slots.{part_by};
ghost use Rattle.pasting.specs.Words.{least_of};
ghost use Rattle.pasting.specs.Tests.{has_job};
ghost use Rattle.matching.specs.Matching.{policy_at, ValueMatches, SlotMatches, SlotsMatch, has_place, is_set, is_tree, value_matches, slot_matches, slots_match};

use super::shelves::{shelved, trees_on};
use layout::{Slot, Tables};
use obeying::TreePattern;
use order::{Order, RoleSet};
use pasting::{has_job, policy_of};
use slots::{Part, last_set, part_by};

// The values that slots hold in these tables, under an order of roles.
#[derive_where(Clone, Copy)]
pub struct Values<'a, O> {
    pub order: &'a O,
    pub tables: &'a Tables,
}

impl<O: Order> Values<'_, O> {
    fn is_place(&self, policy: u32, location: u32) -> bool
        ensures answer { result ≡ has_place (in_use self.now.tables.now.locations) policy location }
        ensures says { Decides result ((location < length (in_use self.now.tables.now.locations)) × policy_at (network self.now.tables.now).plan location ≡ policy) }
    {
        match self.tables.locations.in_use().get(location as usize) {
            Some(row) => row.policy == policy,
            None => false,
        }
    }

    fn is_route(&self, last: RoleSet, path: u32) -> bool
        ensures answer { result ≡ is_set (last_set (in_use self.now.tables.now.steps) path) last }
        ensures says { Decides result (last_set (in_use self.now.tables.now.steps) path ≡ Some last) }
    {
        match last_set(self.tables.steps.in_use(), path) {
            Some(set) => set == last,
            None => false,
        }
    }

    // The tree pattern of a policy.
    fn pattern(&self, policy: u32, top: RoleSet, all: RoleSet) -> TreePattern<'_, O>
        ensures order { result.policy.order.now ≡ self.now.order.now }
        ensures number { result.policy.number ≡ policy }
        ensures least { result.policy.least ≡ least_of (network self.now.tables.now).plan policy }
        ensures jobs { result.policy.jobs.now ≡ in_use self.now.tables.now.jobs }
        ensures top { result.top ≡ top }
        ensures all { result.all ≡ all }
    {
        let policy = policy_of(self.order, self.tables, policy);
        TreePattern { policy, top, all }
    }

    #[tactic(auto, unfolding(crate::specs::Matching::is_tree))]
    fn is_tree(&self, policy: u32, top: RoleSet, all: RoleSet, tree: u32) -> bool
        ensures answer { result ≡ is_tree (O.below self.now.order.now) (network self.now.tables.now).plan (network self.now.tables.now).shelf policy top all tree }
        ensures says { Decides result ((tree < length (network self.now.tables.now).shelf) × Matches (O.below self.now.order.now) (least_of (network self.now.tables.now).plan policy) (in_use self.now.tables.now.jobs) policy top all (slice_index_or (network self.now.tables.now).shelf tree [])) }
    {
        let tree = tree as usize;
        tree < trees_on(&self.tables.shelf)
            && self
                .pattern(policy, top, all)
                .matches(shelved(&self.tables.shelf, tree))
    }

    // Whether the value matches the part of a pattern.
    fn value_matches(&self, part: Option<Part>, value: u32) -> bool
        ensures answer { result ≡ value_matches (O.below self.now.order.now) (network self.now.tables.now).plan (network self.now.tables.now).shelf part value }
        ensures says { Decides result (ValueMatches (O.below self.now.order.now) (network self.now.tables.now).plan (network self.now.tables.now).shelf part value) }
    {
        match part {
            Some(Part::Script { policy }) => has_job(self.tables, policy, value),
            Some(Part::Place { policy }) => self.is_place(policy, value),
            Some(Part::Route { last }) => self.is_route(last, value),
            Some(Part::Tree { policy, top, all }) => self.is_tree(policy, top, all, value),
            Some(Part::Number) | None => true,
        }
    }

    fn slot_matches(&self, slot: usize, held: Slot) -> bool
        ensures answer { result ≡ slot_matches (O.below self.now.order.now) (network self.now.tables.now).plan (network self.now.tables.now).shelf slot held }
        ensures says { Decides result (SlotMatches (O.below self.now.order.now) (network self.now.tables.now).plan (network self.now.tables.now).shelf slot held) }
    {
        let patterns = self.tables.patterns.in_use();
        self.value_matches(part_by(patterns, held.pattern as usize, slot), held.value)
    }

    // Whether every filled slot matches its part of the pattern that filled it. Any slots may be asked about.
    pub fn slots_match(&self, slots: &[Slot]) -> bool
        ensures answer { result ≡ slots_match (O.below self.now.order.now) (network self.now.tables.now).plan (network self.now.tables.now).shelf 0 slots.now }
        ensures says { Decides result (SlotsMatch (O.below self.now.order.now) (network self.now.tables.now).plan (network self.now.tables.now).shelf slots.now) }
    {
        for (slot, held) in slots.iter().enumerate() {
            if !self.slot_matches(slot, *held) {
                return false;
            }
        }
        true
    }
}
