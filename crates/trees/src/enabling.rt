// Enabling and disabling a role below the edges that a path finds.
ghost use Rattle.std.specs.Prelude.{◌≡◌, ℕ, ◌+◌, ◌<◌, ◌≤◌, if◌then◌else◌, length, Decides};
ghost use Rattle.order.specs.RoleSets.{with_role, kept};
ghost use Rattle.obeying.specs.Rules.{line};
ghost use Rattle.edges.specs.Edges.{Nested};
ghost use Rattle.edges.specs.Enabling.{Enabled};
ghost use Rattle.edges.specs.Counting.{EnabledSet, DisabledSet};
ghost use Rattle.edges.specs.Disabling.{Disabled, stays};

use super::paths::Path;
use order::{Order, Role, RoleSet, roles_of, some_below, with_role};
use rows::TreeLine;

impl<O: Order> Path<'_, O> {
    // Whether the edge is directly below one found, where so many steps are met above it.
    fn directly_below(&self, met: usize, line: TreeLine) -> bool
        requires { 1 ≤ line.depth }
        ensures says { Decides result ((length self.now.steps.now ≤ met) × (line.depth ≡ length self.now.steps.now + 1)) }
    {
        self.steps.len() <= met && line.depth as usize - 1 == self.steps.len()
    }

    // The edge's set after the role is enabled, where so many steps are met above it.
    fn enabled(&self, role: Role, met: usize, line: TreeLine) -> RoleSet
        requires role { role < 64 }
        requires low { 1 ≤ line.depth }
        ensures says { EnabledSet self.now.steps.now role met line result }
    {
        if self.directly_below(met, line) {
            with_role(line.set, role)
        } else {
            line.set
        }
    }

    // Adds the role to each edge directly below one that the path finds, and to no other. A crate above asks it of trees that
    // stand, and of roles of the order.
    pub fn enable(&self, role: Role, tree: &mut [TreeLine])
        requires some { 0 < length self.now.steps.now }
        requires role { role < 64 }
        requires nested { Nested tree.old }
        ensures after { Enabled (O.below self.now.order.now) self.now.steps.now role tree.old tree.new }
    {
        let mut met = 0;
        for i in 0..tree.len() {
            let line = tree[i];
            tree[i].set = self.enabled(role, met, line);
            met = self.steps_met(met, line);
        }
    }

    // Whether a role stays on an edge: it is not at or below the disabled one, and some role left on the edge above is at or
    // below it.
    fn stays(&self, disabled: Role, above: RoleSet, role: Role) -> bool
        ensures answer { result ≡ stays (O.below self.now.order.now) disabled above role }
    {
        !self.order.at_or_below(role, disabled) && some_below(self.order, above, role)
    }

    // The roles that stay so far, and this one, if it stays.
    fn with_staying(&self, disabled: Role, above: RoleSet, left: RoleSet, role: Role) -> RoleSet
        requires { role < 64 }
        ensures answer { result ≡ (if stays (O.below self.now.order.now) disabled above role then with_role left role else left) }
    {
        if self.stays(disabled, above, role) {
            with_role(left, role)
        } else {
            left
        }
    }

    // The roles of the set that stay.
    fn left(&self, disabled: Role, above: RoleSet, set: RoleSet) -> RoleSet
        ensures answer { result ≡ kept (stays (O.below self.now.order.now) disabled above) set }
    {
        let mut left = 0;
        for role in roles_of(set) {
            left = self.with_staying(disabled, above, left, role);
        }
        left
    }

    // Whether the edge is under one found, where so many steps are met above it.
    fn under_found(&self, met: usize, line: TreeLine) -> bool
        ensures says { Decides result ((length self.now.steps.now ≤ met) × (length self.now.steps.now < line.depth)) }
    {
        self.steps.len() <= met && self.steps.len() < line.depth as usize
    }

    // The edge's set after the role is disabled, where so many steps are met above it and `above` is left on the edge above.
    fn disabled(&self, role: Role, met: usize, above: RoleSet, line: TreeLine) -> RoleSet
        ensures says { DisabledSet (O.below self.now.order.now) self.now.steps.now role met above line result }
    {
        if self.under_found(met, line) {
            self.left(role, above, line.set)
        } else {
            line.set
        }
    }

    // Goes down below each edge that the path finds, and takes away the roles that do not stay. A crate above asks it of trees
    // that stand.
    pub fn disable(&self, role: Role, tree: &mut [TreeLine])
        requires some { 0 < length self.now.steps.now }
        requires nested { Nested tree.old }
        requires deep { (i : ℕ) → i < length tree.old → (line tree.old i).depth ≤ 12 }
        ensures after { Disabled (O.below self.now.order.now) self.now.steps.now role tree.old tree.new }
    {
        // What is left on the last edge of each depth.
        let mut left = [0; 13];
        let mut met = 0;
        for i in 0..tree.len() {
            let line = tree[i];
            let depth = line.depth as usize;
            let set = self.disabled(role, met, left[depth - 1], line);
            tree[i].set = set;
            left[depth] = set;
            met = self.steps_met(met, line);
        }
    }
}
