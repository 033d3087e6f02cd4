// Whether what is pasted obeys the policy of the place.
ghost use Rattle.std.specs.Prelude.{◌≡◌, ℕ, ◌<◌, ◌||◌, not, length, Decides, get_or, ◌==◌};
ghost use Rattle.std.specs.List.{list_all};
ghost use Rattle.order.specs.RoleSets.{SetBelow, set_below};
ghost use Rattle.layout.specs.Held.{in_use};
ghost use Rattle.layout.specs.Network.{network};
ghost use Rattle.layout.specs.Zeros.{line0, job0};
ghost use Rattle.scan.specs.Scan.{Each};
ghost use Rattle.slots.specs.Slots.{part_at};
ghost use Rattle.pasting.specs.Templates.{template_lines};
ghost use Rattle.pasting.specs.Words.{least_of, PartObeys, LineObeys, TemplateObeys, ContentObeys};
ghost use Rattle.pasting.specs.Tests.{part_obeys, line_obeys, template_obeys, has_job, content_obeys};

use super::policies::{has_job, least_of, policy_of};
use super::templates::template_lines;
use layout::Tables;
use meaning::{Content, ContentKind};
use order::{Order, RoleSet, set_below};
use rows::TreeLine;
use slots::{Part, Slots, part_at};

// Where a change pastes: at a policy, with the slots as the change's pattern left them.
#[derive_where(Clone, Copy)]
pub struct Place<'a, O> {
    pub order: &'a O,
    pub tables: &'a Tables,
    pub policy: u32,
    pub slots: &'a Slots,
}

impl<O: Order> Place<'_, O> {
    // Whether what the slot was filled with obeys under edges of the set.
    fn part_obeys(&self, above: RoleSet, part: Option<Part>) -> bool
        ensures answer { result ≡ part_obeys (O.below self.now.order.now) (network self.now.tables.now).plan self.now.policy above part }
        ensures says { Decides result (PartObeys (O.below self.now.order.now) (network self.now.tables.now).plan self.now.policy above part) }
    {
        match part {
            Some(Part::Script { policy }) => policy == self.policy,
            Some(Part::Tree { policy, top, .. }) => {
                policy == self.policy
                    && set_below(self.order, least_of(self.tables, self.policy), top)
                    && set_below(self.order, above, top)
            }
            Some(Part::Number | Part::Place { .. } | Part::Route { .. }) | None => true,
        }
    }

    fn slot_obeys(&self, above: RoleSet, slot: u32) -> bool
        ensures answer { result ≡ part_obeys (O.below self.now.order.now) (network self.now.tables.now).plan self.now.policy above (part_at (in_use self.now.tables.now.patterns) self.now.slots.now slot) }
        ensures says { Decides result (PartObeys (O.below self.now.order.now) (network self.now.tables.now).plan self.now.policy above (part_at (in_use self.now.tables.now.patterns) self.now.slots.now slot)) }
    {
        let patterns = self.tables.patterns.in_use();
        self.part_obeys(above, part_at(patterns, self.slots, slot as usize))
    }

    fn held_obeys(&self, line: TreeLine) -> bool
        ensures answer { result ≡ (not (line.content == 4) || part_obeys (O.below self.now.order.now) (network self.now.tables.now).plan self.now.policy line.set (part_at (in_use self.now.tables.now.patterns) self.now.slots.now line.first)) }
        ensures says { Decides result (line.content ≡ 4 → PartObeys (O.below self.now.order.now) (network self.now.tables.now).plan self.now.policy line.set (part_at (in_use self.now.tables.now.patterns) self.now.slots.now line.first)) }
    {
        match ContentKind::try_from(line.content) {
            Ok(ContentKind::Held) => self.slot_obeys(line.set, line.first),
            _ => true,
        }
    }

    fn outermost_obeys(&self, above: RoleSet, line: TreeLine) -> bool
        ensures answer { result ≡ (not (line.depth == 1) || set_below (O.below self.now.order.now) above line.set) }
        ensures says { Decides result (line.depth ≡ 1 → SetBelow (O.below self.now.order.now) above line.set) }
    {
        line.depth != 1 || set_below(self.order, above, line.set)
    }

    fn line_obeys(&self, above: RoleSet, line: TreeLine) -> bool
        ensures answer { result ≡ line_obeys (O.below self.now.order.now) (network self.now.tables.now).plan self.now.policy above self.now.slots.now line }
        ensures says { Decides result (LineObeys (O.below self.now.order.now) (network self.now.tables.now).plan self.now.policy above self.now.slots.now line) }
    {
        self.outermost_obeys(above, line) && self.held_obeys(line)
    }

    fn lines_obey(&self, above: RoleSet, tree: &[TreeLine]) -> bool
        ensures answer { result ≡ list_all (line_obeys (O.below self.now.order.now) (network self.now.tables.now).plan self.now.policy above self.now.slots.now) tree.now }
        ensures says { Decides result (Each (LineObeys (O.below self.now.order.now) (network self.now.tables.now).plan self.now.policy above self.now.slots.now) line0 tree.now) }
    {
        for line in tree {
            if !self.line_obeys(above, *line) {
                return false;
            }
        }
        true
    }

    fn tree_obeys(&self, above: RoleSet, tree: &[TreeLine]) -> bool
        ensures answer { result ≡ template_obeys (O.below self.now.order.now) (network self.now.tables.now).plan self.now.policy above self.now.slots.now tree.now }
        ensures says { Decides result (TemplateObeys (O.below self.now.order.now) (network self.now.tables.now).plan self.now.policy above self.now.slots.now tree.now) }
    {
        policy_of(self.order, self.tables, self.policy)
            .breach(tree)
            .is_none()
            && self.lines_obey(above, tree)
    }

    fn template_obeys(&self, above: RoleSet, template: u32) -> bool
        ensures answer { result ≡ template_obeys (O.below self.now.order.now) (network self.now.tables.now).plan self.now.policy above self.now.slots.now (template_lines (in_use self.now.tables.now.templates) template) }
        ensures says { Decides result (TemplateObeys (O.below self.now.order.now) (network self.now.tables.now).plan self.now.policy above self.now.slots.now (template_lines (in_use self.now.tables.now.templates) template)) }
    {
        let lines = template_lines(&self.tables.templates, template);
        self.tree_obeys(above, lines.in_use())
    }

    // Whether the content obeys the policy under edges of the set. Any content may be asked about.
    pub fn obeys(&self, above: RoleSet, content: Content) -> bool
        ensures answer { result ≡ content_obeys (O.below self.now.order.now) (network self.now.tables.now).plan self.now.policy above self.now.slots.now content }
        ensures says { Decides result (ContentObeys (O.below self.now.order.now) (network self.now.tables.now).plan self.now.policy above self.now.slots.now content) }
    {
        match content {
            Content::Tree | Content::Number(_) | Content::Pointer { .. } => true,
            Content::Script { job } => has_job(self.tables, self.policy, job),
            Content::Held { slot } => self.slot_obeys(above, slot),
            Content::Template { template } => self.template_obeys(above, template),
        }
    }
}
