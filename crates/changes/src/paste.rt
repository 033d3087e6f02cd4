// What a change puts on an edge.
ghost use Rattle.std.specs.Prelude.{◌≡◌};
ghost use Rattle.replacing.specs.Pasting.{plain, line_content};
ghost use Rattle.changes.specs.Pastes.{pasted_of, held_at};

use meaning::ContentKind;
use rows::TreeLine;

// A content by its numbers, as an edge holds them, and the tree that lies under it.
#[derive(Clone, Copy, Debug)]
pub struct Paste<'a> {
    pub content: u32,
    pub first: u32,
    pub second: u32,
    pub under: &'a [TreeLine],
}

// What the slots hold at one edge: what lies on that edge is in one of them.
#[derive(Clone, Copy)]
pub(crate) struct Holding<'a, 'b> {
    pub slots: &'a [Paste<'a>; 6],
    pub own: usize,
    pub lying: Paste<'b>,
}

impl<'a> Paste<'a> {
    // A content with nothing under it.
    pub(crate) fn plain(content: u32, first: u32, second: u32) -> Paste<'a>
        ensures answer { pasted_of result ≡ plain content first second }
    {
        Paste {
            content,
            first,
            second,
            under: &[],
        }
    }

    fn again(&self) -> Paste<'_>
        ensures answer { pasted_of result ≡ pasted_of self.now }
    {
        Paste {
            content: self.content,
            first: self.first,
            second: self.second,
            under: self.under,
        }
    }
}

impl Holding<'_, '_> {
    // What the slot holds; one that holds nothing gives the empty tree.
    #[tactic(auto, unfolding(crate::specs::Pastes::held_at))]
    pub(crate) fn at(&self, slot: u32) -> Paste<'_>
        ensures answer { pasted_of result ≡ held_at self.now slot }
    {
        if slot as usize == self.own {
            return self.lying.again();
        }
        let slots = self.slots;
        match slots.get(slot as usize) {
            Some(paste) => paste.again(),
            None => Paste::plain(0, 0, 0),
        }
    }

    // What lies on a line of a template.
    #[tactic(auto, unfolding(replacing::specs::Pasting::line_content))]
    pub(crate) fn line_content(&self, line: TreeLine) -> Paste<'_>
        ensures answer { pasted_of result ≡ line_content (held_at self.now) line }
    {
        match ContentKind::try_from(line.content) {
            Ok(ContentKind::Held) => self.at(line.first),
            _ => Paste::plain(line.content, line.first, line.second),
        }
    }
}
