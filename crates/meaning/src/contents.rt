// What lies on an edge, on a line of a template, or in a change.
ghost use Rattle.std.specs.Prelude.{◌≡◌};
ghost use Rattle.meaning.specs.Decoding.{content_of};

use super::kinds::ContentKind;

#[derive(Clone, Copy, Debug, PartialEq, Eq)]
pub enum Content {
    // The deeper lines that follow, perhaps none; in a change, the empty tree.
    Tree,
    Number(u32),
    Script { job: u32 },
    Pointer { path: u32, location: u32 },
    // What a slot holds; not on an edge.
    Held { slot: u32 },
    // A whole template; in a change only.
    Template { template: u32 },
}

impl Content {
    // None where the numbers mean nothing: that is the only cause, so there is no error to tell it.
    pub fn decode(kind: u32, first: u32, second: u32) -> Option<Content>
        ensures answer { result ≡ content_of kind first second }
    {
        match (ContentKind::try_from(kind).ok()?, first, second) {
            (ContentKind::Tree, 0, 0) => Some(Content::Tree),
            (ContentKind::Number, number, 0) => Some(Content::Number(number)),
            (ContentKind::Script, job, 0) => Some(Content::Script { job }),
            (ContentKind::Pointer, path, location) => Some(Content::Pointer { path, location }),
            (ContentKind::Held, slot, 0) => Some(Content::Held { slot }),
            (ContentKind::Template, template, 0) => Some(Content::Template { template }),
            _ => None,
        }
    }
}
