// The kinds of content, by the numbers that stand for them in a row.
ghost use Rattle.std.specs.Prelude.{Some};
ghost use Rattle.meaning.specs.Kinds.{TellsKind, unknown_words};

use std::error::Error;
use std::fmt;

#[derive(Clone, Copy, Debug, PartialEq, Eq)]
pub enum ContentKind {
    Tree,
    Number,
    Script,
    Pointer,
    Held,
    Template,
}

// A number that no kind of content has.
#[derive(Clone, Copy, Debug, PartialEq, Eq)]
pub struct UnknownContent(pub u32);

// The kind of content that a row's number stands for.
impl TryFrom<u32> for ContentKind {
    type Error = UnknownContent;

    ghost try_from_gives = { TellsKind };

    fn try_from(number: u32) -> Result<Self, UnknownContent> {
        match number {
            0 => Ok(ContentKind::Tree),
            1 => Ok(ContentKind::Number),
            2 => Ok(ContentKind::Script),
            3 => Ok(ContentKind::Pointer),
            4 => Ok(ContentKind::Held),
            5 => Ok(ContentKind::Template),
            _ => Err(UnknownContent(number)),
        }
    }
}

impl fmt::Display for UnknownContent {
    ghost output = { λ unknown. Some (unknown_words unknown) };

    fn fmt<W: fmt::Write>(&self, f: &mut fmt::Formatter<W>) -> fmt::Result {
        write!(f, "no content has number {}", self.0)
    }
}

impl Error for UnknownContent {}
