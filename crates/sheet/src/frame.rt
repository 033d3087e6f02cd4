// The reader. Its bounds are ghost fields, so that no method has to ask for them.
ghost use Rattle.std.specs.Prelude.{◌≡◌, ◌≤◌, length};

use super::kinds::LineKind;

// How far the reader may go, and the kind of the last line that it handed out; none before the first.
#[derive(Clone, Copy, Debug, PartialEq, Eq)]
pub struct Frame {
    pub end: usize,
    pub last_kind: Option<LineKind>,
}

#[derive(Drop)]
pub struct Reader<'a> {
    pub(crate) sheet: &'a [u8],
    pub(crate) place: usize,
    pub(crate) frame: Frame,
    ghost ordered: { place ≤ frame.end },
    ghost inside: { frame.end ≤ length sheet.now },
}

impl Reader<'_> {
    // The kind of the last line that was handed out; none before the first.
    pub fn last_kind(&self) -> Option<LineKind>
        ensures answer { result ≡ self.now.frame.last_kind }
    {
        self.frame.last_kind
    }
}
