// A listing under way.
ghost use Rattle.std.specs.Prelude.{◌≤◌};

use sheet::Reader;

// The reader, and how many lines it has handed out; each took a byte at least.
#[derive(Drop)]
pub struct Listing<'a> {
    pub(crate) reader: Reader<'a>,
    pub(crate) line: usize,
    ghost few: { line ≤ reader.place },
}
