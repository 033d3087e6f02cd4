// What stands between two lines of input.
use super::holding::Holding;
use answer::Answer;
use drawn::Drawn;
use rights::Rights;
use words::Sheet;

// The order in force. An order's COUNT and TOP are constants of its type, so it is no `dyn`, and nothing compares or prints it.
#[derive(Clone, Copy)]
pub enum Standing {
    Drawn(Drawn),
    Rights(Rights),
}

// The tables are the host's, and are lent from call to call. What the session has of a network can be neither copied nor dropped,
// so a session is moved from line to line.
pub struct Session {
    pub(crate) order: Standing,
    pub(crate) holding: Holding,
}

// What a line of input calls for.
#[derive(Drop)]
pub enum Reply {
    Answered(Answer),
    // This sheet is to be listed.
    List(Sheet),
    // This sheet is to be loaded.
    Load(Sheet),
    // The tables are to be written out.
    Dump,
}
