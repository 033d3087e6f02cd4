// What the numbers of a row mean: contents, patterns, operands, verbs and directions as enums. A row that means nothing has a
// kind that does not exist, or a number other than 0 in a field that its kind does not use.
#![tactic(auto)]

mod contents;
mod directions;
mod kinds;
mod patterns;
mod verbs;

pub use contents::Content;
pub use directions::{Direction, UnknownDirection};
pub use kinds::{ContentKind, UnknownContent};
pub use patterns::Pattern;
pub use verbs::{Operand, Verb};
