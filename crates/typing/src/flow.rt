// How commands follow one another, and what the next is held to.
ghost use Rattle.std.specs.Prelude.{◌≡◌};
ghost use Rattle.layout.specs.Network.{network};
ghost use Rattle.typing.specs.Flow.{command_at, other_of, policy_or, standing_after};
ghost use Rattle.typing.specs.Telling.{later};

use commands::Standing;
use layout::Tables;
use meaning::Verb;
use rows::CommandRow;
use slots::{destination, filled};

// The command of a number, from 1; 0 and a number that is not there give a row of zeros.
pub fn command_at(tables: &Tables, number: u32) -> CommandRow
    ensures answer { result ≡ command_at (network tables.now).plan number }
{
    let row = (number as usize).wrapping_sub(1);
    tables
        .commands
        .in_use()
        .get(row)
        .copied()
        .unwrap_or_default()
}

// A fork's other continuation; 0 stands for none.
fn other_of(verb: Verb) -> u32
    ensures answer { result ≡ other_of verb }
{
    match verb {
        Verb::Fork { other } => other,
        _ => 0,
    }
}

// The continuation of the command, if it is a later one; else none.
fn later(number: u32, to: u32) -> u32
    ensures answer { result ≡ later number to }
{
    if number < to { to } else { 0 }
}

// The commands that follow: next, then a fork's other; 0 where none does.
pub(crate) fn continuations(number: u32, next: u32, verb: Verb) -> (u32, u32)
    ensures answer { result ≡ (later number next, later number (other_of verb)) }
{
    (later(number, next), later(number, other_of(verb)))
}

// What the next command is held to.
pub(crate) fn standing_after(tables: &Tables, standing: Standing, verb: Verb) -> Standing
    ensures answer { result ≡ standing_after (network tables.now).plan standing verb }
{
    let patterns = tables.patterns.in_use();
    let slots = standing.slots;
    match verb {
        Verb::Go { location, roles } => {
            let entered = destination(tables.locations.in_use(), patterns, &slots, location);
            Standing {
                policy: entered.unwrap_or(standing.policy),
                roles,
                slots,
            }
        }
        Verb::Read { pattern, .. } => Standing {
            policy: standing.policy,
            roles: standing.roles,
            slots: filled(patterns, slots, pattern),
        },
        _ => standing,
    }
}
