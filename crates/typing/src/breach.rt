// The first breach of a job's commands.
ghost use Rattle.std.specs.Prelude.{◌≡◌, None, ◌≤◌, length, IfSome};
ghost use Rattle.layout.specs.Held.{in_use};
ghost use Rattle.layout.specs.Network.{network};
ghost use Rattle.typing.specs.Flow.{Flows};
ghost use Rattle.typing.specs.Typing.{Typed};
ghost use Rattle.typing.specs.Telling.{told, Broken, Judged};

use super::flow::{command_at, continuations, standing_after};
use commands::{CommandRule, Commands, Standing};
use meaning::Verb;
use order::Order;

// The command's row, from 0, and the lowest rule that it breaks.
#[derive(Clone, Copy, Debug, PartialEq, Eq)]
pub struct CommandBreach {
    pub row: usize,
    pub rule: CommandRule,
}

// Continuations are followed only where they are later commands, so this ends on any tables.
fn breach_from<O: Order>(
    commands: &Commands<'_, O>,
    standing: Standing,
    number: u32,
) -> Option<CommandBreach>
    ensures judged { Judged (O.below commands.now.order.now) (network commands.now.tables.now).plan standing number result }
{
    if number == 0 {
        return None;
    }
    let command = command_at(commands.tables, number);
    let Some(verb) = Verb::decode(command) else {
        return None;
    };
    if let Some(rule) = commands.broken(&standing, verb) {
        let row = number as usize - 1;
        return Some(CommandBreach { row, rule });
    }
    let (next, other) = continuations(number, command.next, verb);
    let after = standing_after(commands.tables, standing, verb);
    if let Some(breach) = breach_from(commands, after, next) {
        return Some(breach);
    }
    breach_from(commands, standing, other)
}

// The first breach from the command of this number on, held to the standing: the command, then all that follows it, then all
// that follows a fork's other. Any tables may be asked about; where they have shape, no command is asked about twice.
pub fn first_breach<O: Order>(
    commands: &Commands<'_, O>,
    standing: Standing,
    number: u32,
) -> Option<CommandBreach>
    ensures answer { result ≡ told (O.below commands.now.order.now) (network commands.now.tables.now).plan standing number }
    ensures stands { Flows (in_use commands.now.tables.now.commands) → number ≤ length (in_use commands.now.tables.now.commands) → result ≡ None → Typed (O.below commands.now.order.now) (network commands.now.tables.now).plan standing number }
    ensures untold { Typed (O.below commands.now.order.now) (network commands.now.tables.now).plan standing number → result ≡ None }
    ensures broken { IfSome result (Broken (O.below commands.now.order.now) (network commands.now.tables.now).plan standing number) }
{
    breach_from(commands, standing, number)
}
