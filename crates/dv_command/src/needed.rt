//! How much of the lists next to its body a command needs.

ghost use Rattle.std.specs.Prelude.{◌≡◌};
ghost use Rattle.dv_command.specs.Inner.Needed as defined;

use crate::parsing::{CommandName, command_named};
use crate::statements::STATEMENT_LIMIT;

/// How many documents the command named `command` needs of the list named `list` next to its body; the other documents don't change
/// what it asks for. Of the list of its statements it needs as many as it may have, and one more, for which it is refused; of any
/// other list it needs none.
#[tactic(auto, unfolding(crate::specs::Inner::Needed::needed_of))]
pub fn documents_needed(command: &str, list: &str) -> usize
    ensures { result ≡ defined.needed_of command.now list.now }
{
    match command_named(command) {
        Some(CommandName::Writing(kind)) => statements_needed(kind.statements_name(), list),
        _ => 0,
    }
}

/// The same for a command whose list of statements has this name.
fn statements_needed(statements: &str, list: &str) -> usize
    ensures { result ≡ defined.statements_needed statements.now list.now }
{
    if statements == list {
        STATEMENT_LIMIT + 1
    } else {
        0
    }
}
