//! Parsing commands: what they ask for, or why they are refused.

ghost use Rattle.std.specs.Prelude.{◌≡◌};
ghost use Rattle.dv_command.specs.Asked as asking;
ghost use Rattle.dv_command.specs.Inner.View.{asked_seen};
ghost use Rattle.dv_command.specs.Lists.{is_alone};
ghost use Rattle.dv_refusal.specs.Refusals.{UnlessWanting};

use crate::asking::{Asked, WriteKind};
use crate::catalog::{create_indexes_of, create_of, drop_indexes_of, drop_of, view_stats_of};
use crate::command::{Command, DocumentLists};
use crate::fields::first_name;
use crate::namespaces::database;
use crate::reads::{aggregate_of, explain_of, find_of, get_more_of, kill_cursors_of};
use crate::statements::write_of;
use dv_refusal::Refusal;
use dv_value::Document;
use std::alloc::Global;

/// The name of a command.
#[derive(Clone, Copy)]
pub(crate) enum CommandName {
    /// Of a write, whose statements may be in a list next to its body.
    Writing(WriteKind),
    /// Of another command, which has no list of statements.
    Alone(AloneName),
}

/// The name of a command without a list of statements.
#[derive(Clone, Copy)]
pub(crate) enum AloneName {
    Hello,
    Ping,
    Find,
    Aggregate,
    GetMore,
    KillCursors,
    Create,
    Drop,
    CreateIndexes,
    DropIndexes,
    Explain,
    ViewStats,
}

/// What a command asks for, or the first refusal: for a document that can't be read (`InvalidBson`), for a command that doesn't
/// exist (`CommandNotFound`), for its database, for its other fields in written order, for a list of statements that is both in the
/// body and next to it, or next to a body whose command has no such list (`FailedToParse`), for fields that are missing, for its
/// collection's name, with `LimitReached` for over 100,000 statements, and for its filter and its sort (`BadValue`), the name that
/// its view reads (`BadValue`), its pipeline (`FailedToParse`, `BadValue` for a filter in it, `ConflictingUpdateOperators`,
/// `LimitReached` for over 16 stages), and its indexes. It may be refused with `WantOfMemory` in place of any of these.
pub fn parse(alloc: Global, command: &Command) -> Result<Asked<'_>, Refusal>
    ensures { UnlessWanting asked_seen (asking.asked_by command.now) result }
{
    match command {
        Command::Invalid(fault) => Err(Refusal::from(*fault)),
        Command::Sections { body, lists } => asked_under(alloc, first_name(body), body, lists),
    }
}

/// What the command of this name asks for. Refused with `CommandNotFound` if there is no such command.
fn asked_under<'a>(
    alloc: Global,
    name: &str,
    body: &'a Document,
    lists: &'a DocumentLists,
) -> Result<Asked<'a>, Refusal>
    ensures { UnlessWanting asked_seen (asking.asked_under name.now body.now lists.now) result }
{
    match command_named(name) {
        Some(CommandName::Writing(kind)) => write_of(alloc, kind, body, lists),
        Some(CommandName::Alone(name)) => asked_alone(alloc, name, body, lists),
        None => Err(Refusal::CommandNotFound),
    }
}

/// What the command of this name, which has no list of statements, asks for.
fn asked_alone<'a>(
    alloc: Global,
    name: AloneName,
    body: &'a Document,
    lists: &'a DocumentLists,
) -> Result<Asked<'a>, Refusal>
    ensures { UnlessWanting asked_seen (asking.asked_alone name body.now (is_alone lists.now)) result }
{
    match name {
        AloneName::Hello => hello_of(body),
        AloneName::Ping => ping_of(body),
        AloneName::Find => find_of(alloc, body, lists),
        AloneName::Aggregate => aggregate_of(alloc, body, lists),
        AloneName::GetMore => get_more_of(alloc, body, lists),
        AloneName::KillCursors => kill_cursors_of(alloc, body, lists),
        AloneName::Create => create_of(alloc, body, lists),
        AloneName::Drop => drop_of(alloc, body, lists),
        AloneName::CreateIndexes => create_indexes_of(alloc, body, lists),
        AloneName::DropIndexes => drop_indexes_of(alloc, body, lists),
        AloneName::Explain => explain_of(alloc, body, lists),
        AloneName::ViewStats => view_stats_of(alloc, body, lists),
    }
}

/// What a `hello` asks for. Refused as `parse` says.
fn hello_of(body: &Document) -> Result<Asked<'_>, Refusal>
    ensures { UnlessWanting asked_seen (asking.hello_of body.now) result }
{
    database(body)?;
    Ok(Asked::Hello)
}

/// What a `ping` asks for. Refused as `parse` says.
fn ping_of(body: &Document) -> Result<Asked<'_>, Refusal>
    ensures { UnlessWanting asked_seen (asking.ping_of body.now) result }
{
    database(body)?;
    Ok(Asked::Ping)
}

/// The command that a text names; `None` if there is no such command.
pub(crate) fn command_named(text: &str) -> Option<CommandName>
    ensures { result ≡ asking.command_named text.now }
{
    // By length, so that a text is compared with few names.
    match text.len() {
        4 => match text {
            "find" => Some(CommandName::Alone(AloneName::Find)),
            "ping" => Some(CommandName::Alone(AloneName::Ping)),
            "drop" => Some(CommandName::Alone(AloneName::Drop)),
            _ => None,
        },
        5 => match text {
            "hello" => Some(CommandName::Alone(AloneName::Hello)),
            _ => None,
        },
        6 => match text {
            "insert" => Some(CommandName::Writing(WriteKind::Insert)),
            "update" => Some(CommandName::Writing(WriteKind::Update)),
            "delete" => Some(CommandName::Writing(WriteKind::Delete)),
            "create" => Some(CommandName::Alone(AloneName::Create)),
            _ => None,
        },
        7 => match text {
            "getMore" => Some(CommandName::Alone(AloneName::GetMore)),
            "explain" => Some(CommandName::Alone(AloneName::Explain)),
            _ => None,
        },
        9 => match text {
            "aggregate" => Some(CommandName::Alone(AloneName::Aggregate)),
            "viewStats" => Some(CommandName::Alone(AloneName::ViewStats)),
            _ => None,
        },
        11 => match text {
            "killCursors" => Some(CommandName::Alone(AloneName::KillCursors)),
            "dropIndexes" => Some(CommandName::Alone(AloneName::DropIndexes)),
            _ => None,
        },
        13 => match text {
            "createIndexes" => Some(CommandName::Alone(AloneName::CreateIndexes)),
            _ => None,
        },
        _ => None,
    }
}
