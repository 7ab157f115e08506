//! Commands of statements.

ghost use Rattle.std.specs.Prelude.{◌≡◌, map};
ghost use Rattle.dv_command.specs.Asked as asking;
ghost use Rattle.dv_command.specs.Inner.RulesView.{rule_seen};
ghost use Rattle.dv_command.specs.Inner.View.{asked_seen};
ghost use Rattle.dv_command.specs.Tables as tables;
ghost use Rattle.dv_refusal.specs.Refusals.{UnlessWanting};

use crate::asking::{Asked, Write, WriteKind};
use crate::checked::{DATABASE, looked_database};
use crate::command::DocumentLists;
use crate::fields::{boolean_under, text_under};
use crate::lists::{check_only, documents_under};
use crate::namespaces::namespace;
use crate::rules::{FieldKind, Rule};
use dv_refusal::Refusal;
use dv_value::Document;
use std::alloc::Global;

/// How many statements a command may have.
pub(crate) const STATEMENT_LIMIT: usize = 100_000;

impl WriteKind {
    /// The name of its command.
    fn name(self) -> &'static str
        ensures { result.now ≡ asking.write_name self }
    {
        match self {
            WriteKind::Insert => "insert",
            WriteKind::Update => "update",
            WriteKind::Delete => "delete",
        }
    }

    /// The name of the list of its statements.
    pub(crate) fn statements_name(self) -> &'static str
        ensures { result.now ≡ asking.statements_name self }
    {
        match self {
            WriteKind::Insert => "documents",
            WriteKind::Update => "updates",
            WriteKind::Delete => "deletes",
        }
    }
}

/// What a write asks for.
pub(crate) fn write_of<'a>(
    alloc: Global,
    kind: WriteKind,
    body: &'a Document,
    lists: &'a DocumentLists,
) -> Result<Asked<'a>, Refusal>
    ensures { UnlessWanting asked_seen (asking.write_of kind body.now lists.now) result }
{
    let (command, list) = (kind.name(), kind.statements_name());
    let database = looked_database(&write_rules(command, list), body)?;
    check_only(list, lists)?;
    let collection = text_under(body, command)?;
    let entries = documents_under(list, body, lists)?;
    let ordered = boolean_under(body, "ordered", true)?;
    let namespace = namespace(alloc, database, collection)?;
    if entries.len() > STATEMENT_LIMIT {
        return Err(Refusal::LimitReached);
    }
    Ok(Asked::Write(Write {
        kind,
        namespace,
        entries,
        ordered,
    }))
}

/// The fields of a write, by the names of its command and of the list of its statements.
fn write_rules(command: &'static str, list: &'static str) -> [Rule; 4]
    ensures { map rule_seen result ≡ tables.write_table command.now list.now }
{
    [
        DATABASE,
        Rule(command, FieldKind::Text),
        Rule(list, FieldKind::Documents),
        Rule("ordered", FieldKind::Boolean),
    ]
}
