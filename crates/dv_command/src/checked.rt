//! The database of a command, whose fields are checked.

ghost use Rattle.std.specs.Prelude.{map};
ghost use Rattle.dv_command.specs.Asked as asking;
ghost use Rattle.dv_command.specs.Inner.RulesView.{rule_seen};
ghost use Rattle.dv_command.specs.Lists.{is_alone};
ghost use Rattle.dv_refusal.specs.Refusals.{Returns};

use crate::command::DocumentLists;
use crate::lists::check_alone;
use crate::namespaces::database;
use crate::rules::{FieldKind, FieldPlace, Rule, check_fields};
use dv_refusal::Refusal;
use dv_value::Document;

/// The field of a command's database, which is checked separately.
pub(crate) const DATABASE: Rule = Rule("$db", FieldKind::Anything);

/// The database of a command, whose fields are checked.
pub(crate) fn looked_database<'a>(rules: &[Rule], body: &'a Document) -> Result<&'a str, Refusal>
    ensures { Returns (λ name. name.now) (asking.looked_database (map rule_seen rules.now) body.now) result }
{
    let database = database(body)?;
    check_fields(FieldPlace::Command, rules, body)?;
    Ok(database)
}

/// The database of a command that may have no list next to its body. Its fields, and the lists next to it, are checked.
pub(crate) fn checked_database<'a>(
    rules: &[Rule],
    body: &'a Document,
    lists: &DocumentLists,
) -> Result<&'a str, Refusal>
    ensures { Returns (λ name. name.now) (asking.checked_database (map rule_seen rules.now) body.now (is_alone lists.now)) result }
{
    let database = looked_database(rules, body)?;
    check_alone(lists)?;
    Ok(database)
}
