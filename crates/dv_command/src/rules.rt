//! Which fields there may be in a command and in its entries, and what they hold.

ghost use Rattle.std.specs.Prelude.{◌≡◌, map};
ghost use Rattle.std.specs.List.{list_all};
ghost use Rattle.std.specs.Option.{option_map};
ghost use Rattle.dv_value.specs.View.{tree};
ghost use Rattle.dv_command.specs.Inner.DocumentsView.{is_integer};
ghost use Rattle.dv_command.specs.Fields as defined;
ghost use Rattle.dv_command.specs.Kinds as kinds;
ghost use Rattle.dv_command.specs.Inner.RulesView.{kind_seen, place_seen, rule_seen};

use crate::values::{
    array_of, boolean_of, document_of, documents_of, integer_of, natural_of, only_first_of,
    text_of, update_of,
};
use dv_refusal::Refusal;
use dv_value::{Document, Value};

/// Where fields are.
#[derive(Clone, Copy)]
pub(crate) enum FieldPlace {
    /// In a command, in which some are ignored.
    Command,
    /// In an entry of its list.
    Entry,
}

/// What the value of a field has to be.
#[derive(Clone, Copy)]
pub(crate) enum FieldKind {
    Anything,
    Text,
    Boolean,
    Document,
    /// An array of documents.
    Documents,
    Array,
    /// An integer of either width.
    Integer,
    /// An array of integers of either width.
    Integers,
    /// An integer of either width, from 0.
    Natural,
    /// How many documents a statement deletes: 0 for all that match, 1 for the first.
    HowMany,
    /// An update; a list of stages isn't supported.
    Update,
    /// A boolean; only false is supported.
    OnlyFalse,
    /// A document without fields; nothing else is supported.
    EmptyDocument,
    /// A document with one field at most; more aren't supported.
    Single,
    /// The options of a cursor: a document that may say how many rows there are in a batch.
    Cursor,
}

/// A field that there may be: its name, and what its value has to be.
#[derive(Clone, Copy)]
pub(crate) struct Rule(pub &'static str, pub FieldKind);

/// Checks fields in written order. Refuses the first one that is unknown (`FailedToParse`) or has a value of another kind:
/// `TypeMismatch` if the value is of another type, `BadValue` if it is a number that isn't allowed, and `FailedToParse` if it isn't
/// supported: a value that has to be an empty document, or false, and isn't, an array as an update, or a field that a key or a
/// cursor can't have.
pub(crate) fn check_fields(
    place: FieldPlace,
    rules: &[Rule],
    document: &Document,
) -> Result<(), Refusal>
    ensures { result ≡ defined.check_fields (place_seen place) (map rule_seen rules.now) document.now }
{
    'fields: for (name, value) in document.iter() {
        check_field(place, rules, name, value)?;
    }
    Ok(())
}

/// Checks one field.
fn check_field(place: FieldPlace, rules: &[Rule], name: &str, value: &Value) -> Result<(), Refusal>
    ensures { result ≡ defined.check_field (place_seen place) (map rule_seen rules.now) (name.now, tree value.now) }
{
    if is_ignored(place, name) {
        return Ok(());
    }
    match kind_in(rules, name) {
        Some(kind) => check_value(kind, value),
        None => Err(Refusal::FailedToParse),
    }
}

/// Whether a field of the name is ignored, whatever it holds: some are in every command.
fn is_ignored(place: FieldPlace, name: &str) -> bool
    ensures { result ≡ defined.is_ignored (place_seen place) name.now }
{
    match place {
        FieldPlace::Command => is_ignored_in_commands(name),
        FieldPlace::Entry => false,
    }
}

fn is_ignored_in_commands(name: &str) -> bool
    ensures { result ≡ defined.is_listed_name name.now defined.ignored_names }
{
    // By length, so that a name is compared with few others.
    match name.len() {
        4 => name == "lsid",
        7 => name == "comment",
        9 => matches!(name, "maxTimeMS" | "apiStrict"),
        10 => name == "apiVersion",
        11 => name == "readConcern",
        12 => matches!(name, "$clusterTime" | "writeConcern"),
        15 => name == "$readPreference",
        20 => name == "apiDeprecationErrors",
        24 => name == "bypassDocumentValidation",
        _ => false,
    }
}

/// What the rules say of a field of the name; `None` if there is no such field.
fn kind_in(rules: &[Rule], name: &str) -> Option<FieldKind>
    ensures { option_map kind_seen result ≡ defined.kind_in (map rule_seen rules.now) name.now }
{
    'rules: for rule in rules {
        if name == rule.0 {
            return Some(rule.1);
        }
    }
    None
}

/// Checks a value that has to be of the kind.
fn check_value(kind: FieldKind, value: &Value) -> Result<(), Refusal>
    ensures { result ≡ defined.check_value (kind_seen kind) (tree value.now) }
{
    match kind {
        FieldKind::Anything => Ok(()),
        FieldKind::Text => text_of(value).map(|_| ()),
        FieldKind::Boolean => boolean_of(value).map(|_| ()),
        FieldKind::Document => document_of(value).map(|_| ()),
        FieldKind::Documents => documents_of(value).map(|_| ()),
        FieldKind::Array => array_of(value).map(|_| ()),
        FieldKind::Integer => integer_of(value).map(|_| ()),
        FieldKind::Integers => check_integers(value),
        FieldKind::Natural => natural_of(value).map(|_| ()),
        FieldKind::HowMany => only_first_of(value).map(|_| ()),
        FieldKind::Update => update_of(value).map(|_| ()),
        FieldKind::OnlyFalse => check_false(value),
        FieldKind::EmptyDocument => check_empty(value),
        FieldKind::Single => check_single(document_of(value)?),
        FieldKind::Cursor => check_cursor(document_of(value)?),
    }
}

/// Checks a value that may only be false.
fn check_false(value: &Value) -> Result<(), Refusal>
    ensures { result ≡ defined.check_value kinds.only_false (tree value.now) }
{
    if boolean_of(value)? {
        Err(Refusal::FailedToParse)
    } else {
        Ok(())
    }
}

/// Checks a value that may only be a document without fields.
#[tactic(auto, using(crate::proofs::Checks::some_fields))]
fn check_empty(value: &Value) -> Result<(), Refusal>
    ensures { result ≡ defined.check_empty (tree value.now) }
{
    match value {
        Value::Doc(document) if document.is_empty() => Ok(()),
        _ => Err(Refusal::FailedToParse),
    }
}

/// Checks an array that may only hold integers.
fn check_integers(value: &Value) -> Result<(), Refusal>
    ensures { result ≡ defined.check_value kinds.integers (tree value.now) }
{
    if are_integers(array_of(value)?.as_slice()) {
        Ok(())
    } else {
        Err(Refusal::TypeMismatch)
    }
}

/// Whether all values are integers, of either width.
fn are_integers(values: &[Value]) -> bool
    ensures { result ≡ list_all is_integer values.now }
{
    values
        .iter()
        .all(|value| matches!(value, Value::Int32(_) | Value::Int64(_)))
}

/// Checks fields of which there may be one at most.
#[tactic(auto, using(crate::proofs::Checks::several_fields))]
fn check_single(fields: &Document) -> Result<(), Refusal>
    ensures { result ≡ defined.check_single fields.now }
{
    if fields.len() <= 1 {
        Ok(())
    } else {
        Err(Refusal::FailedToParse)
    }
}

/// Checks the options of a cursor: there may be one, the number of rows in a batch.
fn check_cursor(fields: &Document) -> Result<(), Refusal>
    ensures { result ≡ defined.check_cursor fields.now }
{
    if let Some((name, value)) = fields.entry(0) {
        check_batch_size(name, value)?;
    }
    check_single(fields)
}

/// Checks a field that may only be the number of rows in a batch.
fn check_batch_size(name: &str, value: &Value) -> Result<(), Refusal>
    ensures { result ≡ defined.check_batch_size (name.now, tree value.now) }
{
    if name == "batchSize" {
        natural_of(value).map(|_| ())
    } else {
        Err(Refusal::FailedToParse)
    }
}
