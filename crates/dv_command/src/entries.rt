//! The entries of commands.

ghost use Rattle.std.specs.Prelude.{◌≡◌, is_some};
ghost use Rattle.dv_value.specs.View.{tree};
ghost use Rattle.dv_candidates.specs.Path as paths;
ghost use Rattle.dv_path.specs.SortSpec.{direction_of, direction_of_number};
ghost use Rattle.dv_command.specs.Forms.{or_bad_value};
ghost use Rattle.dv_command.specs.Entries as entries;
ghost use Rattle.dv_refusal.specs.Refusals.{UnlessWanting};
ghost use Rattle.dv_command.specs.Inner.View.{deletion_seen, index_seen, updating_seen};

use crate::asking::IndexAsked;
use crate::fields::{boolean_under, document_under, only_first_under, text_under, update_under};
use crate::forms::{filter_of, is_replacement, update_of};
use crate::rules::{FieldKind, FieldPlace, Rule, check_fields};
use dv_candidates::{Path, PathFault};
use dv_match::Filter;
use dv_refusal::Refusal;
use dv_update::Update;
use dv_value::{Document, Str, Value};
use std::alloc::Global;

/// The fields of an entry of a delete.
const DELETION_RULES: [Rule; 2] = [
    Rule("q", FieldKind::Document),
    Rule("limit", FieldKind::HowMany),
];

/// The fields of an entry of an update.
const UPDATING_RULES: [Rule; 4] = [
    Rule("q", FieldKind::Document),
    Rule("u", FieldKind::Update),
    Rule("multi", FieldKind::Boolean),
    Rule("upsert", FieldKind::OnlyFalse),
];

/// The fields of an entry of a createIndexes.
const INDEX_RULES: [Rule; 4] = [
    Rule("key", FieldKind::Single),
    Rule("name", FieldKind::Text),
    Rule("v", FieldKind::Anything),
    Rule("unique", FieldKind::Boolean),
];

/// What an entry of a delete asks for: the documents that match are removed.
#[derive(Drop)]
pub struct Deletion {
    pub filter: Filter,
    /// Whether only the first document that matches is removed.
    pub only_first: bool,
}

/// What an entry of a delete asks for, or the first refusal: for its fields in written order, for those that are missing
/// (`FailedToParse`), and for its filter (`BadValue`). It may be refused with `WantOfMemory` in place of any of these.
pub fn deletion_of(alloc: Global, entry: &Document) -> Result<Deletion, Refusal>
    ensures { UnlessWanting deletion_seen (entries.deletion_of entry.now) result }
{
    check_fields(FieldPlace::Entry, &DELETION_RULES, entry)?;
    let q = document_under(entry, "q")?;
    let only_first = only_first_under(entry, "limit")?;
    let filter = filter_of(alloc, q)?;
    Ok(Deletion { filter, only_first })
}

/// What an entry of an update asks for: the documents that match are updated.
#[derive(Drop)]
pub struct Updating {
    pub filter: Filter,
    pub update: Update,
    /// Whether all documents that match are updated, and not only the first.
    pub multi: bool,
}

/// What an entry of an update asks for, or the first refusal: for its fields in written order, for those that are missing
/// (`FailedToParse`), for a replacement of many (`FailedToParse`), for its filter (`BadValue`), and for its update. It may be
/// refused with `WantOfMemory` in place of any of these.
pub fn updating_of(alloc: Global, entry: &Document) -> Result<Updating, Refusal>
    ensures { UnlessWanting updating_seen (entries.updating_of entry.now) result }
{
    check_fields(FieldPlace::Entry, &UPDATING_RULES, entry)?;
    let q = document_under(entry, "q")?;
    let u = update_under(entry, "u")?;
    let multi = boolean_under(entry, "multi", false)?;
    check_multi(multi, u)?;
    let filter = filter_of(alloc, q)?;
    let update = update_of(alloc, u)?;
    Ok(Updating {
        filter,
        update,
        multi,
    })
}

/// Refuses a replacement of many documents with `FailedToParse`.
fn check_multi(multi: bool, update: &Document) -> Result<(), Refusal>
    ensures { result ≡ entries.check_multi multi update.now }
{
    if multi && is_replacement(update) {
        Err(Refusal::FailedToParse)
    } else {
        Ok(())
    }
}

/// How many bytes the name of an index may have.
const LONGEST_INDEX_NAME: usize = 120;

/// The index that an entry asks for, or the first refusal: for its fields in written order (`FailedToParse` for a key with more
/// than one field), for those that are missing (`FailedToParse`), for its key and its name (`BadValue`). It may be refused with
/// `WantOfMemory` in place of any of these.
pub(crate) fn index_of(alloc: Global, entry: &Document) -> Result<IndexAsked, Refusal>
    ensures { UnlessWanting index_seen (entries.index_asked entry.now) result }
{
    check_fields(FieldPlace::Entry, &INDEX_RULES, entry)?;
    let key = document_under(entry, "key")?;
    let name = text_under(entry, "name")?;
    let unique = boolean_under(entry, "unique", false)?;
    let path = key_path(alloc, key)?;
    check_index_name(name)?;
    Ok(IndexAsked {
        name: Str::of(String::from_str(alloc, name)?),
        path,
        unique,
    })
}

/// The path of a key's first field. Refused with `BadValue` if the key has no field, or if the first field's name is no path or its
/// value no direction; and with `WantOfMemory`.
fn key_path(alloc: Global, key: &Document) -> Result<Path, Refusal>
    ensures { UnlessWanting (λ path. path) (entries.key_path key.now) result }
{
    match key.entry(0) {
        Some((name, value)) if is_direction(value) => path_of(alloc, name),
        _ => Err(Refusal::BadValue),
    }
}

/// The path that a text is. Refused with `BadValue` if it is none, and with `WantOfMemory`.
fn path_of(alloc: Global, text: &str) -> Result<Path, Refusal>
    ensures { UnlessWanting (λ path. path) (or_bad_value (paths.path_of text.now)) result }
{
    match Path::parse(alloc, text) {
        Ok(path) => Ok(path),
        Err(PathFault::NoMemory) => Err(Refusal::WantOfMemory),
        Err(_) => Err(Refusal::BadValue),
    }
}

/// Whether the value is a direction: 1 or -1, of either width.
fn is_direction(value: &Value) -> bool
    ensures { result ≡ is_some (direction_of (tree value.now)) }
{
    match value {
        Value::Int32(number) => is_unit(i64::from(*number)),
        Value::Int64(number) => is_unit(*number),
        _ => false,
    }
}

/// Whether the number is 1 or -1.
fn is_unit(number: i64) -> bool
    ensures { result ≡ is_some (direction_of_number number) }
{
    matches!(number, 1 | -1)
}

/// Refuses the name of an index with `BadValue` if it is over 120 bytes.
fn check_index_name(name: &str) -> Result<(), Refusal>
    ensures { result ≡ entries.check_index_name name.now }
{
    if name.len() > LONGEST_INDEX_NAME {
        Err(Refusal::BadValue)
    } else {
        Ok(())
    }
}
