//! The fields of commands and of their entries, by their names.

ghost use Rattle.std.specs.Option.{option_map};
ghost use Rattle.std.specs.Prelude.{◌≡◌, [], Some, None, MatchResult};
ghost use Rattle.dv_value.specs.Names.{value_under};
ghost use Rattle.dv_value.specs.View.{tree};
ghost use Rattle.dv_command.specs.Fields as defined;
ghost use Rattle.dv_refusal.specs.Refusals.{Returns, UnlessWanting};
ghost use Rattle.dv_refusal.specs.declared.refusal.Refusal.TheVariants.{FailedToParse};

use crate::documents::Documents;
use crate::values::{
    array_of, boolean_of, document_of, documents_of, integer_of, integers_of, natural_of,
    only_first_of, text_of, update_of,
};
use dv_refusal::Refusal;
use dv_value::{Document, List, Value};
use std::alloc::Global;

/// The usual place of a command's own field, and of the main field of an entry.
pub(crate) const FIRST: usize = 0;

/// The usual place of what a command or an entry says besides its first field.
pub(crate) const SECOND: usize = 1;

/// The first name of fields, which in a body is the command; empty if there is none.
pub fn first_name(fields: &Document) -> &str
    ensures { result.now ≡ defined.first_name fields.now }
{
    match fields.entry(0) {
        Some((name, _)) => name,
        None => "",
    }
}

/// The value under a name, if there is one. The field at `place`, where it mostly is, is checked first: so mostly it is found
/// without a search.
pub(crate) fn value_near<'a>(fields: &'a Document, place: usize, name: &str) -> Option<&'a Value>
    ensures { option_map (λ value. tree value.now) result ≡ value_under name.now fields.now }
{
    // No two fields have one name.
    fields.law_named();
    match fields.entry(place) {
        Some((there, value)) if name == there => Some(value),
        _ => fields.get(name),
    }
}

/// The value under a name, which is mostly at a place. Refused with `FailedToParse` if there is no field of the name.
fn required<'a>(fields: &'a Document, place: usize, name: &str) -> Result<&'a Value, Refusal>
    ensures { MatchResult result (λ value. value_under name.now fields.now ≡ Some (tree value.now))
        (λ refusal. (value_under name.now fields.now ≡ None) × (refusal ≡ FailedToParse)) }
{
    value_near(fields, place, name).ok_or(Refusal::FailedToParse)
}

/// The text under a name. Refused with `FailedToParse` if there is no field of the name, and with `TypeMismatch` if there is
/// another value.
pub(crate) fn text_under<'a>(fields: &'a Document, name: &str) -> Result<&'a str, Refusal>
    ensures { Returns (λ text. text.now) (defined.text_under name.now fields.now) result }
{
    text_of(required(fields, FIRST, name)?)
}

/// The boolean under a name, or `default` if there is no field of the name. Refused with `TypeMismatch` if there is another value.
pub(crate) fn boolean_under(fields: &Document, name: &str, default: bool) -> Result<bool, Refusal>
    ensures { result ≡ defined.boolean_under name.now default fields.now }
{
    fields.get(name).map_or(Ok(default), boolean_of)
}

/// The integer from 0 under a name, or `default` if there is no field of the name. Refused with `TypeMismatch` if there is a value
/// of another type, and with `BadValue` if there is a negative integer.
pub(crate) fn natural_under(fields: &Document, name: &str, default: u64) -> Result<u64, Refusal>
    ensures { result ≡ defined.natural_under name.now default fields.now }
{
    fields.get(name).map_or(Ok(default), natural_of)
}

/// The integer under a name, of either width. Refused with `FailedToParse` if there is no field of the name, and with
/// `TypeMismatch` if there is another value.
pub(crate) fn integer_under(fields: &Document, name: &str) -> Result<i64, Refusal>
    ensures { result ≡ defined.integer_under name.now fields.now }
{
    integer_of(required(fields, FIRST, name)?)
}

/// The integers in the array under a name, of either width. Refused with `FailedToParse` if there is no field of the name, with
/// `TypeMismatch` if there is another value, or an array with another value in it, and with `WantOfMemory`.
pub(crate) fn integers_under(
    alloc: Global,
    fields: &Document,
    name: &str,
) -> Result<Vec<i64>, Refusal>
    ensures { UnlessWanting (λ integers. integers.items) (defined.integers_under name.now fields.now) result }
{
    integers_of(alloc, array_under(fields, name)?.as_slice())
}

/// The document under a name. Refused with `FailedToParse` if there is no field of the name, and with `TypeMismatch` if there is
/// another value.
pub(crate) fn document_under<'a>(fields: &'a Document, name: &str) -> Result<&'a Document, Refusal>
    ensures { Returns (λ document. document.now) (defined.document_under name.now fields.now) result }
{
    document_of(required(fields, FIRST, name)?)
}

/// The document under a name, or `default` if there is no field of the name. Refused with `TypeMismatch` if there is another value.
pub(crate) fn document_or<'a>(
    fields: &'a Document,
    name: &str,
    default: &'a Document,
) -> Result<&'a Document, Refusal>
    requires { default.now ≡ [] }
    ensures { Returns (λ document. document.now) (defined.document_or_none name.now fields.now) result }
{
    match value_near(fields, SECOND, name) {
        None => Ok(default),
        Some(value) => document_of(value),
    }
}

/// The documents in the array under a name. Refused with `FailedToParse` if there is no field of the name, and with `TypeMismatch`
/// if there is another value, or an array with another value in it.
pub(crate) fn documents_under<'a>(
    fields: &'a Document,
    name: &str,
) -> Result<Documents<'a>, Refusal>
    ensures { Returns (λ documents. documents) (defined.documents_under name.now fields.now) result }
{
    documents_of(required(fields, SECOND, name)?)
}

/// The list of the array under a name. Refused with `FailedToParse` if there is no field of the name, and with `TypeMismatch` if
/// there is another value.
pub(crate) fn array_under<'a>(fields: &'a Document, name: &str) -> Result<&'a List, Refusal>
    ensures { Returns (λ list. list.now) (defined.array_under name.now fields.now) result }
{
    array_of(required(fields, SECOND, name)?)
}

/// Whether a statement deletes only the first document, by the value under a name: 1, and not 0. Refused with `FailedToParse` if
/// there is no field of the name, with `TypeMismatch` if there is another value than an integer, and with `BadValue` if there is
/// another integer.
pub(crate) fn only_first_under(fields: &Document, name: &str) -> Result<bool, Refusal>
    ensures { result ≡ defined.only_first_under name.now fields.now }
{
    only_first_of(required(fields, SECOND, name)?)
}

/// The document of an update under a name. Refused with `FailedToParse` if there is no field of the name, or an array under it, and
/// with `TypeMismatch` if there is another value.
pub(crate) fn update_under<'a>(fields: &'a Document, name: &str) -> Result<&'a Document, Refusal>
    ensures { Returns (λ document. document.now) (defined.update_under name.now fields.now) result }
{
    update_of(required(fields, SECOND, name)?)
}
