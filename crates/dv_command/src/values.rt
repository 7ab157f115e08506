//! What the value of a field is, if it has the required type.

ghost use Rattle.std.specs.Prelude.{◌≡◌, map};
ghost use Rattle.dv_value.specs.View.{tree};
ghost use Rattle.dv_command.specs.Fields as defined;
ghost use Rattle.dv_refusal.specs.Refusals.{Returns, UnlessWanting};
ghost use Rattle.dv_value.specs.Results.{each};

use crate::documents::Documents;
use dv_refusal::Refusal;
use dv_value::{Document, List, Value};
use std::alloc::Global;

/// The text that a value is. Refused with `TypeMismatch` if it is another value.
pub(crate) fn text_of(value: &Value) -> Result<&str, Refusal>
    ensures { Returns (λ text. text.now) (defined.text_field (tree value.now)) result }
{
    match value {
        Value::Text(text) => Ok(text.as_str()),
        _ => Err(Refusal::TypeMismatch),
    }
}

/// The boolean that a value is. Refused with `TypeMismatch` if it is another value.
pub(crate) fn boolean_of(value: &Value) -> Result<bool, Refusal>
    ensures { result ≡ defined.boolean_in (tree value.now) }
{
    match value {
        Value::Bool(truth) => Ok(*truth),
        _ => Err(Refusal::TypeMismatch),
    }
}

/// The document that a value is. Refused with `TypeMismatch` if it is another value.
#[tactic(auto, using(dv_value::specs::Inner::TreeLaws::fields_again))]
pub(crate) fn document_of(value: &Value) -> Result<&Document, Refusal>
    ensures { Returns (λ document. document.now) (defined.document_in (tree value.now)) result }
{
    match value {
        Value::Doc(document) => Ok(document),
        _ => Err(Refusal::TypeMismatch),
    }
}

/// The documents of the array that a value is. Refused with `TypeMismatch` if it is another value, or an array with another value
/// in it.
pub(crate) fn documents_of(value: &Value) -> Result<Documents<'_>, Refusal>
    ensures { Returns (λ documents. documents) (defined.documents_in (tree value.now)) result }
{
    match value {
        Value::Array(list) => Documents::of(list),
        _ => Err(Refusal::TypeMismatch),
    }
}

/// The list that an array is. Refused with `TypeMismatch` if it is another value.
#[tactic(auto, using(dv_value::specs::Inner::TreeLaws::elements_again))]
pub(crate) fn array_of(value: &Value) -> Result<&List, Refusal>
    ensures { Returns (λ list. list.now) (defined.array_field (tree value.now)) result }
{
    match value {
        Value::Array(list) => Ok(list),
        _ => Err(Refusal::TypeMismatch),
    }
}

/// The integer that a value is, of either width. Refused with `TypeMismatch` if it is another value.
pub(crate) fn integer_of(value: &Value) -> Result<i64, Refusal>
    ensures { result ≡ defined.integer_in (tree value.now) }
{
    match value {
        Value::Int32(number) => Ok(i64::from(*number)),
        Value::Int64(number) => Ok(*number),
        _ => Err(Refusal::TypeMismatch),
    }
}

/// The integers that values are, of either width. Refused with `TypeMismatch` if another value is among them, and with
/// `WantOfMemory`.
pub(crate) fn integers_of(alloc: Global, values: &[Value]) -> Result<Vec<i64>, Refusal>
    ensures { UnlessWanting (λ integers. integers.items) (each defined.integer_in (map tree values.now)) result }
{
    let mut integers = Vec::with_capacity(alloc, values.len())?;
    'values: for value in values {
        integers.push(integer_of(value)?)?;
    }
    Ok(integers)
}

/// The integer from 0 that a value is, of either width. Refused with `TypeMismatch` if it is another value, and with `BadValue` if
/// it is a negative integer.
pub(crate) fn natural_of(value: &Value) -> Result<u64, Refusal>
    ensures { result ≡ defined.natural_in (tree value.now) }
{
    let number = integer_of(value)?;
    u64::try_from(number).map_err(|_| Refusal::BadValue)
}

/// Whether a statement deletes only the first document: a value 1, and not 0, of either width. Refused with `TypeMismatch` if the
/// value is no integer, and with `BadValue` if it is another one.
pub(crate) fn only_first_of(value: &Value) -> Result<bool, Refusal>
    ensures { result ≡ defined.only_first_in (tree value.now) }
{
    match integer_of(value)? {
        1 => Ok(true),
        0 => Ok(false),
        _ => Err(Refusal::BadValue),
    }
}

/// The document of an update that a value is. Refused with `FailedToParse` if it is an array, and with `TypeMismatch` if it is
/// another value.
#[tactic(auto, using(dv_value::specs::Inner::TreeLaws::fields_again))]
pub(crate) fn update_of(value: &Value) -> Result<&Document, Refusal>
    ensures { Returns (λ document. document.now) (defined.update_in (tree value.now)) result }
{
    match value {
        Value::Doc(document) => Ok(document),
        Value::Array(_) => Err(Refusal::FailedToParse),
        _ => Err(Refusal::TypeMismatch),
    }
}
