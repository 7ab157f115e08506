//! The operands of conditions.

ghost use Rattle.std.specs.Prelude.{◌≡◌};
ghost use Rattle.dv_value.specs.Tree.{fields_of};
ghost use Rattle.dv_value.specs.View.{tree};
ghost use Rattle.dv_value.specs.Results.{Gives};
ghost use Rattle.dv_match.specs.declared.fault.FilterFault.TheVariants.{NoMemory as no_memory};
ghost use Rattle.std.specs.List.{list_any};
ghost use Rattle.dv_match.specs.Parsing as defined;

use crate::choices::Choices;
use crate::fault::FilterFault;
use crate::operator::takes_filters;
use dv_value::{Document, List, Value, begins_with_dollar};

/// Whether the document is an operator list: its first name begins with a dollar sign.
pub(crate) fn lists_operators(document: &Document) -> bool
    ensures { result ≡ defined.lists_operators (fields_of document.now) }
{
    match document.entry(0) {
        Some((name, _)) => begins_with_dollar(name),
        None => false,
    }
}

/// Whether the document is an operator list whose first name doesn't take filters.
pub(crate) fn lists_conditions(document: &Document) -> bool
    ensures { result ≡ defined.lists_conditions (fields_of document.now) }
{
    match document.entry(0) {
        Some((name, _)) => begins_with_dollar(name) && !takes_filters(name),
        None => false,
    }
}

/// Whether the value is an operator list.
fn is_operator_list(value: &Value) -> bool
    ensures { result ≡ defined.is_operator_list (tree value.now) }
{
    match value {
        Value::Doc(document) => lists_operators(document),
        _ => false,
    }
}

/// The values of an array.
#[tactic(auto, using(dv_value::specs::Inner::TreeLaws::elements_again))]
pub(crate) fn choices_of(value: &Value) -> Result<Choices, FilterFault>
    ensures { Gives no_memory (λ choices. choices) result (defined.values_in (tree value.now)) }
{
    match value {
        Value::Array(list) => Ok(Choices::of(list.try_clone()?)?),
        _ => Err(FilterFault::BadOperand),
    }
}

/// The values of an array, none of which is an operator list.
#[tactic(auto, using(dv_value::specs::Inner::TreeLaws::elements_again))]
pub(crate) fn plain_choices_of(value: &Value) -> Result<Choices, FilterFault>
    ensures { Gives no_memory (λ choices. choices) result (defined.plain_values (tree value.now)) }
{
    match value {
        Value::Array(list) => {
            if any_operator_list(list) {
                return Err(FilterFault::BadOperand);
            }
            Ok(Choices::of(list.try_clone()?)?)
        }
        _ => Err(FilterFault::BadOperand),
    }
}

fn any_operator_list(list: &List) -> bool
    ensures { result ≡ list_any defined.is_operator_list list.now }
{
    for value in list.as_slice() {
        if is_operator_list(value) {
            return true;
        }
    }
    false
}

/// A boolean, or a number, of which 0 is false.
pub(crate) fn truth_of(value: &Value) -> Result<bool, FilterFault>
    ensures { result ≡ defined.truth_in (tree value.now) }
{
    match value {
        Value::Bool(truth) => Ok(*truth),
        Value::Int32(number) => Ok(*number != 0),
        Value::Int64(number) => Ok(*number != 0),
        _ => Err(FilterFault::BadOperand),
    }
}

/// A number that isn't negative.
pub(crate) fn size_of(value: &Value) -> Result<u64, FilterFault>
    ensures { result ≡ defined.size_in (tree value.now) }
{
    match value {
        Value::Int32(number) => natural(i64::from(*number)),
        Value::Int64(number) => natural(*number),
        _ => Err(FilterFault::BadOperand),
    }
}

fn natural(number: i64) -> Result<u64, FilterFault>
    ensures { result ≡ defined.natural number }
{
    if number < 0 {
        Err(FilterFault::BadOperand)
    } else {
        Ok(number as u64)
    }
}
