//! The operands of operators.

ghost use Rattle.dv_value.specs.Tree.{document as doc, fields_of};
ghost use Rattle.dv_value.specs.View.{tree};
ghost use Rattle.dv_value.specs.Results.{Gives};
ghost use Rattle.dv_update.specs.declared.fault.UpdateFault.TheVariants.{NoMemory as no_memory};
ghost use Rattle.dv_update.specs.Parsing as defined;
ghost use Rattle.dv_update.specs.View.{operation};

use crate::fault::UpdateFault;
use crate::form::{Operation, Pulled};
use crate::number::Number;
use crate::operator::Operator;
use crate::parsing::lists_operators;
use dv_match::Test;
use dv_value::{Document, List, Value};
use std::alloc::Global;

/// What an operator does with this operand.
pub(crate) fn operation_of(
    alloc: Global,
    operator: Operator,
    operand: &Value,
) -> Result<Operation, UpdateFault>
    ensures { Gives no_memory operation result (defined.operation_by operator (tree operand.now)) }
{
    match operator {
        Operator::Set => Ok(Operation::Set(operand.try_clone()?)),
        Operator::Unset => Ok(Operation::Unset),
        Operator::Inc => number_to_add(operand),
        Operator::Push => values_to_push(alloc, operand),
        Operator::Pull => values_to_pull(alloc, operand),
    }
}

fn number_to_add(operand: &Value) -> Result<Operation, UpdateFault>
    ensures { Gives no_memory operation result (defined.number_to_add (tree operand.now)) }
{
    match operand {
        Value::Int32(number) => Ok(Operation::Inc(Number::Int32(*number))),
        Value::Int64(number) => Ok(Operation::Inc(Number::Int64(*number))),
        _ => Err(UpdateFault::NotNumber),
    }
}

/// A value to push, or the members of `$each`.
fn values_to_push(alloc: Global, operand: &Value) -> Result<Operation, UpdateFault>
    ensures { Gives no_memory operation result (defined.values_to_push (tree operand.now)) }
{
    match operand {
        Value::Doc(document) => {
            if lists_operators(document) {
                members_of_each(document)
            } else {
                one_value(alloc, operand)
            }
        }
        _ => one_value(alloc, operand),
    }
}

fn one_value(alloc: Global, value: &Value) -> Result<Operation, UpdateFault>
    ensures { Gives no_memory operation result (defined.one_value (tree value.now)) }
{
    let mut values = Vec::new(alloc);
    values.push(value.try_clone()?)?;
    Ok(Operation::Push(List::of(values)))
}

/// The members of `$each`, which must be the only field.
fn members_of_each(document: &Document) -> Result<Operation, UpdateFault>
    ensures { Gives no_memory operation result (defined.each_alone (fields_of document.now)) }
{
    match document.entry(0) {
        Some((name, operand)) if document.len() == 1 && name == "$each" => members(operand),
        _ => Err(UpdateFault::UnknownOperator),
    }
}

#[tactic(auto, using(dv_value::specs::Inner::TreeLaws::elements_again))]
fn members(operand: &Value) -> Result<Operation, UpdateFault>
    ensures { Gives no_memory operation result (defined.members (tree operand.now)) }
{
    match operand {
        Value::Array(list) => Ok(Operation::Push(list.try_clone()?)),
        _ => Err(UpdateFault::BadOperand),
    }
}

/// A condition on the elements to remove, or a value that they equal.
fn values_to_pull(alloc: Global, operand: &Value) -> Result<Operation, UpdateFault>
    ensures { Gives no_memory operation result (defined.values_to_pull (tree operand.now)) }
{
    match operand {
        Value::Doc(document) => passing(alloc, document),
        _ => Ok(Operation::Pull(Pulled::Equal(operand.try_clone()?))),
    }
}

fn passing(alloc: Global, document: &Document) -> Result<Operation, UpdateFault>
    ensures { Gives no_memory operation result (defined.values_to_pull (doc (fields_of document.now))) }
{
    Ok(Operation::Pull(Pulled::Passing(Test::parse(alloc, document)?)))
}
