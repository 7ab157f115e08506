//! What operators do where their paths lead.

ghost use Rattle.std.specs.Prelude.{◌≡◌, ◌++◌, true, IfOk};
ghost use Rattle.std.specs.List.{list_any};
ghost use Rattle.dv_value.specs.View.{tree};
ghost use Rattle.dv_value.specs.Results.{Gives};
ghost use Rattle.dv_update.specs.declared.fault.UpdateFault.TheVariants.{NoMemory as no_memory};
ghost use Rattle.dv_path.specs.SlotView.{slot_seen};
ghost use Rattle.dv_update.specs.Apply as defined;
ghost use Rattle.dv_update.specs.View.{operation, pulled as which};

use crate::fault::UpdateFault;
use crate::form::{Edit, Operation, Pulled};
use crate::number::Number;
use dv_candidates::Path;
use dv_order::{compare, is_same};
use dv_path::{Slot, put_at, remove_at, slot_at};
use dv_value::{Document, List, NoMemory, Value};
use std::alloc::Global;

impl Edit {
    /// Applies the operator to the document, which is changed in place.
    pub(crate) fn make(&self, alloc: Global, document: Document) -> Result<Document, UpdateFault>
        ensures { Gives no_memory (λ changed. changed) result (defined.edit_at self.now.path (operation self.now.operation) document) }
    {
        match &self.operation {
            Operation::Set(value) => set_at(alloc, document, &self.path, value),
            Operation::Unset => Ok(remove_at(document, &self.path)?),
            Operation::Inc(number) => increase_at(alloc, document, &self.path, *number),
            Operation::Push(values) => append_at(alloc, document, &self.path, values),
            Operation::Pull(pulled) => pull_at(alloc, document, &self.path, pulled),
        }
    }
}

/// If the value is there already, nothing is copied.
#[tactic(auto, using(crate::proofs::Made::set_there))]
fn set_at(
    alloc: Global,
    document: Document,
    path: &Path,
    value: &Value,
) -> Result<Document, UpdateFault>
    ensures { Gives no_memory (λ changed. changed) result (defined.set_at path.now (tree value.now) document) }
{
    if let Slot::Taken(there) = slot_at(&document, path) {
        if is_same(there, value) {
            return Ok(document);
        }
    }
    Ok(put_at(alloc, document, path, value.try_clone()?)?)
}

fn increase_at(
    alloc: Global,
    document: Document,
    path: &Path,
    number: Number,
) -> Result<Document, UpdateFault>
    ensures { Gives no_memory (λ changed. changed) result (defined.increase_at path.now number document) }
{
    let increased = increased(number, slot_at(&document, path))?;
    Ok(put_at(alloc, document, path, increased)?)
}

/// The number added to the value there.
pub(crate) fn increased(number: Number, slot: Slot<'_>) -> Result<Value, UpdateFault>
    ensures { Gives no_memory tree result (defined.increased number (slot_seen slot.entry)) }
{
    match slot {
        Slot::Free => Ok(number.value()),
        Slot::Blocked => Err(UpdateFault::NotViable),
        Slot::Taken(there) => match there {
            Value::Int32(there) => Number::Int32(*there).add(number),
            Value::Int64(there) => Number::Int64(*there).add(number),
            _ => Err(UpdateFault::NotNumber),
        },
    }
}

fn append_at(
    alloc: Global,
    document: Document,
    path: &Path,
    values: &List,
) -> Result<Document, UpdateFault>
    ensures { Gives no_memory (λ changed. changed) result (defined.append_at path.now values.now document) }
{
    let appended = appended(values, slot_at(&document, path))?;
    Ok(put_at(alloc, document, path, Value::Array(appended))?)
}

/// The values appended to those that are there.
#[tactic(auto, using(dv_value::specs::Inner::TreeLaws::elements_again))]
fn appended(values: &List, slot: Slot<'_>) -> Result<List, UpdateFault>
    ensures { Gives no_memory (λ list. tree (Value.Array list)) result (defined.appended values.now (slot_seen slot.entry)) }
{
    match slot {
        Slot::Free => Ok(values.try_clone()?),
        Slot::Blocked => Err(UpdateFault::NotViable),
        Slot::Taken(there) => match there {
            Value::Array(list) => Ok(joined(list, values)?),
            _ => Err(UpdateFault::NotArray),
        },
    }
}

/// A list with the values at its end. Fails when memory runs out.
fn joined(list: &List, values: &List) -> Result<List, NoMemory>
    ensures { IfOk result (λ joined. joined ≡ list.now ++ values.now) }
{
    let mut joined = list.try_clone()?.into_inner();
    'values: for value in values.as_slice() {
        joined.push(value.try_clone()?)?;
    }
    Ok(List::of(joined))
}

/// If no element is removed, nothing is copied.
#[tactic(auto, using(crate::proofs::Made::pull_none, dv_value::specs::Inner::TreeLaws::elements_again))]
fn pull_at(
    alloc: Global,
    document: Document,
    path: &Path,
    pulled: &Pulled,
) -> Result<Document, UpdateFault>
    ensures { Gives no_memory (λ changed. changed) result (defined.pull_at path.now (which pulled.now) document) }
{
    let Slot::Taken(there) = slot_at(&document, path) else {
        return Ok(document);
    };
    let Value::Array(list) = there else {
        return Err(UpdateFault::NotArray);
    };
    if !pulled.takes_any(list) {
        return Ok(document);
    }
    let left = pulled.left(alloc, list)?;
    Ok(put_at(alloc, document, path, Value::Array(left))?)
}

impl Pulled {
    /// Whether the element is removed.
    fn takes(&self, element: &Value) -> bool
        ensures { result ≡ defined.is_pulled (which self.now) (tree element.now) }
    {
        match self {
            Pulled::Equal(value) => compare(element, value).is_eq(),
            Pulled::Passing(test) => test.passes(element),
        }
    }

    fn takes_any(&self, list: &List) -> bool
        ensures { result ≡ list_any (defined.is_pulled (which self.now)) list.now }
    {
        for element in list.as_slice() {
            if self.takes(element) {
                return true;
            }
        }
        false
    }

    /// The elements that aren't removed, in order. Fails when memory runs out.
    fn left(&self, alloc: Global, list: &List) -> Result<List, NoMemory>
        ensures { IfOk result (λ left. left ≡ defined.left (which self.now) list.now) }
    {
        let mut left = Vec::new(alloc);
        'elements: for element in list.as_slice() {
            if !self.takes(element) {
                left.push(element.try_clone()?)?;
            }
        }
        Ok(List::of(left))
    }
}
