//! The outcome of an operator under a name, as a change of that field alone.

ghost use Rattle.std.specs.Prelude.{◌≡◌, false, codes, IfOk, IfSome, Ok, Some};
ghost use Rattle.std.specs.Option.{option_map};
ghost use Rattle.std.specs.Str.{bytes_eq};
ghost use Rattle.dv_value.specs.Names.{value_under};
ghost use Rattle.dv_value.specs.View.{tree};
ghost use Rattle.dv_order.specs.Same.{both_same};
ghost use Rattle.dv_path.specs.Slots.{slot_of};
ghost use Rattle.dv_path.specs.SlotView.{slot_seen};
ghost use Rattle.dv_update.specs.Outcome as defined;
ghost use Rattle.dv_update.specs.Inner.Outcome as defined_inner;
ghost use Rattle.dv_update.specs.Update.{append, assign};
ghost use Rattle.dv_update.specs.View.{operation};

use crate::edit::increased;
use crate::form::Operation;
use crate::outcome::Outcome;
use crate::room::has_room;
use dv_order::is_same;
use dv_path::Slot;
use dv_value::{Document, FieldChange, List, NoMemory, Value, laws};

/// How many bytes are around the name of a field: its type byte and a zero byte.
const AROUND_NAME: usize = 2;

/// An element's place has at most six digits in an array of fewer elements.
const SIX_DIGITS: usize = 1_000_000;

/// How many bytes are around an element then: its type byte, the digits and a zero byte.
const AROUND_ELEMENT: usize = 8;

/// The levels around a field's value: the document.
const ABOVE_FIELD: u32 = 1;

/// The levels around an element: the array and the document.
const ABOVE_ELEMENT: u32 = 2;

impl Operation {
    /// The outcome of the operator under a name other than `_id`, if it changes that field alone and the document surely has room
    /// for it. Fails when memory runs out.
    pub(crate) fn outcome_under(
        &self,
        document: &Document,
        name: &str,
    ) -> Result<Option<Outcome>, NoMemory>
        requires { bytes_eq name.now (codes "_id") ≡ false }
        ensures applied { IfOk result (λ found. IfSome found (λ outcome. defined_inner.IsOutcomeUnder name.now (operation self.now) document.now outcome)) }
        ensures same { IfOk result (λ found. IfSome found (λ outcome. defined.stays outcome ≡ defined.stays_so name.now document.now outcome)) }
    {
        if let Operation::Push(values) = self {
            return pushed_under(document, name, values);
        }
        match self.value_for(document.get(name))? {
            Some(value) => Ok(set_under(document, name, value)),
            None => Ok(None),
        }
    }

    /// The value that `$set` or `$inc` puts in place of this one, or of none. `None` if `$inc` is refused, and for the other
    /// operators. Fails when memory runs out.
    fn value_for(&self, there: Option<&Value>) -> Result<Option<Value>, NoMemory>
        ensures { IfOk result (λ found. IfSome found (λ value. defined_inner.value_by (operation self.now) (slot_of (option_map (λ there. tree there.now) there.entry)) ≡ Ok (tree value))) }
    {
        match self {
            Operation::Set(value) => Ok(Some(value.try_clone()?)),
            Operation::Inc(number) => match increased(*number, slot_holding(there)) {
                Ok(value) => Ok(Some(value)),
                Err(_) => Ok(None),
            },
            _ => Ok(None),
        }
    }
}

/// The slot of a path that ends at this value, or at none.
fn slot_holding<'a>(there: Option<&'a Value>) -> Slot<'a>
    ensures { slot_seen result ≡ slot_of (option_map (λ there. tree there.now) there.entry) }
{
    match there {
        Some(there) => Slot::Taken(there),
        None => Slot::Free,
    }
}

/// The outcome of `$set` of the value under the name, if the document surely has room for it.
fn set_under(document: &Document, name: &str, value: Value) -> Option<Outcome>
    requires { bytes_eq name.now (codes "_id") ≡ false }
    ensures applied { IfSome result (λ outcome. defined_inner.IsOutcomeUnder name.now (assign (tree value)) document.now outcome) }
    ensures same { IfSome result (λ outcome. defined.stays outcome ≡ defined.stays_so name.now document.now outcome) }
{
    laws::what_a_field_adds();
    if !has_room(document, AROUND_NAME + name.len(), ABOVE_FIELD, &value) {
        return None;
    }
    if stands_under(document, name, &value) {
        return Some(Outcome::Same);
    }
    Some(Outcome::Field(FieldChange::Set(value)))
}

/// Whether the value under the name has the same encoding as this one.
fn stands_under(document: &Document, name: &str, value: &Value) -> bool
    ensures { result ≡ both_same (value_under name.now document.now) (Some (tree value.now)) }
{
    match document.get(name) {
        Some(there) => is_same(there, value),
        None => false,
    }
}

/// The outcome of `$push` of the values under the name, if it is one value, an array is there, and the document surely has room for
/// it. Fails when memory runs out.
fn pushed_under(document: &Document, name: &str, values: &List) -> Result<Option<Outcome>, NoMemory>
    requires { bytes_eq name.now (codes "_id") ≡ false }
    ensures applied { IfOk result (λ found. IfSome found (λ outcome. defined_inner.IsOutcomeUnder name.now (append values.now) document.now outcome)) }
    ensures same { IfOk result (λ found. IfSome found (λ outcome. defined.stays outcome ≡ defined.stays_so name.now document.now outcome)) }
{
    laws::what_a_field_adds();
    let [value] = values.as_slice() else {
        return Ok(None);
    };
    let Some(Value::Array(list)) = document.get(name) else {
        return Ok(None);
    };
    if list.as_slice().len() >= SIX_DIGITS
        || !has_room(document, AROUND_ELEMENT, ABOVE_ELEMENT, value)
    {
        return Ok(None);
    }
    let pushed = value.try_clone()?;
    Ok(Some(Outcome::Field(FieldChange::Push(pushed))))
}
