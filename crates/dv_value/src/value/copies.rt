//! Copies of values.

ghost use Rattle.std.specs.Prelude.{◌≡◌, ◌<◌, ◌++◌, length, slice_set, map, OnOk, IfOk};
ghost use Rattle.dv_value.specs.View.{tree};

use crate::NoMemory;
use crate::value::{List, Value};

impl Value {
    /// A copy of its own. Fails with `NoMemory` when memory runs out.
    #[cycle(value)]
    pub fn try_clone(&self) -> Result<Self, NoMemory>
        ensures { IfOk result (λ copy. copy ≡ self.now) }
    {
        match self {
            Value::Int32(number) => Ok(Value::Int32(*number)),
            Value::Int64(number) => Ok(Value::Int64(*number)),
            Value::Text(text) => Ok(Value::Text(text.try_clone()?)),
            Value::Doc(document) => Ok(Value::Doc(document.try_clone()?)),
            Value::Array(list) => Ok(Value::Array(list.try_clone()?)),
            Value::Binary { subtype, bytes } => Ok(Value::Binary {
                subtype: *subtype,
                bytes: bytes.try_clone()?,
            }),
            Value::ObjectId(id) => Ok(Value::ObjectId(*id)),
            Value::Bool(truth) => Ok(Value::Bool(*truth)),
            Value::Date(milliseconds) => Ok(Value::Date(*milliseconds)),
            Value::Null => Ok(Value::Null),
            Value::Timestamp(time) => Ok(Value::Timestamp(*time)),
            Value::MinKey => Ok(Value::MinKey),
            Value::MaxKey => Ok(Value::MaxKey),
        }
    }
}

impl List {
    /// A copy of its own. Fails with `NoMemory` when memory runs out.
    #[cycle(value)]
    pub fn try_clone(&self) -> Result<Self, NoMemory>
        ensures { IfOk result (λ copy. copy ≡ self.now) }
    {
        Ok(List {
            values: copies_of(&self.values)?,
        })
    }
}

/// Copies of the values, in order. Fails when memory runs out.
#[cycle(value)]
pub(super) fn copies_of(values: &Vec<Value>) -> Result<Vec<Value>, NoMemory>
    ensures { IfOk result (λ copies. map tree copies.items ≡ map tree values.now.items) }
{
    let mut copies = Vec::with_capacity(*values.allocator(), values.len())?;
    for value in values {
        copies.push(value.try_clone()?)?;
    }
    Ok(copies)
}

/// Copies of the values, in order, with this one in place of the one at `place`. Fails when memory runs out.
pub(super) fn copies_with(
    values: &Vec<Value>,
    place: usize,
    value: Value,
) -> Result<Vec<Value>, NoMemory>
    requires { place < length values.now.items }
    ensures { IfOk result (λ copies. map tree copies.items ≡ slice_set (map tree values.now.items) place (tree value)) }
{
    let mut copies = Vec::with_capacity(*values.allocator(), values.len())?;
    put_copies(&mut copies, &values[..place])?;
    copies.push(value)?;
    put_copies(&mut copies, &values[place + 1..])?;
    Ok(copies)
}

/// Adds copies of the values at the end. Fails when memory runs out.
fn put_copies(copies: &mut Vec<Value>, values: &[Value]) -> Result<(), NoMemory>
    ensures { OnOk result (map tree copies.new.items ≡ map tree copies.old.items ++ map tree values.now) }
{
    for value in values {
        copies.push(value.try_clone()?)?;
    }
    Ok(())
}
