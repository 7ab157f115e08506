//! The bounds of the values of a class.

ghost use Rattle.std.specs.Prelude.{◌≡◌, []};
ghost use Rattle.std.specs.Range.Bound.{bound_map};
ghost use Rattle.dv_value.specs.Tree.{binary};
ghost use Rattle.dv_value.specs.View.{tree};
ghost use Rattle.dv_order.specs.Classes.{EndsClass, StartsClass};

use dv_value::{Bytes, Document, List, Str, Value};
use std::alloc::Global;
use std::ops::Bound;

/// A lower bound of the values of this one's class. Only for ObjectIds are there values of another class above it: binary data, of
/// which none is the greatest. Takes no memory.
pub fn class_start(alloc: Global, value: &Value) -> Bound<Value>
    ensures { StartsClass (tree value.now) (bound_map tree result) }
{
    match value {
        Value::MinKey => Bound::Unbounded,
        Value::Null => Bound::Excluded(Value::MinKey),
        Value::Int32(_) | Value::Int64(_) => Bound::Excluded(Value::Null),
        Value::Text(_) => Bound::Excluded(Value::Int64(i64::MAX)),
        Value::Doc(_) => Bound::Included(Value::Doc(Document::new(alloc))),
        Value::Array(_) => Bound::Included(Value::Array(List::new(alloc))),
        Value::Binary { .. } => Bound::Included(empty_binary(alloc)),
        Value::ObjectId(_) => Bound::Excluded(empty_binary(alloc)),
        Value::Bool(_) => Bound::Excluded(Value::ObjectId([u8::MAX; 12])),
        Value::Date(_) => Bound::Excluded(Value::Bool(true)),
        Value::Timestamp(_) => Bound::Excluded(Value::Date(i64::MAX)),
        Value::MaxKey => Bound::Excluded(Value::Timestamp(u64::MAX)),
    }
}

/// An upper bound of the values of this one's class. Takes no memory.
pub fn class_end(alloc: Global, value: &Value) -> Bound<Value>
    ensures { EndsClass (tree value.now) (bound_map tree result) }
{
    match value {
        Value::MinKey => Bound::Excluded(Value::Null),
        Value::Null => Bound::Excluded(Value::Int64(i64::MIN)),
        Value::Int32(_) | Value::Int64(_) => {
            Bound::Excluded(Value::Text(Str::of(String::new(alloc))))
        }
        Value::Text(_) => Bound::Excluded(Value::Doc(Document::new(alloc))),
        Value::Doc(_) => Bound::Excluded(Value::Array(List::new(alloc))),
        Value::Array(_) => Bound::Excluded(empty_binary(alloc)),
        Value::Binary { .. } => Bound::Excluded(Value::ObjectId([0; 12])),
        Value::ObjectId(_) => Bound::Excluded(Value::Bool(false)),
        Value::Bool(_) => Bound::Excluded(Value::Date(i64::MIN)),
        Value::Date(_) => Bound::Excluded(Value::Timestamp(0)),
        Value::Timestamp(_) => Bound::Excluded(Value::MaxKey),
        Value::MaxKey => Bound::Unbounded,
    }
}

/// The first of the binary values.
fn empty_binary(alloc: Global) -> Value
    ensures { tree result ≡ binary 0 [] }
{
    Value::Binary {
        subtype: 0,
        bytes: Bytes::of(Vec::new(alloc)),
    }
}
