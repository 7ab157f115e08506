//! How the fields of documents are dropped: in a loop, since in rows of views documents may be nested some thousand levels deep.

ghost use Rattle.std.specs.Prelude.{◌≡◌, ◌+◌, ◌<◌, ◌≤◌, IfSome, map};
ghost use Rattle.dv_value.specs.Tree.{fields_of, elements_of};
ghost use Rattle.dv_value.specs.Inner.Covers.{IsText};
ghost use Rattle.dv_value.specs.Inner.Tree.{weight, fields_weight, elements_weight};
ghost use Rattle.dv_value.specs.View.{tree};

use crate::value::{Content, Document, Fields, List, Measured, SharedText, Value};
use std::rc::Rc;

/// Drops the values and all that is in them. Takes no memory, and no more stack if they are deep.
pub(super) fn drop_values(values: Vec<Value>) {
    let mut left = values;
    'values: while let Some(value) = left.pop() {
        left = opened(value, left);
    }
    left.destroy_empty();
}

/// Releases a text or a binary, and drops it if nothing else shares it. No other value is in it.
pub(super) fn drop_shared(text: SharedText) {
    let Some(value) = text.into_value() else {
        return;
    };
    match value {
        Value::Text(_text) => {}
        Value::Binary {
            subtype: _,
            bytes: _bytes,
        } => {}
        Value::Doc(_) | Value::Array(_) => unreachable!(),
        Value::Int32(_) | Value::Int64(_) | Value::Bool(_) | Value::Date(_) => {}
        Value::ObjectId(_) | Value::Timestamp(_) => {}
        Value::Null | Value::MinKey | Value::MaxKey => {}
    }
}

/// Drops a value except those in it. Returns these and the others: what is left to drop.
fn opened(first: Value, others: Vec<Value>) -> Vec<Value>
    ensures { elements_weight (elements_of (map tree result.items)) < weight (tree first) + elements_weight (elements_of (map tree others.items)) }
{
    let mut value = first;
    let mut left = others;
    'inside: loop {
        let Some(mut inside) = value.into_values() else {
            return left;
        };
        let Some(last) = inside.pop() else {
            inside.destroy_empty();
            return left;
        };
        // There may be no room for more than one value. So the others, as one array, take the place of the last value inside, which
        // is next.
        inside.push_reserved(Value::Array(List::of(left)));
        left = inside;
        value = last;
    }
}

impl Value {
    /// The values inside, or `None` if there can be none or a copy shares them.
    fn into_values(self) -> Option<Vec<Value>>
        ensures { IfSome result (λ values. elements_weight (elements_of (map tree values.items)) < weight (tree self)) }
    {
        match self {
            Value::Doc(document) => document.into_values(),
            Value::Array(list) => Some(list.into_inner()),
            Value::Text(_text) => None,
            Value::Binary {
                subtype: _,
                bytes: _bytes,
            } => None,
            Value::Int32(_) | Value::Int64(_) | Value::Bool(_) | Value::Date(_) => None,
            Value::ObjectId(_) | Value::Timestamp(_) => None,
            Value::Null | Value::MinKey | Value::MaxKey => None,
        }
    }
}

impl Document {
    /// The values, unless a copy shares them.
    fn into_values(self) -> Option<Vec<Value>>
        ensures { IfSome result (λ values. elements_weight (elements_of (map tree values.items)) ≤ fields_weight (fields_of self)) }
    {
        let Document { alloc: _, content } = self;
        match content {
            Content::Own(shared) => Some(Rc::into_inner(shared)?.into_values()),
            Content::Over(shared) => Some(Rc::into_inner(shared)?.into_values()),
            Content::Empty => None,
        }
    }
}

impl Measured {
    /// The values.
    pub(super) fn into_values(self) -> Vec<Value>
        ensures { elements_weight (elements_of (map tree result.items)) ≡ fields_weight (fields_of self) }
    {
        let Measured { fields, size: _ } = self;
        fields.into_values()
    }
}

impl Fields {
    /// The values.
    #[tactic(auto, using(crate::proofs::Dropped::fields_weigh_as_values))]
    pub(super) fn into_values(self) -> Vec<Value>
        ensures { elements_weight (elements_of (map tree result.items)) ≡ fields_weight (fields_of self) }
    {
        let Fields { names: _, values } = self;
        values
    }
}

impl SharedText {
    /// The value, unless something else shares it.
    fn into_value(self) -> Option<Value>
        ensures { IfSome result (λ value. IsText (tree value)) }
    {
        let SharedText { value } = self;
        Rc::into_inner(value)
    }
}
