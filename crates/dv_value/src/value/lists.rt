//! Lists of values.

ghost use Rattle.std.specs.Prelude.{◌≡◌, [], ◌∷◌, ◌++◌, map, OnOk, OnErr};
ghost use Rattle.dv_value.specs.Inner.Put.{with_value_behind};
ghost use Rattle.dv_value.specs.View.{tree};

use crate::NoMemory;
use crate::value::{List, Value};
use std::alloc::Global;

impl List {
    /// A list without values, whose values will be allocated by `alloc`.
    pub fn new(alloc: Global) -> Self
        ensures { result ≡ [] }
    {
        List {
            values: Vec::new(alloc),
        }
    }

    /// The list of these values. Takes no memory.
    pub fn of(values: Vec<Value>) -> Self
        ensures { result ≡ map tree values.items }
    {
        List { values }
    }

    /// The values in order.
    pub fn as_slice(&self) -> &[Value]
        ensures { map tree result.now ≡ self.now }
    {
        self.values.as_slice()
    }

    /// Adds the value at the end. Fails when memory runs out.
    fn push(&mut self, value: Value) -> Result<(), NoMemory>
        ensures ok { OnOk result (self.new ≡ self.old ++ tree value ∷ []) }
        ensures err { OnErr result (self.new ≡ self.old) }
    {
        self.values.push(value)?;
        Ok(())
    }

    /// The values in order. Takes no memory.
    pub fn into_inner(self) -> Vec<Value>
        ensures { map tree result.items ≡ self }
    {
        let List { values } = self;
        values
    }
}

impl Value {
    /// Adds the value at the end, if this is an array. Fails when memory runs out.
    pub(super) fn push_element(&mut self, value: Value) -> Result<(), NoMemory>
        ensures ok { OnOk result (tree self.new ≡ with_value_behind (tree value) (tree self.old)) }
        ensures err { OnErr result (tree self.new ≡ tree self.old) }
    {
        match self {
            Value::Array(list) => list.push(value),
            _ => Ok(()),
        }
    }
}
