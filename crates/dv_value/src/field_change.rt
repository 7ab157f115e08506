//! Changes of one field of a document.

ghost use Rattle.std.specs.Prelude.{◌≡◌, ℕ, List, false, IfOk, OnErr, OnOk};
ghost use Rattle.dv_value.specs.FieldChange.{with_field_changed, with_value_set};
ghost use Rattle.dv_value.specs.Names.{has_zero};
ghost use Rattle.dv_value.specs.Tree.{Field};
ghost use Rattle.dv_value.specs.View.{tree};

use crate::NoMemory;
use crate::value::{Document, Value};

/// A change of the field under a name.
#[derive(Debug, Drop)]
pub enum FieldChange {
    /// It gets this value. If no field has the name, a field with the value is added at the end.
    Set(Value),
    /// This value is added at the end of its array. If it has no array, nothing changes.
    Push(Value),
}

impl FieldChange {
    /// A copy of its own. Fails with `NoMemory` when memory runs out.
    pub fn try_clone(&self) -> Result<Self, NoMemory>
        ensures { IfOk result (λ copy. (name : List ℕ) → (fs : List Field) → with_field_changed name copy fs ≡ with_field_changed name self.now fs) }
    {
        match self {
            FieldChange::Set(value) => Ok(FieldChange::Set(value.try_clone()?)),
            FieldChange::Push(value) => Ok(FieldChange::Push(value.try_clone()?)),
        }
    }
}

impl Document {
    /// Changes the field under the name. Memory is taken for a new field or element. If a copy shares the fields, memory is also
    /// taken to copy them first. Fails with `NoMemory` when memory runs out; then nothing is changed, and the value is dropped.
    /// Replacing a value takes time logarithmic in the number of fields; if the length of the encoding is kept, both values are
    /// also measured. The name must hold no zero byte.
    pub fn change_field(&mut self, name: &str, change: FieldChange) -> Result<(), NoMemory>
        requires { has_zero name.now ≡ false }
        ensures ok { OnOk result (self.new ≡ with_field_changed name.now change self.old) }
        ensures err { OnErr result (self.new ≡ self.old) }
    {
        match change {
            FieldChange::Set(value) => self.set(name, value),
            FieldChange::Push(value) => self.push_element(name, value),
        }
    }

    /// Puts the value under the name, in a new field at the end if no field has the name. Fails when memory runs out.
    fn set(&mut self, name: &str, value: Value) -> Result<(), NoMemory>
        requires { has_zero name.now ≡ false }
        ensures ok { OnOk result (self.new ≡ with_value_set name.now (tree value) self.old) }
        ensures err { OnErr result (self.new ≡ self.old) }
    {
        match self.put(name, value)? {
            Some(value) => {
                self.reserve_one()?;
                self.add(name, value)
            }
            None => Ok(()),
        }
    }
}
