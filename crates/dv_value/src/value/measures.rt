//! Fields with the length of their encoding. It is updated when a value is added, or put in place of one that is dropped, which
//! takes the time of measuring these values; other changes drop it.

ghost use Rattle.std.specs.Prelude.{◌≡◌, ◌<◌, [], ◌∷◌, ◌++◌, false, length, OnOk, OnErr, IfOk, IfSome};
ghost use Rattle.std.specs.Option.{option_map};
ghost use Rattle.dv_value.specs.FieldChange.{with_value_pushed};
ghost use Rattle.dv_value.specs.Measure.{IsMeasure};
ghost use Rattle.dv_value.specs.Names.{value_under, with_value_under, without, has_name, has_zero};
ghost use Rattle.dv_value.specs.Inner.Put.{with_value_at};
ghost use Rattle.dv_value.specs.View.{tree};

use crate::NoMemory;
use crate::limits::{digits, with_other, with_shallow_element};
use crate::value::{Fields, Measured, Value};

impl Measured {
    /// These fields, and the length of their encoding, if it is known.
    pub(super) fn of(fields: Fields, size: Option<u32>) -> Self
        requires { IfSome size (λ size. IsMeasure size fields) }
        ensures { result ≡ fields }
    {
        Measured { fields, size }
    }

    pub(super) fn fields(&self) -> &Fields
        ensures { result.now ≡ self.now }
    {
        &self.fields
    }

    /// The length of the encoding, if it is known.
    pub(super) fn size(&self) -> Option<u32>
        ensures { IfSome result (λ size. IsMeasure size self.now) }
    {
        self.size
    }

    /// Keeps the length of the encoding.
    pub(super) fn keep(&mut self, size: u32)
        requires { IsMeasure size self.old }
        ensures { self.new ≡ self.old }
    {
        self.size = Some(size);
    }

    /// As `add` of `Fields`.
    pub(super) fn add(&mut self, name: &str, value: Value) -> Result<(), NoMemory>
        requires whole { has_zero name.now ≡ false }
        requires fresh { has_name name.now self.old ≡ false }
        ensures ok { OnOk result (self.new ≡ self.old ++ (name.now, tree value) ∷ []) }
        ensures err { OnErr result (self.new ≡ self.old) }
    {
        let size = self.size_added(name, &value);
        self.size = None;
        self.fields.add(name, value)?;
        self.size = size;
        Ok(())
    }

    /// The length of the encoding with this field after the others, if it is known. Takes the time of measuring the value.
    fn size_added(&self, name: &str, value: &Value) -> Option<u32>
        requires whole { has_zero name.now ≡ false }
        requires fresh { has_name name.now self.now ≡ false }
        ensures { IfSome result (λ size. IsMeasure size (self.now ++ (name.now, tree value.now) ∷ [])) }
    {
        let total = self.size?;
        let size = with_shallow_element(total as usize, name.len(), value, 1)?;
        Some(size as u32)
    }

    /// As `reserve_one` of `Fields`. The encoding stays as it is.
    pub(super) fn reserve_one(&mut self) -> Result<(), NoMemory>
        ensures { self.new ≡ self.old }
    {
        self.fields.reserve_one()
    }

    /// As `replace` of `Fields`. The length is dropped: the old value is returned, and measuring it may take far longer than what
    /// the caller does with it.
    pub(super) fn replace(&mut self, name: &str, value: Value) -> Option<Value>
        ensures before { option_map tree result ≡ value_under name.now self.old }
        ensures after { self.new ≡ with_value_under name.now (tree value) self.old }
    {
        self.size = None;
        self.fields.replace(name, value)
    }

    /// As `put_at` of `Fields`.
    pub(super) fn put_at(&mut self, place: usize, value: Value)
        requires { place < length self.old }
        ensures { self.new ≡ with_value_at place (tree value) self.old }
    {
        let size = self.size_with(place, &value);
        self.size = None;
        self.fields.put_at(place, value);
        self.size = size;
    }

    /// The length of the encoding with this value in place of the one at `place`, if it is known. Takes the time of measuring both
    /// values.
    fn size_with(&self, place: usize, value: &Value) -> Option<u32>
        ensures { IfSome result (λ size. IsMeasure size (with_value_at place (tree value.now) self.now)) }
    {
        let total = self.size?;
        let (_name, before) = self.fields.entry(place)?;
        with_other(total, before, value)
    }

    /// As `push_element` of `Fields`.
    pub(super) fn push_element(&mut self, name: &str, value: Value) -> Result<(), NoMemory>
        ensures ok { OnOk result (self.new ≡ with_value_pushed name.now (tree value) self.old) }
        ensures err { OnErr result (self.new ≡ self.old) }
    {
        let size = self.size_pushed(name, &value);
        self.size = None;
        self.fields.push_element(name, value)?;
        self.size = size;
        Ok(())
    }

    /// The length of the encoding with this value appended to the array under the name, if it is known. Takes the time of measuring
    /// the value.
    fn size_pushed(&self, name: &str, value: &Value) -> Option<u32>
        ensures { IfSome result (λ size. IsMeasure size (with_value_pushed name.now (tree value.now) self.now)) }
    {
        let total = self.size?;
        let place = self.fields.place_of(name)?;
        let (_name, found) = self.fields.entry(place)?;
        let Value::Array(list) = found else {
            return None;
        };
        let count = digits(list.as_slice().len());
        let size = with_shallow_element(total as usize, count, value, 2)?;
        Some(size as u32)
    }

    /// As `copy_with` of `Fields`. The copy has no length, for the same reason as after `replace`.
    pub(super) fn copy_with(&self, place: usize, value: Value) -> Result<Self, NoMemory>
        requires { place < length self.now }
        ensures { IfOk result (λ copy. copy ≡ with_value_at place (tree value) self.now) }
    {
        Ok(Measured::of(self.fields.copy_with(place, value)?, None))
    }

    /// As `remove` of `Fields`.
    pub(super) fn remove(&mut self, name: &str) -> Result<Option<Value>, NoMemory>
        ensures before { IfOk result (λ before. option_map tree before ≡ value_under name.now self.old) }
        ensures ok { OnOk result (self.new ≡ without name.now self.old) }
        ensures err { OnErr result (self.new ≡ self.old) }
    {
        self.size = None;
        self.fields.remove(name)
    }
}

impl Clone for Measured {
    ghost is_clone = { λ measured copy. copy ≡ measured };

    fn clone(&self) -> Result<Self, NoMemory> {
        Ok(Measured::of(self.fields.try_clone()?, self.size))
    }
}
