//! The fields of documents: values, and names that documents may share.

ghost use Rattle.std.specs.Prelude.{◌≡◌, ◌+◌, ◌<◌, ◌≤◌, [], ◌∷◌, ◌++◌, false, length, take, map, OnOk, OnErr, IfOk, IfSome, slice_get};
ghost use Rattle.std.specs.Option.{option_map};
ghost use Rattle.dv_value.specs.FieldChange.{with_value_pushed};
ghost use Rattle.dv_value.specs.Names.{bare, AreNamed, place_under, value_under, with_value_under, with_values, without, has_name, has_zero};
ghost use Rattle.dv_value.specs.Inner.Put.{with_value_at};
ghost use Rattle.dv_value.specs.View.{tree};

use crate::NoMemory;
use crate::name_list::Names;
use crate::value::copies::{copies_of, copies_with};
use crate::value::{Content, Document, Fields, Value};
use std::alloc::Global;
use std::mem::replace;
use std::rc::Rc;

impl Fields {
    /// No fields, with room for this many. Fails with `NoMemory` when memory runs out.
    pub fn with_room(alloc: Global, fields: usize) -> Result<Self, NoMemory>
        ensures { IfOk result (λ fields. fields ≡ []) }
    {
        Ok(Fields {
            names: Rc::new(alloc, Names::with_room(alloc, fields)?)?,
            values: Vec::with_capacity(alloc, fields)?,
        })
    }

    /// No fields, with room for as many as the document has, whose names they may share. Fails when memory runs out.
    pub(super) fn beside(alloc: Global, document: &Document) -> Result<Self, NoMemory>
        ensures { IfOk result (λ fields. fields ≡ []) }
    {
        match &document.content {
            Content::Own(measured) => measured.fields().none_beside(alloc),
            Content::Over(overlay) => overlay.own_fields().none_beside(alloc),
            Content::Empty => Fields::with_room(alloc, 0),
        }
    }

    /// No fields, with room for as many as there are here, whose names they may share. Fails when memory runs out.
    fn none_beside(&self, alloc: Global) -> Result<Self, NoMemory>
        ensures { IfOk result (λ fields. fields ≡ []) }
    {
        Ok(Fields {
            names: self.names.clone()?,
            values: Vec::with_capacity(alloc, self.len())?,
        })
    }

    /// Fields with these values under the names of the document's first fields. They share these names. Fails with `NoMemory` when
    /// memory runs out.
    pub fn like(document: &Document, values: Vec<Value>) -> Result<Self, NoMemory>
        requires { length values.items ≤ length document.now }
        ensures { IfOk result (λ fields. fields ≡ with_values document.now (map tree values.items)) }
    {
        let alloc = *values.allocator();
        match &document.content {
            Content::Own(measured) => measured.fields().with_values(values),
            Content::Over(overlay) => overlay.with_values(values),
            Content::Empty => Ok(Fields {
                names: Rc::new(alloc, Names::with_room(alloc, 0)?)?,
                values,
            }),
        }
    }

    /// These values under the first names, which are shared. Fails when memory runs out.
    pub(super) fn with_values(&self, values: Vec<Value>) -> Result<Self, NoMemory>
        requires { length values.items ≤ length self.now }
        ensures { IfOk result (λ fields. fields ≡ with_values self.now (map tree values.items)) }
    {
        Ok(Fields {
            names: self.names.clone()?,
            values,
        })
    }

    /// How many fields there are.
    pub fn len(&self) -> usize
        ensures len { result ≡ length self.now }
        ensures named { AreNamed self.now }
    {
        let names = self.names.len();
        prove!(self.values.len() <= names);
        self.values.len()
    }

    /// The name and the value of the field at `place`.
    pub(super) fn entry(&self, place: usize) -> Option<(&str, &Value)>
        ensures { option_map (λ field. (field.0.now, tree field.1.now)) result ≡ slice_get self.now place }
    {
        let value = self.values.get(place)?;
        let name = self.names.get(place)?;
        Some((name, value))
    }

    /// The value under the name, if there is one.
    pub(super) fn get(&self, name: &str) -> Option<&Value>
        ensures { option_map (λ value. tree value.now) result ≡ value_under name.now self.now }
    {
        let place = self.place_of(name)?;
        Some(&self.values[place])
    }

    /// The place of the field with the name, if there is one.
    pub(super) fn place_of(&self, name: &str) -> Option<usize>
        ensures place { result ≡ place_under name.now self.now }
        ensures named { AreNamed self.now }
    {
        let place = self.names.place_of(name)?;
        if place < self.values.len() {
            Some(place)
        } else {
            None
        }
    }

    /// Whether a field has the name. Takes constant time if the name comes next in the list of names that the fields share.
    pub fn has(&self, name: &str) -> bool
        ensures has { result ≡ has_name name.now self.now }
        ensures named { AreNamed self.now }
    {
        let place = self.values.len();
        if place < self.names.len() && self.names.is_at(place, name) {
            return false;
        }
        self.place_of(name).is_some()
    }

    /// Adds a field whose name is known to be new and without a zero byte. Fails with `NoMemory` when memory runs out; then nothing
    /// is changed, and the value is dropped.
    pub fn add(&mut self, name: &str, value: Value) -> Result<(), NoMemory>
        requires whole { has_zero name.now ≡ false }
        requires fresh { has_name name.now self.old ≡ false }
        ensures ok { OnOk result (self.new ≡ self.old ++ (name.now, tree value) ∷ []) }
        ensures err { OnErr result (self.new ≡ self.old) }
    {
        let alloc = *self.values.allocator();
        self.values.reserve(1)?;
        put_name(alloc, &mut self.names, self.values.len(), name)?;
        self.values.push(value)?;
        Ok(())
    }

    /// Makes room for one more value if there is none, and for no further ones. Fails when memory runs out.
    pub(super) fn reserve_one(&mut self) -> Result<(), NoMemory>
        ensures { self.new ≡ self.old }
    {
        self.values.reserve_exact(1)
    }

    /// Puts the value in place of the one under the name, and returns the old one, if there is one.
    pub(super) fn replace(&mut self, name: &str, value: Value) -> Option<Value>
        ensures before { option_map tree result ≡ value_under name.now self.old }
        ensures after { self.new ≡ with_value_under name.now (tree value) self.old }
    {
        let place = self.place_of(name)?;
        Some(replace(&mut self.values[place], value))
    }

    /// Puts the value in place of the one at `place`, which is dropped.
    pub(super) fn put_at(&mut self, place: usize, value: Value)
        requires { place < length self.old }
        ensures { self.new ≡ with_value_at place (tree value) self.old }
    {
        self.values[place] = value;
    }

    /// Appends the value to the array under the name, if there is one. Fails when memory runs out.
    pub(super) fn push_element(&mut self, name: &str, value: Value) -> Result<(), NoMemory>
        ensures ok { OnOk result (self.new ≡ with_value_pushed name.now (tree value) self.old) }
        ensures err { OnErr result (self.new ≡ self.old) }
    {
        match self.place_of(name) {
            Some(place) => self.values[place].push_element(value),
            None => Ok(()),
        }
    }

    /// A copy with this value in place of the one at `place`. It shares the names. Fails when memory runs out.
    pub(super) fn copy_with(&self, place: usize, value: Value) -> Result<Self, NoMemory>
        requires { place < length self.now }
        ensures { IfOk result (λ copy. copy ≡ with_value_at place (tree value) self.now) }
    {
        Ok(Fields {
            names: self.names.clone()?,
            values: copies_with(&self.values, place, value)?,
        })
    }

    /// Removes the field with the name, and returns its value, if there is one. The names are copied without it.
    pub(super) fn remove(&mut self, name: &str) -> Result<Option<Value>, NoMemory>
        ensures before { IfOk result (λ before. option_map tree before ≡ value_under name.now self.old) }
        ensures ok { OnOk result (self.new ≡ without name.now self.old) }
        ensures err { OnErr result (self.new ≡ self.old) }
    {
        let Some(place) = self.place_of(name) else {
            return Ok(None);
        };
        let names = self.names.front_without(self.values.len(), place)?;
        self.names = Rc::new(*self.values.allocator(), names)?;
        Ok(Some(self.values.remove(place)))
    }

    /// Frees unused room, if possible.
    pub(super) fn trim(&mut self)
        ensures { self.new ≡ self.old }
    {
        self.values.shrink_to_fit();
        if let Some(names) = Rc::get_mut(&mut self.names) {
            names.trim();
            return;
        }
        if self.names.len() / 2 > self.values.len() {
            self.leave_names();
        }
    }

    /// Copies the names, so that those of a longer document can be dropped with it; if memory runs out, nothing changes.
    fn leave_names(&mut self)
        ensures { self.new ≡ self.old }
    {
        let alloc = *self.values.allocator();
        if let Ok(names) = own_names(alloc, &self.names, self.values.len()) {
            self.names = names;
        }
    }

    /// A copy, which shares the names. In time linear in the number of fields. Fails when memory runs out.
    pub(super) fn try_clone(&self) -> Result<Self, NoMemory>
        ensures { IfOk result (λ copy. copy ≡ self.now) }
    {
        Ok(Fields {
            names: self.names.clone()?,
            values: copies_of(&self.values)?,
        })
    }
}

/// A copy of the first `count` names, to be shared. Fails when memory runs out.
fn own_names(alloc: Global, names: &Names, count: usize) -> Result<Rc<Names>, NoMemory>
    requires { count ≤ length names.now }
    ensures { IfOk result (λ own. own.value ≡ take count names.now) }
{
    Ok(Rc::new(alloc, names.front(count)?)?)
}

/// Puts the name after the first `count`, if it isn't there. Names that are shared are copied first.
fn put_name(alloc: Global, names: &mut Rc<Names>, count: usize, name: &str) -> Result<(), NoMemory>
    requires within { count ≤ length names.old.value }
    requires whole { has_zero name.now ≡ false }
    requires fresh { has_name name.now (map bare (take count names.old.value)) ≡ false }
    ensures ok { OnOk result (take (count + 1) names.new.value ≡ take count names.old.value ++ name.now ∷ []) }
    ensures err { OnErr result (names.new.value ≡ names.old.value) }
{
    if names.is_at(count, name) {
        return Ok(());
    }
    if names.len() == count {
        if let Some(own) = Rc::get_mut(names) {
            return own.add(name);
        }
    }
    let mut own = names.front(count)?;
    own.add(name)?;
    *names = Rc::new(alloc, own)?;
    Ok(())
}
