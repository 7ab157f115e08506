//! Fields, some of which show values that other documents share.

ghost use Rattle.std.specs.Prelude.{◌≡◌, ◌<◌, ◌≤◌, [], ◌∷◌, ◌++◌, false, length, slice_get, map, OnOk, OnErr, IfOk, IfSome};
ghost use Rattle.std.specs.Option.{option_map, option_flatten};
ghost use Rattle.dv_value.specs.Names.{AreNamed, place_under, value_under, value_at, with_values, has_name, has_zero};
ghost use Rattle.dv_value.specs.Tree.{fields_of, elements_of};
ghost use Rattle.dv_value.specs.Inner.Covers.{IsText};
ghost use Rattle.dv_value.specs.Inner.Put.{with_value_at};
ghost use Rattle.dv_value.specs.Inner.Tree.{fields_weight, elements_weight};
ghost use Rattle.dv_value.specs.View.{tree, covering};

use crate::NoMemory;
use crate::value::{Cover, Document, Fields, Overlay, SharedText, Value};
use std::alloc::Global;
use std::rc::Rc;

impl Overlay {
    /// No fields, with room for as many as the document has, whose names they may share. Fails when memory runs out.
    pub(super) fn beside(alloc: Global, document: &Document) -> Result<Self, NoMemory>
        ensures { IfOk result (λ overlay. overlay ≡ []) }
    {
        let fields = Fields::beside(alloc, document)?;
        let covers = Vec::with_capacity(alloc, document.len())?;
        Ok(Overlay { fields, covers })
    }

    /// The fields with their own values: the names are those that are shown.
    pub(super) fn own_fields(&self) -> &Fields {
        &self.fields
    }

    /// As `with_values` of `Fields`.
    pub(super) fn with_values(&self, values: Vec<Value>) -> Result<Fields, NoMemory>
        requires { length values.items ≤ length self.now }
        ensures { IfOk result (λ fields. fields ≡ with_values self.now (map tree values.items)) }
    {
        self.fields.with_values(values)
    }

    /// How many fields there are.
    pub(super) fn count(&self) -> usize
        ensures len { result ≡ length self.now }
        ensures named { AreNamed self.now }
    {
        self.fields.len()
    }

    /// The name and the value of the field at `place`.
    pub(super) fn shown(&self, place: usize) -> Option<(&str, &Value)>
        ensures { option_map (λ field. (field.0.now, tree field.1.now)) result ≡ slice_get self.now place }
    {
        let (name, own) = self.fields.entry(place)?;
        match text_over(&self.covers, place) {
            Some(text) => Some((name, text.value())),
            None => Some((name, own)),
        }
    }

    /// The shared value that covers the field at `place`, if any, shared once more. Fails when memory runs out.
    pub(super) fn cover(&self, place: usize) -> Result<Option<SharedText>, NoMemory>
        ensures { IfOk result (λ cover. IfSome cover (λ text. text ≡ value_at place self.now)) }
    {
        match text_over(&self.covers, place) {
            Some(text) => Ok(Some(text.try_clone()?)),
            None => Ok(None),
        }
    }

    /// The place of the field with the name, if there is one.
    pub(super) fn place_named(&self, name: &str) -> Option<usize>
        ensures { result ≡ place_under name.now self.now }
    {
        self.fields.place_of(name)
    }

    /// The value under the name, if there is one.
    pub(super) fn value_named(&self, name: &str) -> Option<&Value>
        ensures { option_map (λ value. tree value.now) result ≡ value_under name.now self.now }
    {
        let place = self.place_named(name)?;
        let (_name, value) = self.shown(place)?;
        Some(value)
    }

    /// Whether a field has the name.
    pub(super) fn has_named(&self, name: &str) -> bool
        ensures has { result ≡ has_name name.now self.now }
        ensures named { AreNamed self.now }
    {
        self.fields.has(name)
    }

    /// Adds a field with a value of its own, as `add` of `Fields`.
    pub(super) fn add_own(&mut self, name: &str, value: Value) -> Result<(), NoMemory>
        requires whole { has_zero name.now ≡ false }
        requires fresh { has_name name.now self.old ≡ false }
        ensures ok { OnOk result (self.new ≡ self.old ++ (name.now, tree value) ∷ []) }
        ensures err { OnErr result (self.new ≡ self.old) }
    {
        self.covers.reserve(1)?;
        self.fields.add(name, value)?;
        self.covers.push(Cover::Absent)?;
        Ok(())
    }

    /// Adds a field that shows the text, as `add` of `Fields`.
    pub(super) fn add_shared(&mut self, name: &str, text: SharedText) -> Result<(), NoMemory>
        requires whole { has_zero name.now ≡ false }
        requires fresh { has_name name.now self.old ≡ false }
        ensures ok { OnOk result (self.new ≡ self.old ++ (name.now, text) ∷ []) }
        ensures err { OnErr result (self.new ≡ self.old) }
    {
        self.covers.reserve(1)?;
        self.fields.add(name, Value::Null)?;
        self.covers.push(Cover::Shared(text))?;
        Ok(())
    }

    /// Puts the value in place of the one at `place`.
    pub(super) fn put_at(&mut self, place: usize, value: Value)
        requires { place < length self.old }
        ensures { self.new ≡ with_value_at place (tree value) self.old }
    {
        self.fields.put_at(place, value);
        self.covers[place] = Cover::Absent;
    }

    /// A copy with this value in place of the one at `place`. It shares the names, and what covers the other fields. Fails when
    /// memory runs out.
    pub(super) fn copy_with(&self, place: usize, value: Value) -> Result<Self, NoMemory>
        requires { place < length self.now }
        ensures { IfOk result (λ copy. copy ≡ with_value_at place (tree value) self.now) }
    {
        let fields = self.fields.copy_with(place, value)?;
        let mut covers = copied_covers(&self.covers)?;
        covers[place] = Cover::Absent;
        Ok(Overlay { fields, covers })
    }

    /// The fields' own values. They weigh no more than the values that are shown.
    pub(super) fn into_values(self) -> Vec<Value>
        ensures { elements_weight (elements_of (map tree result.items)) ≤ fields_weight (fields_of self) }
    {
        let Overlay { fields, covers: _ } = self;
        fields.into_values()
    }
}

impl Clone for Overlay {
    ghost is_clone = { λ overlay copy. copy ≡ overlay };

    fn clone(&self) -> Result<Self, NoMemory> {
        Ok(Overlay {
            fields: self.fields.try_clone()?,
            covers: copied_covers(&self.covers)?,
        })
    }
}

impl SharedText {
    /// The value, a text or a binary, to be shared. Fails when memory runs out.
    pub(super) fn of(alloc: Global, value: Value) -> Result<Self, NoMemory>
        requires { IsText (tree value) }
        ensures { IfOk result (λ text. text ≡ tree value) }
    {
        Ok(SharedText {
            value: Rc::new(alloc, value)?,
        })
    }

    /// The value.
    fn value(&self) -> &Value
        ensures { tree result.now ≡ self.now }
    {
        self.value.as_ref()
    }

    /// The same text, shared once more. Fails when memory runs out.
    fn try_clone(&self) -> Result<Self, NoMemory>
        ensures { IfOk result (λ copy. copy ≡ self.now) }
    {
        Ok(SharedText {
            value: self.value.clone()?,
        })
    }
}

impl Cover {
    /// The same, which shares the text. Fails when memory runs out.
    fn try_clone(&self) -> Result<Self, NoMemory>
        ensures { IfOk result (λ copy. covering copy ≡ covering self.now) }
    {
        match self {
            Cover::Absent => Ok(Cover::Absent),
            Cover::Shared(text) => Ok(Cover::Shared(text.try_clone()?)),
        }
    }
}

/// What covers the field at `place`, if anything does.
fn text_over(covers: &Vec<Cover>, place: usize) -> Option<&SharedText>
    ensures { option_map (λ text. text.now) result ≡ option_flatten (slice_get (map covering covers.now.items) place) }
{
    let cover = covers.get(place)?;
    match cover {
        Cover::Shared(text) => Some(text),
        Cover::Absent => None,
    }
}

/// The same covers, in order. Fails when memory runs out.
fn copied_covers(covers: &Vec<Cover>) -> Result<Vec<Cover>, NoMemory>
    ensures { IfOk result (λ copies. map covering copies.items ≡ map covering covers.now.items) }
{
    let mut copies = Vec::with_capacity(*covers.allocator(), covers.len())?;
    for cover in covers {
        copies.push(cover.try_clone()?)?;
    }
    Ok(copies)
}
