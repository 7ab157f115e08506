//! Documents: how they are made, read and changed.

ghost use Rattle.std.specs.Prelude.{◌≡◌, ◌<◌, ◌≤◌, ◌↔◌, ◌⊎◌, if◌then◌else◌, Some, None, [], ◌∷◌, ◌++◌, true, false, length, map, IsTrue, OnOk, OnErr, IfOk, IfErr, IfSome, IsErrOf, slice_get};
ghost use Rattle.std.specs.Option.{option_map};
ghost use Rattle.dv_value.specs.FieldChange.{with_value_pushed};
ghost use Rattle.dv_value.specs.Measure.{IsMeasure};
ghost use Rattle.dv_value.specs.Names.{AreNamed, value_under, with_value_under, with_values, without, has_name, has_zero};
ghost use Rattle.dv_value.specs.View.{tree};

use crate::NoMemory;
use crate::fault::BsonFault;
use crate::limits::{document_size, is_shallow};
use crate::value::{Content, Document, Fields, Measured, Overlay, Value};
use std::alloc::Global;
use std::rc::Rc;

impl Document {
    /// A document without fields, whose fields will be allocated by `alloc`.
    pub fn new(alloc: Global) -> Self
        ensures { result ≡ [] }
    {
        Document {
            alloc,
            content: Content::Empty,
        }
    }

    /// A document without fields, with room for as many as `like` has; fields of the same names, added in the same order, share its
    /// names. Fails with `NoMemory` when memory runs out.
    pub fn expecting(alloc: Global, like: &Document) -> Result<Self, NoMemory>
        ensures { IfOk result (λ document. document ≡ []) }
    {
        if like.is_empty() {
            return Ok(Document::new(alloc));
        }
        let fields = Measured::of(Fields::beside(alloc, like)?, None);
        let content = Content::Own(Rc::new(alloc, fields)?);
        Ok(Document { alloc, content })
    }

    /// The document with these values under the names of the other's first fields. It shares these names. Fails with `NoMemory`
    /// when memory runs out.
    pub fn like(document: &Document, values: Vec<Value>) -> Result<Self, NoMemory>
        requires { length values.items ≤ length document.now }
        ensures { IfOk result (λ like. like ≡ with_values document.now (map tree values.items)) }
    {
        let alloc = *values.allocator();
        let fields = Measured::of(Fields::like(document, values)?, None);
        let content = Content::Own(Rc::new(alloc, fields)?);
        Ok(Document { alloc, content })
    }

    /// The document with these fields, whose encoding has this size. The fields' unused room is freed. Fails with `NoMemory` when
    /// memory runs out.
    pub fn of(alloc: Global, mut fields: Fields, size: u32) -> Result<Self, NoMemory>
        requires { IsMeasure size fields }
        ensures { IfOk result (λ document. document ≡ fields) }
    {
        if fields.len() == 0 {
            return Ok(Document::new(alloc));
        }
        fields.trim();
        let content = Content::Own(Rc::new(alloc, Measured::of(fields, Some(size)))?);
        Ok(Document { alloc, content })
    }

    /// How many fields there are.
    pub fn len(&self) -> usize
        ensures len { result ≡ length self.now }
        // No name holds a zero byte, and no two fields have the same name.
        ensures named { AreNamed self.now }
    {
        match &self.content {
            Content::Own(measured) => measured.fields().len(),
            Content::Over(overlay) => overlay.count(),
            Content::Empty => 0,
        }
    }

    /// States that no name holds a zero byte, and no two fields have the same name. Does nothing.
    pub fn law_named(&self)
        ensures { AreNamed self.now }
    {
        let _count = self.len();
    }

    /// Whether there is no field.
    pub fn is_empty(&self) -> bool
        ensures { IsTrue result ↔ (self.now ≡ []) }
    {
        self.len() == 0
    }

    /// The name and the value of the field at `place`, counted from 0 in written order.
    pub fn entry(&self, place: usize) -> Option<(&str, &Value)>
        ensures { option_map (λ field. (field.0.now, tree field.1.now)) result ≡ slice_get self.now place }
    {
        match &self.content {
            Content::Own(measured) => measured.fields().entry(place),
            Content::Over(overlay) => overlay.shown(place),
            Content::Empty => None,
        }
    }

    /// The value under the name, if there is one. Found in time logarithmic in the number of fields, whatever the names are.
    pub fn get(&self, name: &str) -> Option<&Value>
        ensures { option_map (λ value. tree value.now) result ≡ value_under name.now self.now }
    {
        match &self.content {
            Content::Own(measured) => measured.fields().get(name),
            Content::Over(overlay) => overlay.value_named(name),
            Content::Empty => None,
        }
    }

    /// Adds a field at the end. Refused with `BadName` if the name holds a zero byte, with `RepeatedName` if a field has it, and
    /// with `NoMemory`; then nothing is changed, and the value is dropped.
    pub fn push(&mut self, name: &str, value: Value) -> Result<(), BsonFault>
        ensures ok { OnOk result (self.new ≡ self.old ++ (name.now, tree value) ∷ []) }
        ensures err { OnErr result (self.new ≡ self.old) }

        ensures bad_name { IsErrOf result BsonFault.BadName ↔ (has_zero name.now ≡ true) }
        ensures repeated { IsErrOf result BsonFault.RepeatedName ↔ (has_name name.now self.old ≡ true) }
        ensures other { IfErr result (λ e. (e ≡ BsonFault.BadName) ⊎ (e ≡ BsonFault.RepeatedName) ⊎ (e ≡ BsonFault.NoMemory)) }
    {
        self.check_new(name)?;
        Ok(self.add(name, value)?)
    }

    /// Whether a field with the name can be added, or why it can't be.
    #[tactic(auto, using(crate::proofs::Named::places))]
    pub(super) fn check_new(&self, name: &str) -> Result<(), BsonFault>
        ensures ok { OnOk result ((has_zero name.now ≡ false) × (has_name name.now self.now ≡ false)) }
        ensures err { IfErr result (λ e. ((e ≡ BsonFault.BadName) × (has_zero name.now ≡ true) × (has_name name.now self.now ≡ false)) ⊎ ((e ≡ BsonFault.RepeatedName) × (has_name name.now self.now ≡ true) × (has_zero name.now ≡ false))) }
    {
        if self.has(name) {
            return Err(BsonFault::RepeatedName);
        }
        if name.as_bytes().contains(&0) {
            return Err(BsonFault::BadName);
        }
        Ok(())
    }

    /// Whether a field has the name.
    fn has(&self, name: &str) -> bool
        ensures has { result ≡ has_name name.now self.now }
        ensures named { AreNamed self.now }
    {
        match &self.content {
            Content::Own(measured) => measured.fields().has(name),
            Content::Over(overlay) => overlay.has_named(name),
            Content::Empty => false,
        }
    }

    /// Adds a field at the end. The name must hold no zero byte, and no field may have it: `push` checks this. Fields that a copy
    /// shares are copied first. Fails with `NoMemory` when memory runs out; then nothing is changed, and the value is dropped.
    pub fn add(&mut self, name: &str, value: Value) -> Result<(), NoMemory>
        requires whole { has_zero name.now ≡ false }
        requires fresh { has_name name.now self.old ≡ false }
        ensures ok { OnOk result (self.new ≡ self.old ++ (name.now, tree value) ∷ []) }
        ensures err { OnErr result (self.new ≡ self.old) }
    {
        match &mut self.content {
            Content::Own(shared) => Rc::make_mut(shared)?.add(name, value),
            Content::Over(overlay) => Rc::make_mut(overlay)?.add_own(name, value),
            Content::Empty => {
                self.content = Content::Own(first_field(self.alloc, name, value)?);
                Ok(())
            }
        }
    }

    /// Makes room for one more value if there is none, and for no further ones, since a stored document gets few more. Fields that
    /// a copy shares are copied first. Fails when memory runs out.
    pub(crate) fn reserve_one(&mut self) -> Result<(), NoMemory>
        ensures { self.new ≡ self.old }
    {
        match &mut self.content {
            Content::Own(shared) => Rc::make_mut(shared)?.reserve_one(),
            Content::Over(_) | Content::Empty => Ok(()),
        }
    }

    /// Puts the value in place of the one under the name, and returns the old one. If no field has the name, it returns none,
    /// changes nothing and drops the value. If memory runs out, it changes nothing too. Memory is taken only if a copy shares the
    /// fields, or the document shows values that other documents may share: then the fields are copied first. Otherwise it takes
    /// time logarithmic in the number of fields.
    pub fn replace(&mut self, name: &str, value: Value) -> Result<Option<Value>, NoMemory>
        ensures before { IfOk result (λ before. option_map tree before ≡ value_under name.now self.old) }
        ensures ok { OnOk result (self.new ≡ with_value_under name.now (tree value) self.old) }
        ensures err { OnErr result (self.new ≡ self.old) }
    {
        if !self.has(name) {
            drop(value);
            return Ok(None);
        }
        if let Content::Own(shared) = &mut self.content {
            return Ok(Rc::make_mut(shared)?.replace(name, value));
        }
        let mut owned = self.owned()?;
        let before = owned.replace(name, value);
        self.content = Content::Own(Rc::new(self.alloc, owned)?);
        Ok(before)
    }

    /// Puts the value in place of the one under the name, which is dropped. If no field has the name, nothing is changed and the
    /// value is returned. If memory runs out, nothing is changed and the value is dropped. Memory is taken only if a copy shares
    /// the fields: then the other values are copied. Otherwise it takes time logarithmic in the number of fields; if the length of
    /// the encoding is kept, both values are also measured.
    pub fn put(&mut self, name: &str, value: Value) -> Result<Option<Value>, NoMemory>
        ensures back { IfOk result (λ back. option_map tree back ≡ (if has_name name.now self.old then None else Some (tree value))) }
        ensures ok { OnOk result (self.new ≡ with_value_under name.now (tree value) self.old) }
        ensures err { OnErr result (self.new ≡ self.old) }
    {
        match &mut self.content {
            Content::Own(shared) => put_value(self.alloc, shared, name, value),
            Content::Over(overlay) => put_over(self.alloc, overlay, name, value),
            Content::Empty => Ok(Some(value)),
        }
    }

    /// Appends the value to the array under the name. If there is no array, nothing is changed, and the value is dropped. Fields
    /// that a copy shares are copied first. Fails when memory runs out.
    pub(crate) fn push_element(&mut self, name: &str, value: Value) -> Result<(), NoMemory>
        ensures ok { OnOk result (self.new ≡ with_value_pushed name.now (tree value) self.old) }
        ensures err { OnErr result (self.new ≡ self.old) }
    {
        let Some(Value::Array(_)) = self.get(name) else {
            return Ok(());
        };
        if let Content::Own(shared) = &mut self.content {
            return Rc::make_mut(shared)?.push_element(name, value);
        }
        let mut owned = self.owned()?;
        owned.push_element(name, value)?;
        self.content = Content::Own(Rc::new(self.alloc, owned)?);
        Ok(())
    }

    /// Removes the field with the name, and returns its value. If no field has the name, it returns none and changes nothing. If
    /// memory runs out, it changes nothing either. Takes time linear in the number of fields.
    pub fn remove(&mut self, name: &str) -> Result<Option<Value>, NoMemory>
        ensures before { IfOk result (λ before. option_map tree before ≡ value_under name.now self.old) }
        ensures ok { OnOk result (self.new ≡ without name.now self.old) }
        ensures err { OnErr result (self.new ≡ self.old) }
    {
        if !self.has(name) {
            return Ok(None);
        }
        if let Content::Own(shared) = &mut self.content {
            return Rc::make_mut(shared)?.remove(name);
        }
        let mut owned = self.owned()?;
        let before = owned.remove(name)?;
        self.content = Content::Own(Rc::new(self.alloc, owned)?);
        Ok(before)
    }

    /// Keeps the length of the encoding with the fields, if there is one, no copy shares them, they show no values that other
    /// documents may share, and they have at most 100 levels. Then `size`, `fits` and writing need not compute it again. It is
    /// updated when a value is added, or put in place of one that is dropped; other changes drop it. Nothing that a caller sees
    /// changes. Takes no memory. Takes constant time if it is kept already, and otherwise time linear in what the document holds.
    pub fn keep_size(&mut self)
        ensures { self.new ≡ self.old }
    {
        if self.is_shared() || self.kept_size().is_some() {
            return;
        }
        let Some(size) = document_size(self) else {
            return;
        };
        if !is_shallow(self, size) {
            return;
        }
        if let Content::Own(shared) = &mut self.content {
            if let Some(own) = Rc::get_mut(shared) {
                own.keep(size as u32);
            }
        }
    }

    /// Whether a copy shares the fields, or another document may share values.
    fn is_shared(&self) -> bool {
        match &self.content {
            Content::Own(shared) => Rc::strong_count(shared) > 1,
            Content::Over(_) => true,
            Content::Empty => false,
        }
    }

    /// The length of the encoding, if it is kept.
    pub(crate) fn kept_size(&self) -> Option<u32>
        ensures { IfSome result (λ size. IsMeasure size self.now) }
    {
        match &self.content {
            Content::Own(measured) => measured.size(),
            Content::Over(_) | Content::Empty => None,
        }
    }

    /// The name and the value of the field at `place`. There must be one.
    pub fn field(&self, place: usize) -> (&str, &Value)
        requires { place < length self.now }
        ensures { slice_get self.now place ≡ Some (result.0.now, tree result.1.now) }
    {
        match self.entry(place) {
            Some(field) => field,
            None => unreachable!(),
        }
    }

    /// A copy, which shares the memory of the fields until one of the two is changed: in constant time. Fails with `NoMemory` when
    /// memory runs out.
    pub fn try_clone(&self) -> Result<Self, NoMemory>
        ensures { IfOk result (λ copy. copy ≡ self.now) }
    {
        let content = match &self.content {
            Content::Own(fields) => Content::Own(fields.clone()?),
            Content::Over(fields) => Content::Over(fields.clone()?),
            Content::Empty => Content::Empty,
        };
        Ok(Document {
            alloc: self.alloc,
            content,
        })
    }

    /// Copies of the fields, which own their values. Fails when memory runs out.
    fn owned(&self) -> Result<Measured, NoMemory>
        ensures { IfOk result (λ owned. owned ≡ self.now) }
    {
        let mut fields = Fields::beside(self.alloc, self)?;
        'fields: for place in 0..self.len() {
            let (name, value) = self.field(place);
            fields.add(name, value.try_clone()?)?;
        }
        Ok(Measured::of(fields, None))
    }
}

/// Puts the value in place of the one under the name; if no field has the name, the value is returned. Fields that a copy shares
/// are copied without the value that is replaced.
fn put_value(
    alloc: Global,
    shared: &mut Rc<Measured>,
    name: &str,
    value: Value,
) -> Result<Option<Value>, NoMemory>
    ensures back { IfOk result (λ back. option_map tree back ≡ (if has_name name.now shared.old.value then None else Some (tree value))) }
    ensures ok { OnOk result (shared.new.value ≡ with_value_under name.now (tree value) shared.old.value) }
    ensures err { OnErr result (shared.new.value ≡ shared.old.value) }
{
    let Some(place) = shared.fields().place_of(name) else {
        return Ok(Some(value));
    };
    if let Some(own) = Rc::get_mut(shared) {
        own.put_at(place, value);
        return Ok(None);
    }
    let changed = shared.copy_with(place, value)?;
    *shared = Rc::new(alloc, changed)?;
    Ok(None)
}

/// The same for fields, some of which show values that other documents share. A copy of the fields shares the values that stay,
/// too.
fn put_over(
    alloc: Global,
    shared: &mut Rc<Overlay>,
    name: &str,
    value: Value,
) -> Result<Option<Value>, NoMemory>
    ensures back { IfOk result (λ back. option_map tree back ≡ (if has_name name.now shared.old.value then None else Some (tree value))) }
    ensures ok { OnOk result (shared.new.value ≡ with_value_under name.now (tree value) shared.old.value) }
    ensures err { OnErr result (shared.new.value ≡ shared.old.value) }
{
    let Some(place) = shared.place_named(name) else {
        return Ok(Some(value));
    };
    if let Some(own) = Rc::get_mut(shared) {
        own.put_at(place, value);
        return Ok(None);
    }
    let changed = shared.copy_with(place, value)?;
    *shared = Rc::new(alloc, changed)?;
    Ok(None)
}

/// One field, whose name holds no zero byte. Fails when memory runs out.
fn first_field(alloc: Global, name: &str, value: Value) -> Result<Rc<Measured>, NoMemory>
    requires { has_zero name.now ≡ false }
    ensures { IfOk result (λ fields. fields.value ≡ (name.now, tree value) ∷ []) }
{
    let mut fields = Fields::with_room(alloc, 1)?;
    fields.add(name, value)?;
    Ok(Rc::new(alloc, Measured::of(fields, None))?)
}
