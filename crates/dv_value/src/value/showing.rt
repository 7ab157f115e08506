//! Documents that show values of others: long texts and binaries, which aren't copied.

ghost use Rattle.std.specs.Prelude.{◌≡◌, ◌+◌, ◌⊎◌, ◌↔◌, ◌<◌, [], ◌∷◌, ◌++◌, Some, true, false, length, take, OnOk, OnErr, IfOk, IfErr, IfSome, IsErrOf, IsTrue};
ghost use Rattle.dv_value.specs.Names.{AreNamed, place_under, value_under, value_at, has_name, has_zero};
ghost use Rattle.dv_value.specs.Inner.Covers.{IsText};
ghost use Rattle.dv_value.specs.View.{tree};

use crate::NoMemory;
use crate::fault::BsonFault;
use crate::value::{Content, Document, Fields, Overlay, SharedText, Value};
use std::rc::Rc;

/// A text or binary of this many bytes, or more, is shared and not copied.
const LONG: usize = 256;

impl Document {
    /// A copy whose long texts and binaries, of 256 bytes or more, are shared from now on: by copies of it, even when they are
    /// changed, and by documents to which a field of it is pushed by `push_shown`. It takes time linear in the number of fields if
    /// no value is long or all long ones are shared, and otherwise linear in what is copied once more: the values, except for
    /// documents inside. Fails with `NoMemory` when memory runs out.
    pub fn try_share(&self) -> Result<Self, NoMemory>
        ensures { IfOk result (λ copy. copy ≡ self.now) }
    {
        if !self.has_long() {
            return self.try_clone();
        }
        let overlay = Rc::new(self.alloc, self.overlaid()?)?;
        Ok(Document {
            alloc: self.alloc,
            content: Content::Over(overlay),
        })
    }

    /// Whether there is a long value that isn't shared.
    fn has_long(&self) -> bool {
        match &self.content {
            Content::Own(measured) => measured.fields().has_long(),
            Content::Over(overlay) => overlay.own_fields().has_long(),
            Content::Empty => false,
        }
    }

    /// A copy of the fields, of which the long ones are shared. Fails when memory runs out.
    fn overlaid(&self) -> Result<Overlay, NoMemory>
        ensures { IfOk result (λ overlay. overlay ≡ self.now) }
    {
        let mut overlay = Overlay::beside(self.alloc, self)?;
        'fields: for place in 0..self.len() {
            self.overlay_next(place, &mut overlay)?;
        }
        Ok(overlay)
    }

    /// Adds a copy of the field at `place` after those of the fields before it. Fails when memory runs out.
    fn overlay_next(&self, place: usize, overlay: &mut Overlay) -> Result<(), NoMemory>
        requires named { AreNamed self.now }
        requires there { place < length self.now }
        requires before { overlay.old ≡ take place self.now }
        ensures { OnOk result (overlay.new ≡ take (place + 1) self.now) }
    {
        let (name, value) = self.field(place);
        match self.share(place)? {
            Some(text) => overlay.add_shared(name, text),
            None => overlay.add_own(name, value.try_clone()?),
        }
    }

    /// The value of the field at `place`, to be shared, if it is long. Fails when memory runs out.
    fn share(&self, place: usize) -> Result<Option<SharedText>, NoMemory>
        requires { place < length self.now }
        ensures { IfOk result (λ share. IfSome share (λ text. text ≡ value_at place self.now)) }
    {
        let cover = self.cover(place)?;
        let (_name, value) = self.field(place);
        if cover.is_some() || !value.is_long() {
            return Ok(cover);
        }
        Ok(Some(SharedText::of(self.alloc, value.try_clone()?)?))
    }

    /// The value of the field at `place`, if it is shared. Fails when memory runs out.
    fn cover(&self, place: usize) -> Result<Option<SharedText>, NoMemory>
        ensures { IfOk result (λ cover. IfSome cover (λ text. text ≡ value_at place self.now)) }
    {
        match &self.content {
            Content::Over(overlay) => overlay.cover(place),
            Content::Own(_) | Content::Empty => Ok(None),
        }
    }

    /// The place of the field with the name, counted from 0 in written order, if there is one. Found in time logarithmic in the
    /// number of fields.
    pub fn place_of(&self, name: &str) -> Option<usize>
        ensures place { result ≡ place_under name.now self.now }
        ensures within { IfSome result (λ place. place < length self.now) }
        ensures value { IfSome result (λ place. value_under name.now self.now ≡ Some (value_at place self.now)) }
    {
        match &self.content {
            Content::Own(measured) => measured.fields().place_of(name),
            Content::Over(overlay) => overlay.place_named(name),
            Content::Empty => None,
        }
    }

    /// Adds a field at the end that shows the value of the field at `place` of the other document: a copy, unless that document
    /// shares it, as a document from `try_share` shares its long texts and binaries. Refused as `push`.
    pub fn push_shown(&mut self, name: &str, from: &Document, place: usize) -> Result<(), BsonFault>
        requires { place < length from.now }
        ensures ok { OnOk result (self.new ≡ self.old ++ (name.now, value_at place from.now) ∷ []) }
        ensures err { OnErr result (self.new ≡ self.old) }

        ensures bad_name { IsErrOf result BsonFault.BadName ↔ (has_zero name.now ≡ true) }
        ensures repeated { IsErrOf result BsonFault.RepeatedName ↔ (has_name name.now self.old ≡ true) }
        ensures other { IfErr result (λ e. (e ≡ BsonFault.BadName) ⊎ (e ≡ BsonFault.RepeatedName) ⊎ (e ≡ BsonFault.NoMemory)) }
    {
        self.check_new(name)?;
        Ok(self.add_shown(name, from, place)?)
    }

    /// The same with a name that is known to be new and without a zero byte. Fails when memory runs out; then nothing is changed.
    fn add_shown(&mut self, name: &str, from: &Document, place: usize) -> Result<(), NoMemory>
        requires whole { has_zero name.now ≡ false }
        requires fresh { has_name name.now self.old ≡ false }
        requires there { place < length from.now }
        ensures ok { OnOk result (self.new ≡ self.old ++ (name.now, value_at place from.now) ∷ []) }
        ensures err { OnErr result (self.new ≡ self.old) }
    {
        let (_name, value) = from.field(place);
        match from.cover(place)? {
            Some(text) => self.add_shared(name, text),
            None => self.add(name, value.try_clone()?),
        }
    }

    /// Adds a field that shows the text. Fails when memory runs out; then nothing is changed.
    fn add_shared(&mut self, name: &str, text: SharedText) -> Result<(), NoMemory>
        requires whole { has_zero name.now ≡ false }
        requires fresh { has_name name.now self.old ≡ false }
        ensures ok { OnOk result (self.new ≡ self.old ++ (name.now, text) ∷ []) }
        ensures err { OnErr result (self.new ≡ self.old) }
    {
        if let Content::Over(overlay) = &mut self.content {
            return Rc::make_mut(overlay)?.add_shared(name, text);
        }
        let mut overlay = self.overlaid()?;
        overlay.add_shared(name, text)?;
        self.content = Content::Over(Rc::new(self.alloc, overlay)?);
        Ok(())
    }
}

impl Fields {
    /// Whether a value is long.
    fn has_long(&self) -> bool {
        for value in &self.values {
            if value.is_long() {
                return true;
            }
        }
        false
    }
}

impl Value {
    /// Whether it is a text or binary that is shared and not copied. In constant time.
    fn is_long(&self) -> bool
        ensures { IsTrue result → IsText (tree self.now) }
    {
        match self {
            Value::Text(text) => text.as_str().len() >= LONG,
            Value::Binary { subtype: _, bytes } => bytes.as_slice().len() >= LONG,
            _ => false,
        }
    }
}
