//! What a key holds in memory.

ghost use Rattle.std.specs.Prelude.{◌≡◌, ◌≤◌, Some, IfOk, IfSome, length, take};
ghost use Rattle.dv_value.specs.Tree.{string, array, binary, elements_of};
ghost use Rattle.dv_value.specs.View.{tree};
ghost use Rattle.dv_order.specs.Order.{canon};
ghost use Rattle.dv_order.specs.Key.{first_value, key_at, value as key_of_tree};
ghost use Rattle.dv_order.specs.Source.{source_value};
ghost use Rattle.dv_order.specs.Inner.Sources.{IsLarge, IsSound, shown_key};

use crate::padding::{padded, text_in};
use crate::shown::Shown;
use crate::small::Small;
use dv_value::{Bytes, Document, List, NoMemory, Str, Value};
use std::alloc::Global;
use std::rc::Rc;

/// What a key is made of.
#[derive(Debug, Drop)]
pub(crate) enum KeySource {
    /// No value has it.
    NoElement,
    Small(Small),
    /// A text, followed by zeros.
    Short { len: u8, bytes: [u8; 22] },
    /// The same, of up to 24 bytes: as many as an ObjectId's hexadecimal digits.
    Middle { len: u8, bytes: Rc<[u8; 24]> },
    /// The same, of up to 40 bytes.
    Long { len: u8, bytes: Rc<[u8; 40]> },
    Document(Document),
    /// Any other value.
    Shared(Rc<Value>),
    /// The document whose first field has the value.
    First(Document),
}

impl KeySource {
    /// The source of the value's key. Fails when memory runs out.
    pub(crate) fn of(value: &Value) -> Result<Self, NoMemory>
        ensures value { IfOk result (λ source. key_at (source_value source) ≡ key_of_tree (canon (tree value.now))) }
        ensures sound { IfOk result IsSound }
    {
        match Small::of(value) {
            Some(small) => Ok(KeySource::Small(small)),
            None => of_large(value),
        }
    }

    /// The source of the text's key. Fails when memory runs out.
    pub(crate) fn of_text(alloc: Global, text: &str) -> Result<Self, NoMemory>
        ensures value { IfOk result (λ source. key_at (source_value source) ≡ key_of_tree (string text.now)) }
        ensures sound { IfOk result IsSound }
    {
        match of_padded(alloc, text)? {
            Some(source) => Ok(source),
            None => share(alloc, Value::Text(Str::of(String::from_str(alloc, text)?))),
        }
    }

    /// The source of the key of the document's first value, if it takes no memory.
    pub(crate) fn of_first(document: &Document) -> Option<Self>
        ensures value { IfSome result (λ source. key_at (source_value source) ≡ key_at (first_value document.now)) }
        ensures sound { IfSome result IsSound }
    {
        let (_, value) = document.entry(0)?;
        if let Some(small) = Small::of(value) {
            return Some(KeySource::Small(small));
        }
        match value {
            Value::Text(text) => of_short(text.as_str()),
            _ => None,
        }
    }

    /// A copy, which shares its memory. Fails when memory runs out.
    pub(crate) fn try_clone(&self) -> Result<Self, NoMemory>
        requires { IsSound self.now }
        ensures value { IfOk result (λ copy. key_at (source_value copy) ≡ key_at (source_value self.now)) }
        ensures sound { IfOk result IsSound }
    {
        Ok(match self {
            KeySource::NoElement => KeySource::NoElement,
            KeySource::Small(small) => KeySource::Small(*small),
            KeySource::Short { len, bytes } => KeySource::Short {
                len: *len,
                bytes: *bytes,
            },
            KeySource::Middle { len, bytes } => KeySource::Middle {
                len: *len,
                bytes: bytes.clone()?,
            },
            KeySource::Long { len, bytes } => KeySource::Long {
                len: *len,
                bytes: bytes.clone()?,
            },
            KeySource::Document(document) => KeySource::Document(document.try_clone()?),
            KeySource::Shared(value) => KeySource::Shared(value.clone()?),
            KeySource::First(document) => return of_first_value(document),
        })
    }

    /// The key as it is compared.
    pub(crate) fn shown(&self) -> Shown<'_>
        requires { IsSound self.now }
        ensures { shown_key result ≡ key_at (source_value self.now) }
    {
        match self {
            KeySource::NoElement => Shown::Nothing,
            KeySource::Small(small) => Shown::Small(*small),
            KeySource::Short { len, bytes } => Shown::Text(text_in(bytes.as_slice(), *len)),
            KeySource::Middle { len, bytes } => Shown::Text(text_in(bytes.as_slice(), *len)),
            KeySource::Long { len, bytes } => Shown::Text(text_in(bytes.as_slice(), *len)),
            KeySource::Document(document) => Shown::Document(document),
            KeySource::Shared(value) => Shown::of(value.as_ref()),
            KeySource::First(document) => match document.entry(0) {
                Some((_, value)) => Shown::of(value),
                None => Shown::Nothing,
            },
        }
    }
}

/// The source of the key of a value that isn't small. Fails when memory runs out.
fn of_large(value: &Value) -> Result<KeySource, NoMemory>
    requires { IsLarge (tree value.now) }
    ensures value { IfOk result (λ source. key_at (source_value source) ≡ key_of_tree (canon (tree value.now))) }
    ensures sound { IfOk result IsSound }
{
    match value {
        Value::Text(text) => of_owned_text(text),
        Value::Doc(document) => Ok(KeySource::Document(document.try_clone()?)),
        Value::Array(list) => of_list(list),
        Value::Binary { subtype, bytes } => of_binary(*subtype, bytes),
        _ => unreachable!(),
    }
}

/// The source of the key of the document's first value. Fails when memory runs out.
fn of_first_value(document: &Document) -> Result<KeySource, NoMemory>
    ensures value { IfOk result (λ source. key_at (source_value source) ≡ key_at (first_value document.now)) }
    ensures sound { IfOk result IsSound }
{
    match document.entry(0) {
        Some((_, value)) => KeySource::of(value),
        None => Ok(KeySource::NoElement),
    }
}

/// The source of the text's key. A copy of the text has its allocator. Fails when memory runs out.
fn of_owned_text(text: &Str) -> Result<KeySource, NoMemory>
    ensures value { IfOk result (λ source. key_at (source_value source) ≡ key_of_tree (string text.now)) }
    ensures sound { IfOk result IsSound }
{
    if let Some(source) = of_short(text.as_str()) {
        return Ok(source);
    }
    let copy = text.try_clone()?.into_inner();
    let alloc = *copy.allocator();
    match of_padded(alloc, copy.as_str())? {
        Some(source) => Ok(source),
        None => share(alloc, Value::Text(Str::of(copy))),
    }
}

fn of_list(list: &List) -> Result<KeySource, NoMemory>
    ensures value { IfOk result (λ source. source_value source ≡ Some (array (elements_of list.now))) }
    ensures sound { IfOk result IsSound }
{
    let copy = list.try_clone()?.into_inner();
    let alloc = *copy.allocator();
    share(alloc, Value::Array(List::of(copy)))
}

fn of_binary(subtype: u8, bytes: &Bytes) -> Result<KeySource, NoMemory>
    ensures value { IfOk result (λ source. source_value source ≡ Some (binary subtype bytes.now)) }
    ensures sound { IfOk result IsSound }
{
    let copy = bytes.try_clone()?.into_inner();
    let alloc = *copy.allocator();
    share(
        alloc,
        Value::Binary {
            subtype,
            bytes: Bytes::of(copy),
        },
    )
}

/// The value behind a pointer, which copies share. Fails when memory runs out.
fn share(alloc: Global, value: Value) -> Result<KeySource, NoMemory>
    ensures value { IfOk result (λ source. source_value source ≡ Some (tree value)) }
    ensures sound { IfOk result IsSound }
{
    Ok(KeySource::Shared(Rc::new(alloc, value)?))
}

/// The source of the key of a text of up to 22 bytes.
fn of_short(text: &str) -> Option<KeySource>
    ensures value { IfSome result (λ source. source_value source ≡ Some (string text.now)) }
    ensures sound { IfSome result IsSound }
{
    let text = text.as_bytes();
    if text.len() > 22 {
        return None;
    }
    let len = text.len() as u8;
    let bytes = padded::<22>(text)?;
    Some(KeySource::Short { len, bytes })
}

/// The source of the key of a text of up to 40 bytes. Fails when memory runs out.
fn of_padded(alloc: Global, text: &str) -> Result<Option<KeySource>, NoMemory>
    ensures value { IfOk result (λ found. IfSome found (λ source. source_value source ≡ Some (string text.now))) }
    ensures sound { IfOk result (λ found. IfSome found IsSound) }
{
    if let Some(source) = of_short(text) {
        return Ok(Some(source));
    }
    let text = text.as_bytes();
    if text.len() > 40 {
        return Ok(None);
    }
    let len = text.len() as u8;
    if let Some(bytes) = padded::<24>(text) {
        let bytes = Rc::new(alloc, bytes)?;
        return Ok(Some(KeySource::Middle { len, bytes }));
    }
    if let Some(bytes) = padded::<40>(text) {
        let bytes = Rc::new(alloc, bytes)?;
        return Ok(Some(KeySource::Long { len, bytes }));
    }
    Ok(None)
}
