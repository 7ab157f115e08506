//! The names of a document's fields.

ghost use Rattle.std.specs.Prelude.{◌≡◌, ◌↔◌, ◌≤◌, ◌<◌, [], ◌∷◌, ◌++◌, Some, false, length, take, map, IsTrue, OnOk, OnErr, IfOk, IfSome, slice_get, remove};
ghost use Rattle.std.specs.Option.{option_map};
ghost use Rattle.dv_value.specs.Names.{bare, AreNamed, place_under, has_name, has_zero};
ghost use Rattle.dv_value.specs.Inner.Places.{IsNameIndexOf};

use crate::NoMemory;
use crate::name::Name;
use crate::name_index::NameIndex;
use std::alloc::Global;
use std::cell::Cell;
use std::marker::Model;

/// This many names, or more, are indexed when the next one is added.
const INDEXED_LENGTH: usize = 32;

/// Names in the order of their fields, no two of them the same, and none with a zero byte.
#[derive(Debug, Drop)]
pub struct Names {
    names: Vec<Name>,
    /// The places of the names, once they are too many to be searched one by one.
    index: Option<Box<NameIndex>>,
    /// The place of the last name that was looked up and found: most often the next one is the same, since documents of one shape
    /// share their names.
    last_found: Cell<usize>,
}

impl Model for Names {
    ghost use Rattle.std.specs.Prelude.{List, ℕ, map, IfSome};
    ghost use Rattle.dv_value.specs.Names.{bare, AreNamed};
    ghost use Rattle.dv_value.specs.Inner.Places.{IsNameIndexOf};

    ghost Value = { List (List ℕ) };

    ghost view = { λ n. n.names.items };

    ghost invariant = { λ n. let fields = map bare n.names.items in AreNamed fields × IfSome n.index (λ index. IsNameIndexOf fields index.value) };
}

impl Names {
    /// No names, with room for this many. Fails with `NoMemory` when memory runs out.
    pub fn with_room(alloc: Global, names: usize) -> Result<Self, NoMemory>
        ensures { IfOk result (λ names. names ≡ []) }
    {
        Ok(Names {
            names: Vec::with_capacity(alloc, names)?,
            index: None,
            last_found: Cell::new(0),
        })
    }

    /// How many names there are.
    pub fn len(&self) -> usize
        ensures len { result ≡ length self.now }
        ensures named { AreNamed (map bare self.now) }
    {
        self.names.len()
    }

    /// The name at `place`.
    pub(crate) fn get(&self, place: usize) -> Option<&str>
        ensures { option_map (λ name. name.now) result ≡ slice_get self.now place }
    {
        let name = self.name_at(place)?;
        Some(name.as_str())
    }

    fn name_at(&self, place: usize) -> Option<&Name>
        ensures { option_map (λ name. name.now) result ≡ slice_get self.now place }
    {
        self.names.get(place)
    }

    /// Whether this name is at `place`.
    pub(crate) fn is_at(&self, place: usize, name: &str) -> bool
        ensures { IsTrue result ↔ (slice_get self.now place ≡ Some name.now) }
    {
        match self.name_at(place) {
            Some(there) => there.is(name),
            None => false,
        }
    }

    /// Whether the first `count` names are the other's first ones, and at most `count + 1` names follow there: so a few names don't
    /// keep a long list in memory.
    pub(crate) fn begins_as(&self, other: &Names, count: usize) -> bool
        ensures { IsTrue result → (count ≤ length other.now) × (take count self.now ≡ take count other.now) }
    {
        if other.len() / 2 > count {
            return false;
        }
        for place in 0..count {
            match self.get(place) {
                Some(name) if other.is_at(place, name) => {}
                _ => return false,
            }
        }
        true
    }

    /// The place of the name, if there is one. Found in time logarithmic in the number of names, and at once if it is the name that
    /// was found last.
    pub(crate) fn place_of(&self, name: &str) -> Option<usize>
        ensures place { result ≡ place_under name.now (map bare self.now) }
        ensures named { AreNamed (map bare self.now) }
    {
        let last = self.last_found.get();
        if self.is_at(last, name) {
            return Some(last);
        }
        let place = self.place_by_search(name)?;
        self.last_found.set(place);
        Some(place)
    }

    /// Whether the name is among them.
    pub fn has(&self, name: &str) -> bool
        ensures { result ≡ has_name name.now (map bare self.now) }
    {
        self.place_by_search(name).is_some()
    }

    /// The same, without a look at the place that was found last.
    fn place_by_search(&self, name: &str) -> Option<usize>
        ensures place { result ≡ place_under name.now (map bare self.now) }
        ensures named { AreNamed (map bare self.now) }
    {
        match &self.index {
            Some(index) => index.place_of(name),
            None => place_among(&self.names, name),
        }
    }

    /// Adds a name that is known to be new and without a zero byte. Fails with `NoMemory` when memory runs out; then nothing is
    /// changed.
    pub fn add(&mut self, name: &str) -> Result<(), NoMemory>
        requires whole { has_zero name.now ≡ false }
        requires fresh { has_name name.now (map bare self.old) ≡ false }
        ensures ok { OnOk result (self.new ≡ self.old ++ name.now ∷ []) }
        ensures err { OnErr result (self.new ≡ self.old) }
    {
        let alloc = *self.names.allocator();
        let name = Name::of(alloc, name)?;
        // Room first: once the name is in the index, nothing may fail.
        self.names.reserve(1)?;
        index_next(alloc, &mut self.index, &self.names, name.as_str())?;
        self.names.push(name)?;
        Ok(())
    }

    /// Frees unused room, if possible.
    pub(crate) fn trim(&mut self)
        ensures { self.new ≡ self.old }
    {
        self.names.shrink_to_fit();
    }

    /// A copy of the first `count` names. Fails when memory runs out.
    pub(crate) fn front(&self, count: usize) -> Result<Self, NoMemory>
        requires { count ≤ length self.now }
        ensures { IfOk result (λ front. front ≡ take count self.now) }
    {
        let alloc = *self.names.allocator();
        let mut names = Vec::with_capacity(alloc, count)?;
        put_copies(&mut names, &self.names[..count])?;
        let index = index_of(alloc, &names)?;
        Ok(Names {
            names,
            index,
            last_found: Cell::new(0),
        })
    }

    /// A copy of the first `count` names except the one at `place`. Fails when memory runs out.
    pub(crate) fn front_without(&self, count: usize, place: usize) -> Result<Self, NoMemory>
        requires within { count ≤ length self.now }
        requires there { place < count }
        ensures { IfOk result (λ front. front ≡ remove (take count self.now) place) }
    {
        let alloc = *self.names.allocator();
        let mut names = Vec::with_capacity(alloc, count - 1)?;
        put_copies(&mut names, &self.names[..place])?;
        put_copies(&mut names, &self.names[place + 1..count])?;
        let index = index_of(alloc, &names)?;
        Ok(Names {
            names,
            index,
            last_found: Cell::new(0),
        })
    }
}

/// Adds copies of the names at the end. Fails when memory runs out.
fn put_copies(copies: &mut Vec<Name>, names: &[Name]) -> Result<(), NoMemory>
    ensures { OnOk result (copies.new.items ≡ copies.old.items ++ names.now) }
{
    for name in names {
        copies.push(name.try_clone()?)?;
    }
    Ok(())
}

/// The place of the first of these names that equals the name, if there is one.
fn place_among(names: &[Name], name: &str) -> Option<usize>
    ensures { result ≡ place_under name.now (map bare names.now) }
{
    for (place, there) in names.iter().enumerate() {
        if there.is(name) {
            return Some(place);
        }
    }
    None
}

/// Indexes the name that comes after these, if there are enough names for an index. If memory runs out, the index is still that of
/// these names.
fn index_next(
    alloc: Global,
    index: &mut Option<Box<NameIndex>>,
    names: &[Name],
    name: &str,
) -> Result<(), NoMemory>
    requires named { AreNamed (map bare names.now) }
    requires fresh { has_name name.now (map bare names.now) ≡ false }
    requires indexed { IfSome index.old (λ index. IsNameIndexOf (map bare names.now) index.value) }
    ensures ok { OnOk result (IfSome index.new (λ index. IsNameIndexOf (map bare names.now ++ bare name.now ∷ []) index.value)) }
    ensures err { OnErr result (IfSome index.new (λ index. IsNameIndexOf (map bare names.now) index.value)) }
{
    if index.is_none() {
        *index = index_of(alloc, names)?;
    }
    match index {
        Some(index) => index.add(alloc, name, names.len()),
        None => Ok(()),
    }
}

/// The index of these names, if there are enough for an index.
#[inline]
fn index_of(alloc: Global, names: &[Name]) -> Result<Option<Box<NameIndex>>, NoMemory>
    requires { AreNamed (map bare names.now) }
    ensures { IfOk result (λ index. IfSome index (λ index. IsNameIndexOf (map bare names.now) index.value)) }
{
    if names.len() < INDEXED_LENGTH {
        return Ok(None);
    }
    Ok(Some(Box::new(alloc, all_indexed(alloc, names)?)?))
}

/// The index of these names.
fn all_indexed(alloc: Global, names: &[Name]) -> Result<NameIndex, NoMemory>
    requires { AreNamed (map bare names.now) }
    ensures { IfOk result (λ index. IsNameIndexOf (map bare names.now) index) }
{
    let mut index = NameIndex::new(alloc);
    for (place, name) in names.iter().enumerate() {
        index.add(alloc, name.as_str(), place)?;
    }
    Ok(index)
}
