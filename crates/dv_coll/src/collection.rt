//! Documents by their `_id`.

ghost use Rattle.std.specs.Prelude.{◌≡◌, ◌↔◌, [], None, codes, false, filter, length, reverse, IfOk, IsErrOf, IsSome, IsTrue, OnErr, OnOk, is_some};
ghost use Rattle.std.specs.BTreeMap.{get_by};
ghost use Rattle.std.specs.BTreeMap.Range.{IsLeBy, IsLtBy, range_contains};
ghost use Rattle.std.specs.Iterator.{YieldsFirstRef, item_count};
ghost use Rattle.std.specs.List.{AllByRecursion};
ghost use Rattle.std.specs.Option.{option_map};
ghost use Rattle.std.specs.Range.Bound.{IsForward};
ghost use Rattle.std.specs.Str.{bytes_eq};
ghost use Rattle.dv_value.specs.FieldChange.{with_field_changed};
ghost use Rattle.dv_value.specs.Names.{has_zero};
ghost use Rattle.dv_order.specs.Key.{key_order};
ghost use Rattle.dv_coll.specs.Collection.{HasId, IsAscending, id_key, found, inserted, removed, replaced, with_field_changed_in};
ghost use Rattle.dv_coll.specs.Inner.Keyed.{changed_under};

use crate::fault::InsertFault;
use crate::walk::Walk;
use dv_order::{Key, key_of, laws, replace_under_first};
use dv_value::{Document, FieldChange, NoMemory};
use std::alloc::Global;
use std::collections::BTreeMap;
use std::collections::btree_map::{Entry, Values};
use std::marker::Model;
use std::ops::Bound;

/// Documents in the order of their `_id`s. No two `_id`s are equal, whatever the width of their integers. `_id` is the first field
/// of each, and its value no array.
///
/// A document is found in time logarithmic in their number.
#[derive(Debug, Drop)]
pub struct Collection {
    documents: BTreeMap<Key, Document>,
}

impl Model for Collection {
    ghost use Rattle.std.specs.Prelude as prelude;
    ghost use Rattle.std.specs.Coded.{coded_list, coded×, coded_ℕ};
    ghost use Rattle.std.specs.BTreeMap.{values};
    ghost use Rattle.dv_value.specs.Tree.{Field};
    ghost use Rattle.dv_value.specs.Inner.TreeCode.{coded_tree};
    ghost use Rattle.dv_coll.specs.Inner.Keyed.{IsKeyed};

    ghost Value = { prelude.List (prelude.List Field) };

    ghost coded = { coded_list (coded_list (coded× (coded_list coded_ℕ) coded_tree)) };

    ghost view = { λ c. values c.documents };

    ghost invariant = { λ c. IsKeyed c.documents.entries };
}

impl Collection {
    /// A collection without documents, whose memory will be allocated by `alloc`.
    pub fn new(alloc: Global) -> Self
        ensures { result ≡ [] }
    {
        Collection {
            documents: BTreeMap::new(alloc),
        }
    }

    /// How many documents there are.
    pub fn len(&self) -> usize
        ensures count { result ≡ length self.now }
        ensures ascending { IsAscending self.now }
        ensures identified { AllByRecursion HasId self.now }
    {
        self.documents.len()
    }

    /// A law: the documents ascend by their `_id`s, and each begins with its own. Does nothing.
    pub fn law_ascending(&self)
        ensures ascending { IsAscending self.now }
        ensures identified { AllByRecursion HasId self.now }
    {
        let _documents = &self.documents;
    }

    /// Whether there is no document.
    pub fn is_empty(&self) -> bool
        ensures { IsTrue result ↔ (self.now ≡ []) }
    {
        self.documents.is_empty()
    }

    /// The document under the key of its `_id`, if there is one. Takes no memory.
    #[tactic(auto, using(crate::proofs::Places::places))]
    pub fn get(&self, key: &Key) -> Option<&Document>
        ensures { option_map (λ document. document.now) result ≡ found key.now self.now }
    {
        self.documents.get(key)
    }

    /// The documents in the order of their `_id`s. Takes no memory.
    pub fn iter(&self) -> Iter<'_>
        ensures documents { result ≡ self.now }
        ensures ascending { IsAscending self.now }
        ensures identified { AllByRecursion HasId self.now }
    {
        Iter {
            documents: self.documents.values(),
        }
    }

    /// The documents whose `_id`s' keys are between two ends, in the order of their `_id`s. Takes no memory.
    pub fn between(&self, low: Bound<Key>, high: Bound<Key>) -> Walk<'_>
        requires { IsForward (IsLeBy key_order) (IsLtBy key_order) low high }
        ensures { result ≡ filter (λ d. range_contains key_order low high (id_key d)) self.now }
    {
        Walk::of(self.documents.range((low, high)), false)
    }

    /// The same, in reverse.
    pub fn between_from_last(&self, low: Bound<Key>, high: Bound<Key>) -> Walk<'_>
        requires { IsForward (IsLeBy key_order) (IsLtBy key_order) low high }
        ensures { result ≡ reverse (filter (λ d. range_contains key_order low high (id_key d)) self.now) }
    {
        Walk::of(self.documents.range((low, high)), true)
    }

    /// Puts the document in its place. Refused with `Duplicate` if a document has an equal `_id`, and with `NoMemory` when memory
    /// runs out, also while the `_id` is looked up; then nothing is changed, and the document is dropped.
    #[tactic(auto, using(crate::proofs::Places::places))]
    pub fn insert(&mut self, mut document: Document) -> Result<(), InsertFault>
        requires { HasId document }
        ensures ok { OnOk result (self.new ≡ inserted document self.old) }
        ensures err { OnErr result (self.new ≡ self.old) }

        // An equal `_id` is never inserted, and no new one is refused as a duplicate.
        ensures fresh { OnOk result (found (id_key document) self.old ≡ None) }
        ensures duplicate { IsErrOf result InsertFault.Duplicate → IsSome (found (id_key document) self.old) }
    {
        // Most documents of a collection have the same names.
        if let Some((_, last)) = self.documents.last_key_value() {
            document.share_names(last);
        }
        document.keep_size();
        let key = key_of_id(&document)?;
        self.insert_under(key, document)
    }

    /// Puts the document in place of the one with an equal `_id`, and returns whether there is one. If there is none, nothing is
    /// changed, and the document is dropped. Takes no memory.
    #[tactic(auto, using(crate::proofs::Replaced::replacements))]
    pub fn replace(&mut self, mut document: Document) -> bool
        requires { HasId document }
        ensures found { result ≡ is_some (found (id_key document) self.old) }
        ensures documents { self.new ≡ replaced document self.old }
    {
        laws::equal_keys_are_one();
        take_first_names(&mut document, &self.documents);
        replace_under_first(&mut self.documents, document)
    }

    /// Makes the change of the field under the name, in the document under the key of its `_id`, and returns whether there is such
    /// a document. If there is none, nothing is changed, and the value is dropped. The document is changed in place, unless a copy
    /// shares its fields: then these are copied first. Fails with `NoMemory` when memory runs out for that, or for a new field or
    /// element; then nothing is changed. The name is not `_id`, and holds no zero byte.
    #[tactic(auto, using(crate::proofs::Changed::changed))]
    pub fn change_field(
        &mut self,
        key: &Key,
        name: &str,
        change: FieldChange,
    ) -> Result<bool, NoMemory>
        requires no_id { bytes_eq name.now (codes "_id") ≡ false }
        requires whole { has_zero name.now ≡ false }
        ensures found { IfOk result (λ there. there ≡ is_some (found key.now self.old)) }
        ensures ok { OnOk result (self.new ≡ with_field_changed_in (found key.now self.old) name.now change self.old) }
        ensures err { OnErr result (self.new ≡ self.old) }
    {
        laws::equal_keys_are_one();
        change_in_document(&mut self.documents, key, name, change)
    }

    /// Removes the document under the key of its `_id`, if there is one, and returns it. Takes no memory.
    #[tactic(auto, using(crate::proofs::Places::places, crate::proofs::Removed::removals))]
    pub fn remove(&mut self, key: &Key) -> Option<Document>
        ensures document { result ≡ found key.now self.old }
        ensures documents { self.new ≡ removed key.now self.old }
    {
        self.documents.remove(key)
    }

    /// Puts the document in its place, under the key of its `_id`. Refused with `Duplicate` exactly if a document has an equal
    /// `_id`, and with `NoMemory` when memory runs out for storing it.
    #[tactic(auto, using(crate::proofs::Places::places))]
    fn insert_under(&mut self, key: Key, document: Document) -> Result<(), InsertFault>
        requires identified { HasId document }
        requires keyed { key ≡ id_key document }
        ensures ok { OnOk result (self.new ≡ inserted document self.old) }
        ensures err { OnErr result (self.new ≡ self.old) }
        ensures duplicate { IsErrOf result InsertFault.Duplicate ↔ IsSome (found (id_key document) self.old) }
    {
        match self.documents.entry(key)? {
            Entry::Occupied(_) => Err(InsertFault::Duplicate),
            Entry::Vacant(place) => {
                place.insert(document);
                Ok(())
            }
        }
    }
}

/// Makes the change of the field under the name, in the document under the key, and returns whether there is one. Fails when
/// memory runs out; then nothing is changed.
#[tactic(auto, using(crate::proofs::Changed::put_same))]
fn change_in_document(
    documents: &mut BTreeMap<Key, Document>,
    key: &Key,
    name: &str,
    change: FieldChange,
) -> Result<bool, NoMemory>
    requires { has_zero name.now ≡ false }
    ensures found { IfOk result (λ there. there ≡ is_some (get_by (key_order key.now) documents.old)) }
    ensures ok { OnOk result (documents.new.entries ≡ changed_under (get_by (key_order key.now) documents.old) key.now name.now change documents.old.entries) }
    ensures err { OnErr result (documents.new.entries ≡ documents.old.entries) }
{
    let Some(document) = documents.get_mut(key) else {
        return Ok(false);
    };
    if document.get(name).is_some() {
        change_and_keep_size(document, name, change)?;
        return Ok(true);
    }
    change_beside_first(documents, key, name, change)
}

/// The same, but the document first shares the names of the first one, so that a new field uses a name that is already there.
#[tactic(auto, using(crate::proofs::Changed::put_same))]
fn change_beside_first(
    documents: &mut BTreeMap<Key, Document>,
    key: &Key,
    name: &str,
    change: FieldChange,
) -> Result<bool, NoMemory>
    requires { has_zero name.now ≡ false }
    ensures found { IfOk result (λ there. there ≡ is_some (get_by (key_order key.now) documents.old)) }
    ensures ok { OnOk result (documents.new.entries ≡ changed_under (get_by (key_order key.now) documents.old) key.now name.now change documents.old.entries) }
    ensures err { OnErr result (documents.new.entries ≡ documents.old.entries) }
{
    let first = first_copy(documents);
    let Some(document) = documents.get_mut(key) else {
        return Ok(false);
    };
    if let Some(first) = first {
        document.share_names(&first);
    }
    change_and_keep_size(document, name, change)?;
    Ok(true)
}

/// A copy of the first document, if there is one, and memory for the copy.
fn first_copy(documents: &BTreeMap<Key, Document>) -> Option<Document> {
    let (_, first) = documents.first_key_value()?;
    first.try_clone().ok()
}

/// Makes the change of the field under the name. Fails when memory runs out; then nothing is changed.
fn change_and_keep_size(
    document: &mut Document,
    name: &str,
    change: FieldChange,
) -> Result<(), NoMemory>
    requires { has_zero name.now ≡ false }
    ensures ok { OnOk result (document.new ≡ with_field_changed name.now change document.old) }
    ensures err { OnErr result (document.new ≡ document.old) }
{
    document.change_field(name, change)?;
    document.keep_size();
    Ok(())
}

/// Has the document share the names of the first one, since most documents of a collection have the same names.
fn take_first_names(document: &mut Document, documents: &BTreeMap<Key, Document>)
    ensures { document.new ≡ document.old }
{
    if let Some((_, first)) = documents.first_key_value() {
        document.share_names(first);
    }
}

/// The key of the `_id` with which the document begins. Fails with `NoMemory` when memory runs out.
pub fn key_of_id(document: &Document) -> Result<Key, NoMemory>
    requires { HasId document.now }
    ensures { IfOk result (λ key. key ≡ id_key document.now) }
{
    let Some((_, id)) = document.entry(0) else {
        unreachable!()
    };
    key_of(id)
}

/// Documents of a collection that are still to be returned, in the order of their `_id`s.
#[derive(Debug, Drop)]
pub struct Iter<'a> {
    documents: Values<'a, Key, Document>,
}

impl<'a> Model for Iter<'a> {
    ghost use Rattle.std.specs.Prelude as prelude;
    ghost use Rattle.std.specs.Coded.{coded_list, coded×, coded_ℕ};
    ghost use Rattle.dv_value.specs.Tree.{Field};
    ghost use Rattle.dv_value.specs.Inner.TreeCode.{coded_tree};

    ghost Value = { prelude.List (prelude.List Field) };

    ghost coded = { coded_list (coded_list (coded× (coded_list coded_ℕ) coded_tree)) };

    ghost view = { λ i. i.documents };
}

impl<'a> Iterator for Iter<'a> {
    type Item = &'a Document;

    ghost next_gives = { YieldsFirstRef (λ i. i) };

    ghost remaining = { item_count (λ i. i) };

    fn next(&mut self) -> Option<&'a Document> {
        self.documents.next()
    }
}
