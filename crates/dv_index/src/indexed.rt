//! A collection with its indexes.

ghost use Rattle.std.specs.Prelude.{◌≡◌, ◌↔◌, ◌++◌, ◌∷◌, [], None, List, codes, false, true, is_some, length, map, IfOk, IsErrOf, IsSome, IsTrue, OnErr, OnOk};
ghost use Rattle.std.specs.List.{AllByRecursion, list_any};
ghost use Rattle.std.specs.Option.{option_map};
ghost use Rattle.std.specs.Str.{bytes_eq};
ghost use Rattle.dv_value.specs.Names.{has_zero};
ghost use Rattle.dv_value.specs.Tree.{Field};
ghost use Rattle.dv_coll.specs.Collection.{AreStanding, HasId, IsAscending, found, id_key, inserted, removed, replaced, with_field_changed_in};
ghost use Rattle.dv_index.specs.Inner.Change.{AreIndexesOf, IsChangeOf, IsTaken, documents_after};
ghost use Rattle.dv_keyed.specs.Index.{id_form};
ghost use Rattle.dv_keyed.specs.Inner.Index.{form_of};
ghost use Rattle.dv_keyed.specs.Inner.View.{form_of_new, plan_seen};
ghost use Rattle.dv_index.specs.Inner.View.{afters, befores};
ghost use Rattle.dv_index.specs.Indexed.{empty_indexed, is_dropped, without_index};
ghost use Rattle.dv_index.specs.Inner.Indexed.{with_documents, with_indexes};
ghost use Rattle.dv_index.specs.Unique.{are_broken};
ghost use Rattle.dv_index.specs.Indexed as defined;
ghost use Rattle.dv_index.specs.Unique as uniqueness;

use crate::change::Change;
use crate::coverage::covered;
use crate::indexes::Indexes;
use crate::making::indexes_over;
use crate::unique::{Replacing, clashes, replacing_clashes};
use dv_coll::{Collection, InsertFault, Iter, key_of_id, laws};
use dv_keyed::{Index, NewIndex, Plan, Planner};
use dv_match::Filter;
use dv_order::Key;
use dv_value::{Document, FieldChange, NoMemory};
use std::alloc::{AllocError, Global};
use std::marker::Model;

/// Documents in the order of their `_id`s, no two of which are equal, whatever the width of their integers; and indexes in the
/// order in which they were made, the one on `_id` first. `_id` is the first field of each document, and its value no array.
///
/// A document is found by its `_id` in time logarithmic in the number of documents. A change updates in each index only the keys
/// that differ.
#[derive(Debug, Drop)]
pub struct IndexedCollection {
    pub(crate) alloc: Global,
    pub(crate) documents: Collection,
    pub(crate) indexes: Indexes,
}

impl Model for IndexedCollection {
    ghost use Rattle.std.specs.Prelude as prelude;
    ghost use Rattle.dv_index.specs.Inner.Change.{AreIndexesOf};
    ghost use Rattle.dv_keyed.specs.Inner.Index.{form_of};
    ghost use Rattle.dv_index.specs.Indexed.{IndexedTree};
    ghost use Rattle.dv_index.specs.Inner.Indexed.{coded_indexed};

    ghost Value = { IndexedTree };

    ghost coded = { coded_indexed };

    ghost view = { λ c. record { documents = c.documents; indexes = prelude.map form_of c.indexes } };

    ghost invariant = { λ c. AreIndexesOf c.indexes c.documents };
}

/// What a find does, without its documents.
#[derive(Clone, Copy, Debug)]
pub struct Explanation<'c> {
    /// The name of the index by which the documents are found, and `None` if all are read.
    pub index: Option<&'c str>,
    /// How many documents have a leaf in the bounds in which the index is read, Missing counting as null; without an index, how
    /// many there are.
    pub documents: usize,
}

impl IndexedCollection {
    /// A collection without documents and with only the index on `_id`, whose memory will be allocated by `alloc`. Fails with
    /// `NoMemory` when memory runs out.
    pub fn new(alloc: Global) -> Result<Self, NoMemory>
        ensures { IfOk result (λ collection. collection ≡ empty_indexed) }
    {
        Ok(IndexedCollection {
            alloc,
            documents: Collection::new(alloc),
            indexes: Indexes::new(alloc)?,
        })
    }

    /// How many documents there are.
    pub fn len(&self) -> usize
        ensures count { result ≡ length self.now.documents }
        ensures ascending { IsAscending self.now.documents }
        ensures identified { AllByRecursion HasId self.now.documents }
    {
        self.documents.len()
    }

    /// That the documents ascend by their `_id`s, and that each begins with its own. Does nothing.
    pub fn law_ascending(&self)
        ensures ascending { IsAscending self.now.documents }
        ensures identified { AllByRecursion HasId self.now.documents }
    {
        self.documents.law_ascending();
    }

    /// Whether there is no document.
    pub fn is_empty(&self) -> bool
        ensures { IsTrue result ↔ (self.now.documents ≡ []) }
    {
        self.documents.is_empty()
    }

    /// The document under the key of its `_id`, if there is one. Takes no memory.
    pub fn get(&self, key: &Key) -> Option<&Document>
        ensures { option_map (λ document. document.now) result ≡ found key.now self.now.documents }
    {
        self.documents.get(key)
    }

    /// The documents in the order of their `_id`s. Takes no memory.
    pub fn iter(&self) -> Iter<'_>
        ensures documents { result ≡ self.now.documents }
        ensures ascending { IsAscending self.now.documents }
        ensures identified { AllByRecursion HasId self.now.documents }
    {
        self.documents.iter()
    }

    /// Puts the document in its place. Refused with `Duplicate` if a document has an equal `_id`, and with `NoMemory` when memory
    /// runs out, for the document or for its keys; then nothing is changed, and the document is dropped.
    pub fn insert(&mut self, document: Document) -> Result<(), InsertFault>
        requires { HasId document }
        ensures ok { OnOk result (self.new ≡ with_documents (inserted document self.old.documents) self.old) }
        ensures err { OnErr result (self.new ≡ self.old) }

        // An equal `_id` is never inserted, and no new one refused as a duplicate.
        ensures fresh { OnOk result (found (id_key document) self.old.documents ≡ None) }
        ensures duplicate { IsErrOf result InsertFault.Duplicate → IsSome (found (id_key document) self.old.documents) }
    {
        self.indexes
            .change(self.alloc, &mut self.documents, Change::Insert(document))
    }

    /// Puts the document in place of the one with an equal `_id`, and returns whether there is one. If there is none, nothing is
    /// changed, and the document is dropped. Fails with `NoMemory` when memory runs out for the keys of both, of which there are
    /// none if the index on `_id` is the only one; then nothing is changed.
    pub fn replace(&mut self, document: Document) -> Result<bool, NoMemory>
        requires { HasId document }
        ensures found { IfOk result (λ replaced. replaced ≡ is_some (found (id_key document) self.old.documents)) }
        ensures ok { OnOk result (self.new ≡ with_documents (replaced document self.old.documents) self.old) }
        ensures err { OnErr result (self.new ≡ self.old) }
    {
        if are_only_id(&self.indexes) {
            return Ok(self.documents.replace(document));
        }
        let id = key_of_id(&document)?;
        if self.documents.get(&id).is_none() {
            return Ok(false);
        }
        self.change(Change::Replace(document))?;
        Ok(true)
    }

    /// Makes the change of the field under the name, in the document under the key of its `_id`, and returns whether there is such
    /// a document. If there is none, nothing is changed, and the value is dropped. If no index's path begins with the name, the
    /// document is changed in place, as `Collection::change_field` does it. Fails with `NoMemory` when memory runs out; then
    /// nothing is changed. The name is not `_id`, and holds no zero byte.
    pub fn change_field(
        &mut self,
        key: &Key,
        name: &str,
        change: FieldChange,
    ) -> Result<bool, NoMemory>
        requires no_id { bytes_eq name.now (codes "_id") ≡ false }
        requires whole { has_zero name.now ≡ false }
        ensures found { IfOk result (λ there. there ≡ is_some (found key.now self.old.documents)) }
        ensures ok { OnOk result (self.new ≡ with_documents (with_field_changed_in (found key.now self.old.documents) name.now change self.old.documents) self.old) }
        ensures err { OnErr result (self.new ≡ self.old) }
    {
        laws::a_change_of_another_field_leaves_the_id();
        laws::what_is_found_has_the_key();
        laws::replaced_document_is_found();
        // All documents begin with their `_id`s.
        self.documents.law_ascending();
        if !self.indexes.have_path_through(name) {
            return self.documents.change_field(key, name, change);
        }
        self.change_in_copy(key, name, change)
    }

    /// The same, by a changed copy that replaces the document and its keys in the indexes.
    fn change_in_copy(
        &mut self,
        key: &Key,
        name: &str,
        change: FieldChange,
    ) -> Result<bool, NoMemory>
        requires no_id { bytes_eq name.now (codes "_id") ≡ false }
        requires whole { has_zero name.now ≡ false }
        ensures found { IfOk result (λ there. there ≡ is_some (found key.now self.old.documents)) }
        ensures ok { OnOk result (self.new ≡ with_documents (with_field_changed_in (found key.now self.old.documents) name.now change self.old.documents) self.old) }
        ensures err { OnErr result (self.new ≡ self.old) }
    {
        laws::a_change_of_another_field_leaves_the_id();
        laws::what_is_found_has_the_key();
        // All documents begin with their `_id`s.
        self.documents.law_ascending();
        let Some(document) = self.documents.get(key) else {
            return Ok(false);
        };
        let mut changed = document.try_clone()?;
        changed.change_field(name, change)?;
        self.change(Change::Replace(changed))?;
        Ok(true)
    }

    /// Removes the document under the key of its `_id`, and returns whether there is one. Fails with `NoMemory` when memory runs
    /// out for its keys, of which there are none if the index on `_id` is the only one; then nothing is changed.
    pub fn remove(&mut self, key: &Key) -> Result<bool, NoMemory>
        ensures found { IfOk result (λ gone. gone ≡ is_some (found key.now self.old.documents)) }
        ensures ok { OnOk result (self.new ≡ with_documents (removed key.now self.old.documents) self.old) }
        ensures err { OnErr result (self.new ≡ self.old) }
    {
        let found = self.documents.get(key).is_some();
        self.change(Change::Remove(key))?;
        Ok(found)
    }

    /// The indexes in the order in which they were made, the one on `_id` first: their names and paths, and whether they are
    /// unique. Takes no memory.
    pub fn indexes(&self) -> &[Index]
        ensures { map form_of result.now ≡ self.now.indexes }
    {
        self.indexes.as_slice()
    }

    /// Whether one of the indexes is unique. Takes no memory.
    pub fn has_unique(&self) -> bool
        ensures { result ≡ list_any (λ x. x.unique) self.now.indexes }
    {
        self.indexes.has_unique()
    }

    /// Whether the document can't be among the documents, since another `_id` than its own has one of its keys in a unique index.
    /// Fails with `NoMemory` when memory runs out.
    pub fn clashes(&self, document: &Document) -> Result<bool, NoMemory>
        requires { HasId document.now }
        ensures { IfOk result (λ clash. clash ≡ uniqueness.clashes self.now.indexes document.now self.now.documents) }
    {
        clashes(
            self.alloc,
            self.indexes.as_slice(),
            document,
            &self.documents,
        )
    }

    /// Whether one of the new documents can't be among the documents, each put in place of the one that it replaces, in the order
    /// of their `_id`s. Nothing is changed. Fails with `NoMemory` when memory runs out for the keys that are added and removed.
    pub fn replacing_clashes(&self, each: &[Replacing<'_>]) -> Result<bool, NoMemory>
        requires standing { AreStanding self.now.documents (befores each.now) }
        requires same_ids { map id_key (afters each.now) ≡ map id_key (befores each.now) }
        requires identified { AllByRecursion HasId (afters each.now) }
        ensures { IfOk result (λ clash. clash ≡ uniqueness.replacing_clashes self.now.indexes (afters each.now) self.now.documents) }
    {
        replacing_clashes(self.alloc, self.indexes.as_slice(), each, &self.documents)
    }

    /// Makes indexes, after the others and in this order. The caller has to ensure that neither the name nor the path of one is
    /// there already. Takes the time to sort the keys of all documents. Refused with `Duplicate` if one of them is unique and two
    /// documents share a key under its path, and with `NoMemory` when memory runs out; then none is made.
    pub fn create_indexes(&mut self, wanted: Vec<NewIndex>) -> Result<(), InsertFault>
        ensures ok { OnOk result (self.new ≡ with_indexes (self.old.indexes ++ map form_of_new wanted.items) self.old) }
        ensures err { OnErr result (self.new ≡ self.old) }

        // No unique index that two documents break is made, and none that they don't break is refused as a duplicate.
        ensures sound { OnOk result (are_broken (map form_of_new wanted.items) self.old.documents ≡ false) }
        ensures duplicate { IsErrOf result InsertFault.Duplicate → are_broken (map form_of_new wanted.items) self.old.documents ≡ true }
    {
        let made = indexes_over(self.alloc, wanted, &self.documents)?;
        self.indexes.append(made)?;
        Ok(())
    }

    /// Removes the index of a name, but never the one on `_id`, and returns whether there is one. Takes no memory.
    pub fn drop_index(&mut self, name: &str) -> bool
        ensures found { result ≡ list_any (is_dropped name.now) self.old.indexes }
        ensures indexes { self.new ≡ with_indexes (without_index name.now self.old.indexes) self.old }
    {
        self.indexes.remove(name)
    }

    /// Removes all indexes except the one on `_id`. Takes no memory.
    pub fn drop_indexes(&mut self)
        ensures { self.new ≡ with_indexes (id_form ∷ []) self.old }
    {
        self.indexes.clear();
    }

    /// Which index answers a find, and how many documents it covers. Fails with `NoMemory` when memory runs out.
    pub fn explain(&self, filter: &Filter) -> Result<Explanation<'_>, NoMemory>
        ensures index { IfOk result (λ explanation. option_map (λ name. name.now) explanation.index ≡ defined.index_chosen filter.now self.now.indexes) }
        ensures documents { IfOk result (λ explanation. explanation.documents ≡ defined.documents_covered filter.now self.now) }
    {
        let plan = Planner::choose(filter, self.indexes.as_slice());
        Ok(Explanation {
            index: name_of(&plan, &self.indexes),
            documents: covered(self.alloc, &plan, &self.documents, &self.indexes)?,
        })
    }

    /// Replaces or removes a document, and updates the indexes. Fails when memory runs out; then nothing is changed.
    fn change(&mut self, change: Change<'_>) -> Result<(), NoMemory>
        requires possible { IsChangeOf change self.old.documents }
        requires known { IsTaken change self.old.documents → ⊥ }
        ensures ok { OnOk result (self.new ≡ with_documents (documents_after change.entry self.old.documents) self.old) }
        ensures err { OnErr result (self.new ≡ self.old) }
    {
        match self.indexes.change(self.alloc, &mut self.documents, change) {
            Ok(()) => Ok(()),
            Err(InsertFault::NoMemory) => Err(AllocError),
            Err(InsertFault::Duplicate) => unreachable!(),
        }
    }
}

/// Whether there is no index except the one on `_id`, which has no keys of its own.
#[tactic(auto, using(crate::proofs::FieldChanged::one_index))]
fn are_only_id(indexes: &Indexes) -> bool
    ensures { IsTrue result → (documents : List (List Field)) → AreIndexesOf indexes.now documents }
{
    indexes.as_slice().len() == 1
}

/// The name of the index of a plan.
fn name_of<'c>(plan: &Plan<'_>, indexes: &'c Indexes) -> Option<&'c str>
    ensures { option_map (λ name. name.now) result ≡ defined.name_at (plan_seen plan.now) (map form_of indexes.now) }
{
    match *plan {
        Plan::Scan => None,
        Plan::Index { place, .. } => indexes.get(place).map(|index| index.name()),
    }
}
