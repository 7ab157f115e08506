//! The collections by their namespaces.

ghost use Rattle.std.specs.Prelude.{◌≡◌, ◌≤◌, [], None, length, map, take, OnErr, OnOk, IfOk};
ghost use Rattle.std.specs.FinMap as finite;
ghost use Rattle.std.specs.Option.{option_map};
ghost use Rattle.dv_coll.specs.Collection.{HasId};
ghost use Rattle.dv_catalog.specs.Changes.{apply};
ghost use Rattle.dv_catalog.specs.Effects as effects;
ghost use Rattle.dv_catalog.specs.Inner.EffectView.{ArePlaced, StandsFor, changes_seen};
ghost use Rattle.dv_catalog.specs.IndexMaking as making;
ghost use Rattle.dv_catalog.specs.Inner.IndexParts.{index_counts, indexes_created_in, indexes_dropped_in};
ghost use Rattle.dv_catalog.specs.Inner.Parts.{Leaves, Makes, one_changed};
ghost use Rattle.dv_catalog.specs.State.{AreOrdered, documents_of, empty_state, indexes_of, is_collection, with_documents};
ghost use Rattle.dv_catalog.specs.Inner.View.{standing_seen};
ghost use Rattle.dv_keyed.specs.Inner.View.{form_of_new};

use crate::effect::Changes;
use crate::failure::Stopped;
use crate::indexing::{IndexCounts, create_each, drop_named};
use crate::insert::put_new;
use crate::rows::FoundRows;
use dv_command::Refusal;
use dv_index::{IndexedCollection, NewIndex};
use dv_value::{Document, NoMemory};
use std::alloc::Global;
use std::collections::BTreeMap;
use std::marker::Model;

/// Collections with their indexes, found in time logarithmic in their number.
#[derive(Debug, Drop)]
pub(crate) struct Collections {
    alloc: Global,
    collections: BTreeMap<String, IndexedCollection>,
}

impl Model for Collections {
    ghost use Rattle.dv_catalog.specs.State.{Namespaces};
    ghost use Rattle.dv_catalog.specs.Inner.StateCode.{coded_namespaces};

    ghost Value = { Namespaces };

    ghost coded = { coded_namespaces };

    ghost use Rattle.dv_catalog.specs.Inner.View.{standing_by_namespace};

    ghost view = { λ c. standing_by_namespace c.collections };
}

impl Collections {
    /// No collection.
    pub(crate) fn new(alloc: Global) -> Self
        ensures { result ≡ empty_state.namespaces }
    {
        Collections {
            alloc,
            collections: BTreeMap::new(alloc),
        }
    }

    /// The collection of a namespace, if it exists.
    pub(crate) fn get(&self, namespace: &str) -> Option<&IndexedCollection>
        ensures { option_map (λ collection. standing_seen collection.now) result ≡ finite.get self.now namespace.now }
    {
        self.collections.get(namespace)
    }

    /// Whether the collection of a namespace is there.
    pub(crate) fn has(&self, namespace: &str) -> bool
        ensures { result ≡ is_collection namespace.now self.now }
    {
        self.get(namespace).is_some()
    }

    /// The documents of a namespace; none if it doesn't exist.
    pub(crate) fn rows(&self, namespace: &str) -> FoundRows<'_>
        ensures documents { result ≡ documents_of namespace.now self.now }
        ensures ordered { AreOrdered (documents_of namespace.now self.now) }
    {
        match self.get(namespace) {
            Some(collection) => FoundRows::of_collection(collection.iter()),
            None => FoundRows::none(),
        }
    }

    /// A law: the documents of a namespace are in order. Costs a look-up.
    pub(crate) fn law_ordered(&self, namespace: &str)
        ensures { AreOrdered (documents_of namespace.now self.now) }
    {
        let _ = self.rows(namespace);
    }

    /// Puts a document into the collection of a namespace, which is made if it doesn't exist. Refused with `DuplicateKey` if
    /// another document has an equal `_id`, or has a key in common with this one in a unique index, and with `WantOfMemory`; then
    /// nothing is changed, and no collection is made.
    pub(crate) fn insert(&mut self, namespace: &str, document: Document) -> Result<(), Stopped>
        requires { HasId document }
        ensures { Makes (λ _. one_changed) namespace.now (effects.put_new document) self.old result self.new }
    {
        match self.collections.get_mut(namespace) {
            Some(collection) => Ok(put_new(collection, document)?),
            None => self.insert_first(namespace, document),
        }
    }

    /// Puts a document into a new collection of a namespace that has none. Refused when memory runs out; then nothing is changed.
    fn insert_first(&mut self, namespace: &str, document: Document) -> Result<(), Stopped>
        requires identified { HasId document }
        requires fresh { finite.get self.old namespace.now ≡ None }
        ensures { Makes (λ _. one_changed) namespace.now (effects.put_new document) self.old result self.new }
    {
        let mut collection = IndexedCollection::new(self.alloc)?;
        collection.insert(document)?;
        let namespace = String::from_str(self.alloc, namespace)?;
        self.collections.insert(namespace, collection)?;
        Ok(())
    }

    /// Makes these changes of the documents of a namespace, one after the other, until memory runs out, and returns how many were
    /// made.
    pub(crate) fn make(&mut self, namespace: &str, changes: Changes) -> usize
        requires placed { ArePlaced (documents_of namespace.now self.old) (changes_seen changes) }
        requires standing { StandsFor (documents_of namespace.now self.old) changes }
        ensures count { result ≤ length (changes_seen changes) }
        ensures made { self.new ≡ apply namespace.now (take result (changes_seen changes)) self.old }
    {
        match self.collections.get_mut(namespace) {
            Some(collection) => changes.make_in(collection),
            // If there are no documents, none is changed.
            None => 0,
        }
    }

    /// Makes the collection of a namespace that has none, without documents. Fails when memory runs out; then nothing is changed.
    pub(crate) fn make_empty(&mut self, namespace: &str) -> Result<(), NoMemory>
        requires { finite.get self.old namespace.now ≡ None }
        ensures ok { OnOk result (self.new ≡ with_documents namespace.now [] self.old) }
        ensures err { OnErr result (self.new ≡ self.old) }
    {
        let collection = IndexedCollection::new(self.alloc)?;
        let namespace = String::from_str(self.alloc, namespace)?;
        self.collections.insert(namespace, collection)?;
        Ok(())
    }

    /// Makes the indexes of these entries for the collection of a namespace, except those that exist; the collection is made if it
    /// doesn't exist. Refused with `ConflictingUpdateOperators` if an index has the name or the path of an entry, but isn't the
    /// same index, then with `LimitReached` if there would be more than 64, then with `DuplicateKey` if a key of a unique one is in
    /// two documents, and with `WantOfMemory`; then nothing is changed, and no collection is made.
    pub(crate) fn create_indexes(
        &mut self,
        namespace: &str,
        entries: Vec<NewIndex>,
    ) -> Result<IndexCounts, Refusal>
        ensures made { Leaves (indexes_created_in namespace.now (map form_of_new entries.items) self.old) self.old result self.new }
        ensures counts { IfOk result (λ counts. counts ≡ index_counts namespace.now self.old self.new) }
    {
        match self.collections.get_mut(namespace) {
            Some(collection) => create_each(self.alloc, collection, entries),
            None => self.create_indexed(namespace, entries),
        }
    }

    /// Makes the collection of a namespace that has none, with indexes, as `create_indexes` does.
    fn create_indexed(
        &mut self,
        namespace: &str,
        entries: Vec<NewIndex>,
    ) -> Result<IndexCounts, Refusal>
        requires { finite.get self.old namespace.now ≡ None }
        ensures made { Leaves (indexes_created_in namespace.now (map form_of_new entries.items) self.old) self.old result self.new }
        ensures counts { IfOk result (λ counts. counts ≡ index_counts namespace.now self.old self.new) }
    {
        let mut collection = IndexedCollection::new(self.alloc)?;
        let counts = create_each(self.alloc, &mut collection, entries)?;
        let namespace = String::from_str(self.alloc, namespace)?;
        self.collections.insert(namespace, collection)?;
        Ok(counts)
    }

    /// Drops the index of a name of the collection of a namespace, or with `*` all except that on `_id`, and returns how many there
    /// were. Refused with `NamespaceNotFound` if the collection doesn't exist, with `BadValue` for the index on `_id`, and with
    /// `IndexNotFound` if there is none of the name; then nothing is changed.
    pub(crate) fn drop_indexes(&mut self, namespace: &str, name: &str) -> Result<usize, Refusal>
        ensures made { Leaves (indexes_dropped_in namespace.now name.now self.old) self.old result self.new }
        ensures count { IfOk result (λ count. count ≡ length (indexes_of namespace.now self.old)) }
    {
        let Some(collection) = self.collections.get_mut(namespace) else {
            return Err(Refusal::NamespaceNotFound);
        };
        drop_named(collection, name)
    }

    /// Removes the collection of a namespace. Takes no memory.
    pub(crate) fn remove(&mut self, namespace: &str)
        ensures { self.new ≡ finite.remove self.old namespace.now }
    {
        let _ = self.collections.remove(namespace);
    }
}
