//! What statements do to the documents of a collection.

ghost use Rattle.std.specs.Prelude.{◌≡◌, ◌≤◌, false, length, take, IfOk};
ghost use Rattle.dv_value.specs.Names.{has_zero};
ghost use Rattle.dv_catalog.specs.Changes.{breaks, with_changes};
ghost use Rattle.dv_catalog.specs.Inner.EffectView.{ArePlaced, StandsFor, after_of, changes_seen};
ghost use Rattle.dv_index.specs.Inner.Indexed.{with_documents};

use crate::delete::remove_each;
use crate::update::{put_each, updates_clash};
use dv_index::IndexedCollection;
use dv_order::Key;
use dv_update::Outcome;
use dv_value::{Document, Name, NoMemory};
use std::alloc::Global;

/// Changes of a collection, each of one document, in order.
#[derive(Drop)]
pub(crate) enum Changes {
    /// Documents are updated.
    Put(Updates),
    /// The documents under these keys are removed.
    Gone(Vec<Key>),
}

/// The results of an update for documents, in the order of their `_id`s.
#[derive(Drop)]
pub(crate) struct Updates {
    /// The update's sole name: that of the changed field, if only one is changed.
    pub(crate) name: Name,
    pub(crate) each: Vec<Updated>,
}

/// A document before its update, which shares its fields, and the result of the update.
#[derive(Drop)]
pub(crate) struct Updated {
    pub(crate) before: Document,
    pub(crate) outcome: Outcome,
}

impl Updated {
    /// The document after the update; if only one field is changed, it is the one under the name. Fails when memory runs out.
    pub(crate) fn after(&self, name: &str) -> Result<Document, NoMemory>
        requires whole { has_zero name.now ≡ false }
        ensures { IfOk result (λ after. after ≡ after_of name.now self.now) }
    {
        match &self.outcome {
            Outcome::Same => self.before.try_clone(),
            Outcome::Whole(after) => after.try_clone(),
            Outcome::Field(change) => {
                let mut after = self.before.try_clone()?;
                after.change_field(name, change.try_clone()?)?;
                Ok(after)
            }
        }
    }
}

impl Changes {
    /// How many changes there are.
    pub(crate) fn len(&self) -> usize
        ensures { result ≡ length (changes_seen self.now) }
    {
        match self {
            Changes::Put(updates) => updates.each.len(),
            Changes::Gone(keys) => keys.len(),
        }
    }

    /// Whether one of the changes, made one after the other, would put a key of a unique index under two `_id`s. Fails when
    /// memory runs out.
    pub(crate) fn clash_in(
        &self,
        alloc: Global,
        collection: &IndexedCollection,
    ) -> Result<bool, NoMemory>
        requires placed { ArePlaced collection.now.documents (changes_seen self.now) }
        requires standing { StandsFor collection.now.documents self.now }
        ensures { IfOk result (λ clash. clash ≡ breaks collection.now.indexes (changes_seen self.now) collection.now.documents) }
    {
        match self {
            Changes::Put(updates) => updates_clash(alloc, collection, updates),
            // Removed documents add no keys.
            Changes::Gone(_) => Ok(false),
        }
    }

    /// Makes the changes in a collection, one after the other, until memory runs out, and returns how many were made.
    pub(crate) fn make_in(self, collection: &mut IndexedCollection) -> usize
        requires placed { ArePlaced collection.old.documents (changes_seen self) }
        requires standing { StandsFor collection.old.documents self }
        ensures count { result ≤ length (changes_seen self) }
        ensures made { collection.new ≡ with_documents (with_changes collection.old.documents (take result (changes_seen self))) collection.old }
    {
        match self {
            Changes::Put(updates) => {
                let Updates { name, each } = updates;
                put_each(collection, name.as_str(), each)
            }
            Changes::Gone(keys) => remove_each(collection, &keys),
        }
    }
}

/// What a statement does.
#[derive(Drop)]
pub(crate) struct Effect {
    /// How many documents it counts.
    pub(crate) matched: usize,
    pub(crate) changes: Changes,
}
