//! Deleting documents.

ghost use Rattle.std.specs.Prelude.{◌≡◌, ◌≤◌, false, length, map, take, IfOk, Ok};
ghost use Rattle.std.specs.List.{AllByRecursion};
ghost use Rattle.dv_coll.specs.Collection.{HasId, id_key};
ghost use Rattle.dv_command.specs.Inner.View.{deletion_seen};
ghost use Rattle.dv_catalog.specs.Changes.{changes_of, done_to, gone, with_changes};
ghost use Rattle.dv_catalog.specs.Effects.{delete_chosen};
ghost use Rattle.dv_catalog.specs.Inner.EffectView.{AreFirst, ArePlaced, StandsFor, changes_seen, effect_seen};
ghost use Rattle.dv_catalog.specs.State.{AreOrdered};
ghost use Rattle.dv_index.specs.Inner.Indexed.{with_documents};
ghost use Rattle.dv_pipe.specs.Sources.{rows_referred};

use crate::effect::{Changes, Effect};
use crate::selection::chosen;
use dv_coll::{key_of_id, laws};
use dv_command::Deletion;
use dv_index::IndexedCollection;
use dv_order::Key;
use dv_value::{Document, NoMemory};
use std::alloc::Global;

/// What a deletion does to a collection. Fails when memory runs out.
pub(crate) fn deleted(
    alloc: Global,
    collection: &IndexedCollection,
    deletion: &Deletion,
) -> Result<Effect, NoMemory>
    ensures effect { IfOk result (λ effect. done_to collection.now (delete_chosen (deletion_seen deletion.now)) ≡ Ok (effect_seen effect)) }
    ensures ordered { AreOrdered collection.now.documents }
    ensures placed { IfOk result (λ effect. ArePlaced collection.now.documents (changes_seen effect.changes)) }
    ensures standing { IfOk result (λ effect. StandsFor collection.now.documents effect.changes) }
{
    laws::removed_document_is_not_found();
    // The documents are in order, and begin with their `_id`s.
    collection.law_ascending();
    let documents = chosen(collection, &deletion.filter, deletion.only_first)?;
    let keys = keys_of(alloc, &documents)?;
    Ok(Effect {
        matched: documents.len(),
        changes: Changes::Gone(keys),
    })
}

/// The keys of the first documents that a deletion of several documents selects: `most` of them, but never all. Fails when memory
/// runs out.
pub(crate) fn first_keys(
    alloc: Global,
    collection: &IndexedCollection,
    deletion: &Deletion,
    most: usize,
) -> Result<Vec<Key>, NoMemory>
    requires { deletion.now.only_first ≡ false }
    ensures first { IfOk result (λ keys. AreFirst (map gone keys.items) (changes_of (done_to collection.now (delete_chosen (deletion_seen deletion.now))))) }
    ensures ordered { AreOrdered collection.now.documents }
    ensures placed { IfOk result (λ keys. ArePlaced collection.now.documents (map gone keys.items)) }
{
    laws::removed_document_is_not_found();
    // The documents are in order, and begin with their `_id`s.
    collection.law_ascending();
    // One more is found, and left out, so that these are never all.
    let mut documents = collection.find_first(&deletion.filter, most.saturating_add(1))?;
    let _ = documents.pop();
    keys_of(alloc, &documents)
}

/// The keys of the documents' `_id`s. Fails when memory runs out.
fn keys_of(alloc: Global, documents: &[&Document]) -> Result<Vec<Key>, NoMemory>
    requires { AllByRecursion HasId (rows_referred documents.now) }
    ensures { IfOk result (λ keys. keys.items ≡ map id_key (rows_referred documents.now)) }
{
    let mut keys = Vec::with_capacity(alloc, documents.len())?;
    'documents: for document in documents {
        keys.push(key_of_id(document)?)?;
    }
    Ok(keys)
}

/// Removes the documents under the keys, until memory runs out, and returns how many were removed.
pub(crate) fn remove_each(collection: &mut IndexedCollection, keys: &[Key]) -> usize
    ensures count { result ≤ length keys.now }
    ensures made { collection.new ≡ with_documents (with_changes collection.old.documents (take result (map gone keys.now))) collection.old }
{
    'keys: for (place, key) in keys.iter().enumerate() {
        let Ok(_) = collection.remove(key) else {
            return place;
        };
    }
    keys.len()
}
