//! Changes as they are passed to views, each with the document that was there before.

ghost use Rattle.std.specs.Prelude.{◌≡◌, ◌∷◌, [], false, is_some, List, IfOk};
ghost use Rattle.std.specs.List.{AllByRecursion};
ghost use Rattle.std.specs.Option.{option_map};
ghost use Rattle.dv_value.specs.Names.{has_zero};
ghost use Rattle.dv_value.specs.Tree.{Field};
ghost use Rattle.dv_coll.specs.Collection.{HasId, found, id_key};
ghost use Rattle.dv_catalog.specs.Changes as changing;
ghost use Rattle.dv_catalog.specs.Inner.EffectView.{ArePlaced, StandsFor, changes_seen, new_documents};
ghost use Rattle.dv_catalog.specs.Inner.Told as defined;
ghost use Rattle.dv_catalog.specs.State.{documents_of};

use crate::collections::Collections;
use crate::effect::{Changes, Updates};
use crate::laws::{changes_keep_the_order, told_changes_are_made};
use dv_change::Taken;
use dv_index::IndexedCollection;
use dv_order::Key;
use dv_value::{Document, NoMemory};
use dv_views::{ToldRegistry, document_gone, document_put};
use std::alloc::Global;

/// The changes as they are passed to views; none if no view reads the namespace. Fails when memory runs out.
pub(crate) fn told(
    alloc: Global,
    views: &ToldRegistry,
    collections: &Collections,
    namespace: &str,
    changes: &Changes,
) -> Result<Vec<Taken>, NoMemory>
    requires placed { ArePlaced (documents_of namespace.now collections.now) (changes_seen changes.now) }
    requires standing { StandsFor (documents_of namespace.now collections.now) changes.now }
    ensures { IfOk result (λ all. defined.AreTold namespace.now views.now (documents_of namespace.now collections.now) (changes_seen changes.now) all.items) }
{
    told_changes_are_made();
    changes_keep_the_order();
    dv_views::laws::documents_stand_at_their_ids();
    dv_coll::laws::documents_stand_where_they_are_found();
    dv_coll::laws::removed_document_is_not_found();
    if !views.is_read(namespace) {
        return Ok(Vec::new(alloc));
    }
    collections.law_ordered(namespace);
    match changes {
        Changes::Put(updates) => all_put(alloc, updates),
        Changes::Gone(keys) => all_gone(alloc, collections.get(namespace), keys),
    }
}

fn all_put(alloc: Global, updates: &Updates) -> Result<Vec<Taken>, NoMemory>
    requires identified { AllByRecursion HasId (new_documents updates.now.name updates.now.each.items) }
    requires whole { has_zero updates.now.name ≡ false }
    ensures { IfOk result (λ all. all.items ≡ defined.updates_told updates.now.name updates.now.each.items) }
{
    let mut all = Vec::with_capacity(alloc, updates.each.len())?;
    'documents: for document in &updates.each {
        let after = document.after(updates.name.as_str())?;
        all.push(document_put(alloc, Some(&document.before), &after)?)?;
    }
    Ok(all)
}

fn all_gone(
    alloc: Global,
    collection: Option<&IndexedCollection>,
    keys: &[Key],
) -> Result<Vec<Taken>, NoMemory>
    ensures { IfOk result (λ all. all.items ≡ defined.gones_told (defined.documents_in (option_map (λ c. c.now) collection.entry)) keys.now) }
{
    let mut all = Vec::with_capacity(alloc, keys.len())?;
    'keys: for key in keys {
        let document = found_in(collection, key);
        all.push(document_gone(alloc, key.try_clone()?, document)?)?;
    }
    Ok(all)
}

/// The document under the key, if there is a collection that has one.
fn found_in<'a>(collection: Option<&'a IndexedCollection>, key: &Key) -> Option<&'a Document>
    ensures { option_map (λ document. document.now) result ≡ found key.now (defined.documents_in (option_map (λ c. c.now) collection.entry)) }
{
    match collection {
        Some(collection) => collection.get(key),
        None => None,
    }
}

/// The insertion of a document, as it is passed to views; no change if no view reads the namespace. Fails when memory runs out.
pub(crate) fn one_told(
    alloc: Global,
    views: &ToldRegistry,
    namespace: &str,
    document: &Document,
) -> Result<Vec<Taken>, NoMemory>
    requires { HasId document.now }
    ensures { IfOk result (λ all. (documents : List (List Field)) → is_some (found (id_key document.now) documents) ≡ false
        → defined.AreTold namespace.now views.now documents (changing.put document.now ∷ []) all.items) }
{
    dv_views::laws::documents_stand_at_their_ids();
    if !views.is_read(namespace) {
        return Ok(Vec::new(alloc));
    }
    let mut all = Vec::with_capacity(alloc, 1)?;
    all.push(document_put(alloc, None, document)?)?;
    Ok(all)
}
