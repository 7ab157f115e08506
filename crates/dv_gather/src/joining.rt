//! Documents joined with those that have one of their values.

ghost use Rattle.std.specs.Prelude.{◌≡◌, ◌||◌, ℕ, map, slice_get, IfOk, IfSome, OnOk};
ghost use Rattle.std.specs.List.{list_any};
ghost use Rattle.std.specs.BTreeSet.{contains};
ghost use Rattle.std.specs.Ordering.{is_eq, nat_cmp};
ghost use Rattle.dv_order.specs.Key.{KeyTree, key_order};
ghost use Rattle.dv_gather.specs.Joining.{as_value};
ghost use Rattle.dv_gather.specs.View.{referred};
ghost use Rattle.dv_gather.specs.Inner.Places.{AddsPlace, AreMatches, ArePlaces, items_chosen, is_found, is_place, is_under, item_at};

use crate::keys::sole_key;
use crate::lookup::Lookup;
use dv_order::{Key, laws};
use dv_value::{Document, List, NoMemory, Value};
use std::alloc::Global;
use std::collections::{BTreeMap, BTreeSet};

/// The places of the documents, by the keys of the values under which they are found.
pub(crate) fn places_of(
    alloc: Global,
    lookup: &Lookup,
    documents: &[&Document],
) -> Result<BTreeMap<Key, Vec<usize>>, NoMemory>
    ensures { IfOk result (λ places. ArePlaces places lookup.now.foreign (referred documents.now)) }
{
    let mut places = BTreeMap::new(alloc);
    'documents: for (place, document) in documents.iter().enumerate() {
        add_place(alloc, lookup, document, place, &mut places)?;
    }
    Ok(places)
}

/// Puts the place of a document under each of the keys under which it is found.
fn add_place(
    alloc: Global,
    lookup: &Lookup,
    document: &Document,
    place: usize,
    places: &mut BTreeMap<Key, Vec<usize>>,
) -> Result<(), NoMemory>
    ensures { OnOk result (AddsPlace (λ k. is_found lookup.now.foreign k document.now) place places.old places.new) }
{
    // Most documents have one key, and a set costs more than that.
    if let Some(key) = sole_key(document, &lookup.foreign)? {
        return add_under(alloc, key, place, places);
    }
    let keys = lookup.foreign_keys(alloc, document)?;
    'keys: for key in keys {
        add_under(alloc, key, place, places)?;
    }
    Ok(())
}

/// Puts a place under the key.
fn add_under(
    alloc: Global,
    key: Key,
    place: usize,
    places: &mut BTreeMap<Key, Vec<usize>>,
) -> Result<(), NoMemory>
    ensures { OnOk result (AddsPlace (λ k. is_eq (key_order k key)) place places.old places.new) }
{
    places.entry(key)?.or_insert(Vec::new(alloc)).push(place)?;
    Ok(())
}

/// The documents that the row is joined with, in their order, each once, if `places` has the places of all documents.
pub(crate) fn matches_of(
    alloc: Global,
    lookup: &Lookup,
    row: &Document,
    documents: &[&Document],
    places: &BTreeMap<Key, Vec<usize>>,
) -> Result<List, NoMemory>
    ensures { IfOk result (AreMatches places.now lookup.now.local (referred documents.now) row.now) }
{
    if let Some(list) = matches_of_one(alloc, lookup, row, documents, places)? {
        return Ok(list);
    }
    laws::keys_stand_as_their_values();
    let keys = lookup.local_keys(alloc, row)?;
    let found = places_under(alloc, places, &keys)?;
    documents_at(alloc, documents, &found)
}

/// The same, without sets of keys and of places, if the row has one value and at most one document is found by it; otherwise
/// `None`.
fn matches_of_one(
    alloc: Global,
    lookup: &Lookup,
    row: &Document,
    documents: &[&Document],
    places: &BTreeMap<Key, Vec<usize>>,
) -> Result<Option<List>, NoMemory>
    ensures { IfOk result (λ list. IfSome list (AreMatches places.now lookup.now.local (referred documents.now) row.now)) }
{
    laws::keys_stand_as_their_values();
    let Some(key) = sole_key(row, &lookup.local)? else {
        return Ok(None);
    };
    let Some(under) = places.get(&key) else {
        return Ok(Some(List::new(alloc)));
    };
    match under.as_slice() {
        [place] => Ok(Some(document_at(alloc, documents, *place)?)),
        _ => Ok(None),
    }
}

/// The document at the place, if there is one.
fn document_at(alloc: Global, documents: &[&Document], place: usize) -> Result<List, NoMemory>
    ensures { IfOk result (λ list. list ≡ map as_value (item_at (slice_get (referred documents.now) place))) }
{
    let Some(document) = documents.get(place) else {
        return Ok(List::new(alloc));
    };
    let mut list = Vec::with_capacity(alloc, 1)?;
    list.push(Value::Doc(document.try_clone()?))?;
    Ok(List::of(list))
}

/// The places under some of the keys.
fn places_under(
    alloc: Global,
    places: &BTreeMap<Key, Vec<usize>>,
    keys: &BTreeSet<Key>,
) -> Result<BTreeSet<usize>, NoMemory>
    ensures { IfOk result (λ found. (i : ℕ) → contains nat_cmp found i ≡ list_any (λ k. is_under places.now k i) keys.now.keys) }
{
    let mut found = BTreeSet::new(alloc);
    'keys: for key in keys.iter() {
        if let Some(under) = places.get(key) {
            add_places(&mut found, under)?;
        }
    }
    Ok(found)
}

/// Puts more places into a set.
fn add_places(found: &mut BTreeSet<usize>, places: &[usize]) -> Result<(), NoMemory>
    ensures { OnOk result ((i : ℕ) → contains nat_cmp found.new i ≡ (contains nat_cmp found.old i || is_place places.now i)) }
{
    'places: for place in places {
        let _ = found.insert(*place)?;
    }
    Ok(())
}

/// The documents at the places, in their order.
fn documents_at(
    alloc: Global,
    documents: &[&Document],
    places: &BTreeSet<usize>,
) -> Result<List, NoMemory>
    ensures { IfOk result (λ list. list ≡ map as_value (items_chosen (λ i. contains nat_cmp places.now i) (referred documents.now))) }
{
    let mut list = Vec::with_capacity(alloc, places.len())?;
    'places: for place in places.iter() {
        if let Some(document) = documents.get(*place) {
            list.push(Value::Doc(document.try_clone()?))?;
        }
    }
    Ok(List::of(list))
}
