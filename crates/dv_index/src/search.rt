//! The documents that a plan finds.

ghost use Rattle.std.specs.Prelude.{◌≡◌, ◌++◌, Bool, true, List as Sequence, map, take, filter as kept, IfOk, IfSome, OnOk};
ghost use Rattle.dv_value.specs.Tree.{Field};
ghost use Rattle.dv_match.specs.Filter.{in_range};
ghost use Rattle.dv_match.specs.Match.{matches};
ghost use Rattle.dv_keyed.specs.Choice.{chosen};
ghost use Rattle.std.specs.BTreeMap.Range.{IsLeBy, IsLtBy, range_contains};
ghost use Rattle.std.specs.List.Sorted.{IsStrictlySortedBy};
ghost use Rattle.std.specs.Ordering.{is_eq};
ghost use Rattle.std.specs.Range.Bound.{IsForward};
ghost use Rattle.dv_coll.specs.Collection.{id_key};
ghost use Rattle.dv_value.specs.View.{tree};
ghost use Rattle.dv_order.specs.Key.{KeyTree, key_order};
ghost use Rattle.dv_path.specs.LeafKeys.{is_key_of, is_some_key};
ghost use Rattle.dv_index.specs.Inner.Change.{AreIndexesOf, IsIndexAt};
ghost use Rattle.dv_keyed.specs.Index.{id_form};
ghost use Rattle.dv_keyed.specs.Inner.Decided.{is_one_condition};
ghost use Rattle.dv_keyed.specs.Inner.Keys.{has_key};
ghost use Rattle.dv_keyed.specs.Within.{has_within};
ghost use Rattle.dv_keyed.specs.Inner.Within.{covers};
ghost use Rattle.dv_index.specs.Inner.Search.{AgreeOn, AllWithinAreFound, AreOnlyWithin, IsIndexOf, documents_referred};
ghost use Rattle.dv_keyed.specs.Inner.View.{bounds_seen, plan_seen};

use crate::indexes::Indexes;
use crate::walk::{is_walk, walked};
use dv_coll::Collection;
use dv_keyed::{
    Bounds, Index, Plan, closed_range, ends_within, ids_between, ids_tried, ids_within, in_order,
    is_decided, keys_of_each, laws, lent,
};
use dv_match::{Filter, Range};
use dv_order::{Key, key_of};
use dv_path::Direction;
use dv_value::{Document, List, NoMemory, Value};
use std::alloc::Global;
use std::ops::Bound;

/// The documents that match the filter, in the order of their `_id`s. With an index only those are read that are under the keys in
/// the plan's bounds, or may be because they have several keys; for a range of `_id`s, those whose `_id`s are in all ranges that
/// the filter sets. The plan is the filter's, and the indexes have the keys of the collection's documents. Fails with `NoMemory`
/// when memory runs out.
pub fn run<'c>(
    alloc: Global,
    plan: &Plan<'_>,
    filter: &Filter,
    collection: &'c Collection,
    indexes: &Indexes,
) -> Result<Vec<&'c Document>, NoMemory>
    requires indexed { AreIndexesOf indexes.now collection.now }
    requires planned { plan_seen plan.now ≡ chosen filter.now (map (λ i. i.path) indexes.now) }
    ensures { IfOk result (λ found. documents_referred found.items ≡ kept (λ d. matches filter.now d) collection.now) }
{
    // No more documents match than there are.
    run_first(alloc, plan, filter, collection, indexes, collection.len())
}

/// The first documents that match the filter, as `run` finds them, and not more than `most`. A walk in the order of `_id`s ends
/// at the last of these.
pub(crate) fn run_first<'c>(
    alloc: Global,
    plan: &Plan<'_>,
    filter: &Filter,
    collection: &'c Collection,
    indexes: &Indexes,
    most: usize,
) -> Result<Vec<&'c Document>, NoMemory>
    requires indexed { AreIndexesOf indexes.now collection.now }
    requires planned { plan_seen plan.now ≡ chosen filter.now (map (λ i. i.path) indexes.now) }
    ensures { IfOk result (λ found. documents_referred found.items ≡ take most (kept (λ d. matches filter.now d) collection.now)) }
{
    laws::what_matches_is_in_the_bounds();
    laws::one_condition_is_decided_by_its_bounds();
    if let Plan::Index { place, bounds } = *plan {
        if !is_walk(plan) {
            if let Some(index) = indexes.get(place) {
                return found_by(alloc, place, index, bounds, filter, collection, most);
            }
        }
    }
    walked(
        alloc,
        filter,
        collection,
        indexes,
        Direction::Ascending,
        most,
    )
}

/// The first `most` of the documents that match the filter, by the index at a place.
fn found_by<'c>(
    alloc: Global,
    place: usize,
    index: &Index,
    bounds: Bounds<'_>,
    filter: &Filter,
    collection: &'c Collection,
    most: usize,
) -> Result<Vec<&'c Document>, NoMemory>
    requires indexed { IsIndexAt place index.now collection.now }
    requires within { (d : Sequence Field) → matches filter.now d ≡ true → has_within (bounds_seen bounds) index.now.path d ≡ true }
    requires decided { is_one_condition filter.now ≡ true → (d : Sequence Field) → matches filter.now d ≡ has_within (bounds_seen bounds) index.now.path d }
    ensures { IfOk result (λ found. map (λ d. d.now) found.items ≡ take most (kept (λ d. matches filter.now d) collection.now)) }
{
    if let Some(all) = decided(alloc, place, index, bounds, filter, collection)? {
        return Ok(first(all, most));
    }
    let found = tried(alloc, place, index, bounds, filter, collection)?;
    matching(alloc, found, filter, most)
}

/// The documents that match a filter which the bounds of its plan decide, or which is a range with two ends under the path of an index in
/// which no document has several keys. `None` for any other filter.
fn decided<'c>(
    alloc: Global,
    place: usize,
    index: &Index,
    bounds: Bounds<'_>,
    filter: &Filter,
    collection: &'c Collection,
) -> Result<Option<Vec<&'c Document>>, NoMemory>
    requires indexed { IsIndexAt place index.now collection.now }
    requires decided { is_one_condition filter.now ≡ true → (d : Sequence Field) → matches filter.now d ≡ has_within (bounds_seen bounds) index.now.path d }
    ensures { IfOk result (λ found. IfSome found (λ documents. map (λ d. d.now) documents.items ≡ kept (λ d. matches filter.now d) collection.now)) }
{
    if is_decided(filter, bounds) {
        let all = candidates(alloc, place, index, bounds, collection)?;
        return Ok(Some(all));
    }
    if place == 0 {
        return Ok(None);
    }
    found_between(alloc, index, filter, collection)
}

/// The documents that match a filter which is a range with two ends under the path of the index, if no document has several keys in
/// this index. `None` otherwise.
fn found_between<'c>(
    alloc: Global,
    index: &Index,
    filter: &Filter,
    collection: &'c Collection,
) -> Result<Option<Vec<&'c Document>>, NoMemory>
    requires { IsIndexOf index.now collection.now }
    ensures { IfOk result (λ found. IfSome found (λ documents. map (λ d. d.now) documents.items ≡ kept (λ d. matches filter.now d) collection.now)) }
{
    laws::a_closed_range_is_decided_by_its_ends();
    // The documents ascend by their `_id`s.
    collection.law_ascending();
    if index.pairs().has_several() {
        return Ok(None);
    }
    let Some(ends) = closed_range(filter, index.path())? else {
        return Ok(None);
    };
    let ids = ids_between(alloc, index, ends)?;
    let all = documents_of(alloc, ids, collection)?;
    Ok(Some(all))
}

/// The first `most` of the documents.
fn first(mut documents: Vec<&Document>, most: usize) -> Vec<&Document>
    ensures { result.items ≡ take most documents.entry.items }
{
    documents.truncate(most);
    documents
}

/// Those of the documents that match the filter. Takes no memory.
pub fn all_matching<'c>(mut documents: Vec<&'c Document>, filter: &Filter) -> Vec<&'c Document>
    ensures { result.items ≡ kept (λ d. matches filter.now d.now) documents.entry.items }
{
    documents.retain(|document| filter.matches(document));
    documents
}

/// The first `most` of the documents that match the filter.
fn matching<'c>(
    alloc: Global,
    documents: Vec<&'c Document>,
    filter: &Filter,
    most: usize,
) -> Result<Vec<&'c Document>, NoMemory>
    ensures { IfOk result (λ found. found.items ≡ take most (kept (λ d. matches filter.now d.now) documents.entry.items)) }
{
    if documents.len() <= most {
        return Ok(all_matching(documents, filter));
    }
    documents
        .into_iter()
        .filter(|document| filter.matches(document))
        .take(most)
        .collect(alloc)
}

/// Documents that include all that match the filter, in the order of their `_id`s. All that match have a leaf in the bounds of the
/// index at a place.
fn tried<'c>(
    alloc: Global,
    place: usize,
    index: &Index,
    bounds: Bounds<'_>,
    filter: &Filter,
    collection: &'c Collection,
) -> Result<Vec<&'c Document>, NoMemory>
    requires indexed { IsIndexAt place index.now collection.now }
    requires within { (d : Sequence Field) → matches filter.now d ≡ true → has_within (bounds_seen bounds) index.now.path d ≡ true }
    ensures { IfOk result (λ found. AgreeOn (matches filter.now) (documents_referred found.items) collection.now) }
{
    if place == 0 {
        candidates_by_id(alloc, bounds, collection)
    } else {
        tried_by_key(alloc, index, bounds, filter, collection)
    }
}

/// What `tried` finds by an index that has pairs.
fn tried_by_key<'c>(
    alloc: Global,
    index: &Index,
    bounds: Bounds<'_>,
    filter: &Filter,
    collection: &'c Collection,
) -> Result<Vec<&'c Document>, NoMemory>
    requires indexed { IsIndexOf index.now collection.now }
    requires within { (d : Sequence Field) → matches filter.now d ≡ true → has_within (bounds_seen bounds) index.now.path d ≡ true }
    ensures { IfOk result (λ found. AgreeOn (matches filter.now) (documents_referred found.items) collection.now) }
{
    laws::leaves_are_found_by_keys();
    laws::an_only_key_is_in_all_bounds();
    // The documents ascend by their `_id`s.
    collection.law_ascending();
    let ids = ids_tried(alloc, index, bounds, filter)?;
    documents_of(alloc, ids, collection)
}

/// Documents that include all that have a leaf in the bounds of the index at a place, in the order of their `_id`s; if the bounds
/// are points, there are no others.
pub(crate) fn candidates<'c>(
    alloc: Global,
    place: usize,
    index: &Index,
    bounds: Bounds<'_>,
    collection: &'c Collection,
) -> Result<Vec<&'c Document>, NoMemory>
    requires { IsIndexAt place index.now collection.now }
    ensures all { IfOk result (λ found. AllWithinAreFound (bounds_seen bounds.entry) index.now.path collection.now (documents_referred found.items)) }
    ensures only { IfOk result (λ found. AreOnlyWithin (bounds_seen bounds.entry) index.now.path collection.now (documents_referred found.items)) }
{
    if place == 0 {
        candidates_by_id(alloc, bounds, collection)
    } else {
        candidates_by_key(alloc, index, bounds, collection)
    }
}

/// The same for the index on `_id`: the documents themselves are in the order of their `_id`s.
fn candidates_by_id<'c>(
    alloc: Global,
    bounds: Bounds<'_>,
    collection: &'c Collection,
) -> Result<Vec<&'c Document>, NoMemory>
    ensures all { IfOk result (λ found. AllWithinAreFound (bounds_seen bounds.entry) id_form.path collection.now (documents_referred found.items)) }
    ensures only { IfOk result (λ found. AreOnlyWithin (bounds_seen bounds.entry) id_form.path collection.now (documents_referred found.items)) }
{
    laws::keys_are_in_the_bounds_of_their_values();
    // Each document has an `_id`.
    collection.law_ascending();
    match bounds {
        Bounds::Equal(value) => with_id(alloc, value, collection),
        Bounds::Among(choices) => with_ids(alloc, choices.values(), collection),
        Bounds::Within(range, value) => with_ids_within(alloc, range, value, collection),
    }
}

/// The document whose `_id` is equal to a value, if there is one.
fn with_id<'c>(
    alloc: Global,
    value: &Value,
    collection: &'c Collection,
) -> Result<Vec<&'c Document>, NoMemory>
    ensures { IfOk result (λ found. documents_referred found.items ≡ kept (λ d. is_key_of (id_key d) (tree value.now)) collection.now) }
{
    let key = key_of(value)?;
    let mut found = Vec::new(alloc);
    add_document(&mut found, &key, collection)?;
    Ok(found)
}

/// The documents whose `_id`s are equal to values of a list, in the order of their `_id`s.
fn with_ids<'c>(
    alloc: Global,
    values: &List,
    collection: &'c Collection,
) -> Result<Vec<&'c Document>, NoMemory>
    ensures { IfOk result (λ found. documents_referred found.items ≡ kept (λ d. is_some_key (id_key d) values.now) collection.now) }
{
    let keys = keys_of_each(alloc, values.as_slice())?;
    let ids = lent(alloc, &keys)?;
    documents_of(alloc, ids, collection)
}

/// Documents that include all whose `_id`s are of a value's class and compare to it as the range says.
fn with_ids_within<'c>(
    alloc: Global,
    range: Range,
    value: &Value,
    collection: &'c Collection,
) -> Result<Vec<&'c Document>, NoMemory>
    ensures { IfOk result (λ found. (inside : KeyTree → Bool) × ((k : KeyTree) → covers (in_range range (tree value.now)) k ≡ true → inside k ≡ true) × (documents_referred found.items ≡ kept (λ d. inside (id_key d)) collection.now)) }
{
    let (low, high) = ends_within(alloc, range, value)?;
    documents_between(alloc, collection, low, high)
}

/// The documents whose `_id`s' keys are between two ends.
fn documents_between(
    alloc: Global,
    collection: &Collection,
    low: Bound<Key>,
    high: Bound<Key>,
) -> Result<Vec<&Document>, NoMemory>
    requires { IsForward (IsLeBy key_order) (IsLtBy key_order) low high }
    ensures { IfOk result (λ found. documents_referred found.items ≡ kept (λ d. range_contains key_order low high (id_key d)) collection.now) }
{
    collection.between(low, high).collect(alloc)
}

/// What `candidates` finds by an index that has pairs.
fn candidates_by_key<'c>(
    alloc: Global,
    index: &Index,
    bounds: Bounds<'_>,
    collection: &'c Collection,
) -> Result<Vec<&'c Document>, NoMemory>
    requires { IsIndexOf index.now collection.now }
    ensures all { IfOk result (λ found. AllWithinAreFound (bounds_seen bounds.entry) index.now.path collection.now (documents_referred found.items)) }
    ensures only { IfOk result (λ found. AreOnlyWithin (bounds_seen bounds.entry) index.now.path collection.now (documents_referred found.items)) }
{
    laws::leaves_are_found_by_keys();
    laws::a_key_in_the_bounds_is_of_a_leaf_there();
    // The documents ascend by their `_id`s.
    collection.law_ascending();
    let ids = ids_within(alloc, index.pairs().as_pairs(), bounds)?;
    documents_of(alloc, ids, collection)
}

/// The documents of a collection that have these `_id`s, in the order of their `_id`s.
pub(crate) fn documents_of<'c>(
    alloc: Global,
    ids: Vec<&Key>,
    collection: &'c Collection,
) -> Result<Vec<&'c Document>, NoMemory>
    ensures { IfOk result (λ found. documents_referred found.items ≡ kept (λ d. has_key (id_key d) (map (λ i. i.now) ids.entry.items)) collection.now) }
{
    let ordered = in_order(ids)?;
    documents_under(alloc, &ordered, collection)
}

/// The documents of a collection whose `_id`s are among these, which ascend.
fn documents_under<'c>(
    alloc: Global,
    ids: &[&Key],
    collection: &'c Collection,
) -> Result<Vec<&'c Document>, NoMemory>
    requires { IsStrictlySortedBy key_order (map (λ i. i.now) ids.now) }
    ensures { IfOk result (λ found. documents_referred found.items ≡ kept (λ d. has_key (id_key d) (map (λ i. i.now) ids.now)) collection.now) }
{
    // The documents ascend by their `_id`s, as the keys do.
    collection.law_ascending();
    let mut found = Vec::with_capacity(alloc, ids.len())?;
    'ids: for id in ids {
        add_document(&mut found, id, collection)?;
    }
    Ok(found)
}

/// Adds the document that has this `_id`, if there is one.
fn add_document<'c>(
    found: &mut Vec<&'c Document>,
    id: &Key,
    collection: &'c Collection,
) -> Result<(), NoMemory>
    ensures { OnOk result (documents_referred found.new.items ≡ documents_referred found.old.items ++ kept (λ d. is_eq (key_order (id_key d) id.now)) collection.now) }
{
    // No two documents have equal `_id`s.
    collection.law_ascending();
    match collection.get(id) {
        Some(document) => {
            found.push(document)?;
            Ok(())
        }
        None => Ok(()),
    }
}
