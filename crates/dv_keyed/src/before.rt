//! What a path sorts before a bar.

ghost use Rattle.std.specs.Prelude.{◌≡◌, true, false, IfOk, IfSome, OnOk};
ghost use Rattle.std.specs.Ordering.{is_eq};
ghost use Rattle.std.specs.BTreeMap.Range.{IsLeBy, IsLtBy, range_contains};
ghost use Rattle.std.specs.Range.Bound.{IsForward};
ghost use Rattle.dv_order.specs.Key.{KeyTree, key_order, no_element};
ghost use Rattle.dv_path.specs.SortKey as sorting;
ghost use Rattle.dv_keyed.specs.Inner.Ahead.{HaveAllAhead, HaveTriedAhead, is_until, leaf_sorted_by, null_key, stands_ahead};
ghost use Rattle.dv_keyed.specs.Inner.Interval.{is_between, is_in_all};
ghost use Rattle.dv_keyed.specs.Inner.Keys.{refers_to};
ghost use Rattle.dv_keyed.specs.Inner.Pairs.{LeadFrom};

use crate::index::Index;
use crate::interval::Interval;
use crate::pairs::Pairs;
use dv_candidates::Path;
use dv_match::Filter;
use dv_order::{Key, key_of};
use dv_path::Direction;
use dv_value::{List, NoMemory, Value};
use std::alloc::Global;
use std::ops::Bound;

/// What decides the order of documents that a path sorts by equal keys.
#[derive(Clone, Copy, Debug)]
pub enum Ties {
    /// Their `_id`s, which ascend.
    ById,
    /// Something else, so that a bar can't be between them.
    Otherwise,
}

/// A place in the order of documents that a path sorts.
#[derive(Clone, Copy, Debug)]
pub struct Bar<'i> {
    /// Documents that are sorted before this key are before the bar.
    pub key: &'i Key,
    /// Of the documents that are sorted by the key itself, those whose `_id`s' keys are less than this are before the bar; none is,
    /// if this is `None`.
    pub until: Option<&'i Key>,
}

impl Bar<'_> {
    /// Whether the bar is after a document, in a direction: a document that is sorted by `key`, and whose `_id` has the key `id`.
    pub fn is_behind(&self, direction: Direction, key: &Key, id: &Key) -> bool
        ensures { result ≡ stands_ahead direction self.now key.now id.now }
    {
        stands_first(direction, key, self.key) || (key == self.key && is_before(id, self.until))
    }

    /// Whether documents that are sorted by a key may be before the bar, in a direction.
    fn may_be_behind(&self, direction: Direction, key: &Key) -> bool
        ensures { result ≡ false → (id : KeyTree) → stands_ahead direction self.now key.now id ≡ false }
    {
        stands_first(direction, key, self.key) || (key == self.key && self.until.is_some())
    }
}

/// Whether there is an end, and an `_id`'s key is less than it.
fn is_before(id: &Key, until: Option<&Key>) -> bool
    ensures { result ≡ is_until id.now until.entry }
{
    match until {
        Some(until) => id < until,
        None => false,
    }
}

/// Whether a key is before another in a direction.
fn stands_first(direction: Direction, key: &Key, other: &Key) -> bool
    ensures { result ≡ sorting.stands_first direction key.now other.now }
{
    match direction {
        Direction::Ascending => key < other,
        Direction::Descending => other < key,
    }
}

/// A bar after `least` of the `_id`s in all ranges that the filter sets, in a direction: between `_id`s under one key if these
/// decide ties, else before the first key after so many. An `_id` counts once for each of its keys. `None` if more than `most` are
/// before it, or no key follows. Fails with `NoMemory` when memory runs out.
pub fn bar_behind<'i>(
    alloc: Global,
    index: &'i Index,
    filter: &Filter,
    direction: Direction,
    ties: Ties,
    least: usize,
    most: usize,
) -> Result<Option<Bar<'i>>, NoMemory>
    ensures { IfOk result (λ found. IfSome found (λ bar. IfSome bar.until (λ until. ties ≡ Ties.ById))) }
{
    let ends = Interval::of(alloc, index.path(), filter)?;
    let pairs = index.pairs().as_pairs();
    Ok(pairs.bar_behind(ends, direction, ties, least, most))
}

/// Whether null is in all ranges that the filter sets under the path, and documents that are sorted by it may be before the bar.
/// Fails with `NoMemory` when memory runs out.
pub fn is_null_ahead(
    alloc: Global,
    path: &Path,
    filter: &Filter,
    direction: Direction,
    bar: &Bar<'_>,
) -> Result<bool, NoMemory>
    ensures { IfOk result (λ ahead. ahead ≡ false → is_in_all null_key path.now filter.now ≡ true → (i : KeyTree) → stands_ahead direction bar.now null_key i ≡ false) }
{
    let null = key_of(&Value::Null)?;
    if !bar.may_be_behind(direction, &null) {
        return Ok(false);
    }
    let ends = Interval::of(alloc, path, filter)?;
    Ok(ends.contains(&null))
}

/// The `_id`s' keys of the pairs of leaves that are sorted before the bar, in no order; an `_id` that has only one key may be left
/// out, unless this key is in all ranges that the filter sets. Fails with `NoMemory` when memory runs out.
pub fn ids_ahead<'i>(
    alloc: Global,
    index: &'i Index,
    filter: &Filter,
    direction: Direction,
    bar: &Bar<'_>,
) -> Result<Vec<&'i Key>, NoMemory>
    ensures { IfOk result (λ ids. HaveTriedAhead direction bar.now (λ k. is_in_all k index.now.path filter.now) index.now.pairs ids.items) }
{
    let pairs = index.pairs();
    let ends = Interval::of(alloc, index.path(), filter)?;
    let is_everything = ends.is_everything();
    let mut ids = ids_before(alloc, pairs.as_pairs(), ends, direction, bar)?;
    if is_everything {
        return Ok(ids);
    }
    pairs.add_several(&mut ids)?;
    Ok(ids)
}

/// The `_id`s' keys of the pairs of leaves that are between the ends and sorted before the bar, in no order.
fn ids_before<'i>(
    alloc: Global,
    index: &'i Pairs,
    ends: Interval,
    direction: Direction,
    bar: &Bar<'_>,
) -> Result<Vec<&'i Key>, NoMemory>
    ensures { IfOk result (λ ids. HaveAllAhead direction bar.now (is_between ends) index.now ids.items) }
{
    let ends = cut(ends, direction, bar.key)?;
    let mut ids = Vec::new(alloc);
    index.add_ids_inside(ends, &mut ids)?;
    add_tied(index, bar, &mut ids)?;
    add_empty_before(alloc, index, direction, bar, &mut ids)?;
    Ok(ids)
}

/// Adds the `_id`s' keys that are under the bar's own key and before its end.
fn add_tied<'i>(index: &'i Pairs, bar: &Bar<'_>, ids: &mut Vec<&'i Key>) -> Result<(), NoMemory>
    ensures added { OnOk result ((k i : KeyTree) → is_eq (key_order k bar.now.key.now) ≡ true → is_until i bar.now.until ≡ true → LeadFrom k i index.now ids.new.items) }
    ensures kept { OnOk result ((i : KeyTree) → refers_to ids.old.items i ≡ true → refers_to ids.new.items i ≡ true) }
{
    match bar.until {
        Some(until) => index.add_ids_until(bar.key, until, ids),
        None => Ok(()),
    }
}

/// The ends, moved closer together: a key that was between them and is before the bar in a direction still is between them. Fails
/// when memory runs out.
fn cut(mut ends: Interval, direction: Direction, bar: &Key) -> Result<Interval, NoMemory>
    ensures { IfOk result (λ left. (k : KeyTree) → is_between ends k ≡ true → sorting.stands_first direction k bar.now ≡ true → is_between left k ≡ true) }
{
    let (low, high) = ends_before(direction, bar)?;
    ends.close_in(low, high);
    Ok(ends)
}

/// Adds the `_id`s' keys that are under the empty array, if this may be sorted before the bar: it is sorted not by its own key, but
/// by the key that no value has.
fn add_empty_before<'i>(
    alloc: Global,
    index: &'i Pairs,
    direction: Direction,
    bar: &Bar<'_>,
    ids: &mut Vec<&'i Key>,
) -> Result<(), NoMemory>
    ensures added { OnOk result ((i : KeyTree) → stands_ahead direction bar.now no_element i ≡ true → LeadFrom (leaf_sorted_by no_element) i index.now ids.new.items) }
    ensures kept { OnOk result ((i : KeyTree) → refers_to ids.old.items i ≡ true → refers_to ids.new.items i ≡ true) }
{
    if !bar.may_be_behind(direction, &Key::no_element()) {
        return Ok(());
    }
    let key = key_of(&Value::Array(List::new(alloc)))?;
    index.add_ids_at(&key, ids)
}

/// Ends that enclose all keys before the bar in a direction. Fails when memory runs out.
fn ends_before(direction: Direction, bar: &Key) -> Result<(Bound<Key>, Bound<Key>), NoMemory>
    ensures forward { IfOk result (λ ends. IsForward (IsLeBy key_order) (IsLtBy key_order) ends.0 ends.1) }
    ensures holds { IfOk result (λ ends. (k : KeyTree) → sorting.stands_first direction k bar.now ≡ true → range_contains key_order ends.0 ends.1 k ≡ true) }
{
    let end = Bound::Excluded(bar.try_clone()?);
    match direction {
        Direction::Ascending => Ok((Bound::Unbounded, end)),
        Direction::Descending => Ok((end, Bound::Unbounded)),
    }
}
