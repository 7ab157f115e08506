//! Rows of a view, found by their `_id`s.

ghost use Rattle.std.specs.Prelude.{◌≡◌, ◌++◌, map, filter as kept, IfOk, OnOk};
ghost use Rattle.std.specs.BTreeMap.Range.{IsLeBy, IsLtBy, range_contains};
ghost use Rattle.std.specs.List.Sorted.{IsStrictlySortedBy};
ghost use Rattle.std.specs.Ordering.{is_eq};
ghost use Rattle.std.specs.Range.Bound.{IsForward};
ghost use Rattle.dv_order.specs.Key.{key_order};
ghost use Rattle.dv_coll.specs.Collection.{id_key};
ghost use Rattle.dv_keyed.specs.Inner.Interval.{is_between};
ghost use Rattle.dv_keyed.specs.Inner.Keys.{has_key};
ghost use Rattle.dv_index.specs.Inner.InDirection.{in_direction};
ghost use Rattle.dv_pipe.specs.Sources.{rows_referred};
ghost use Rattle.dv_sort.specs.Sorting.{front};
ghost use Rattle.dv_catalog.specs.Scan.{matching};

use crate::asked::{WantedIds, asked_of_rows};
use crate::rows::FoundRows;
use crate::standing::first_matching;
use dv_index::{all_matching, laws};
use dv_keyed::{Interval, in_order, lent};
use dv_match::Filter;
use dv_order::Key;
use dv_path::Direction;
use dv_value::{Document, NoMemory};
use dv_views::RowsById;
use std::alloc::Global;
use std::ops::Bound;

/// The first rows that match the filter, ordered by `_id` in this direction: `most` of them, or all. Only the rows are read whose
/// `_id`s equal values that the filter asks for, or those whose `_id`s are in all ranges that it sets, up to the last row that is
/// returned. If some `_id` is an array, no range is set. Fails when memory runs out.
pub(crate) fn first_by_key<'a>(
    alloc: Global,
    rows: &RowsById<'a>,
    filter: &Filter,
    direction: Direction,
    most: Option<usize>,
) -> Result<Vec<&'a Document>, NoMemory>
    ensures { IfOk result (λ found. rows_referred found.items ≡ front most (in_direction direction (matching filter.now rows.now))) }
{
    match asked_of_rows(alloc, rows, filter)? {
        WantedIds::Between(ends) => {
            let candidates = rows_between(rows, ends, direction)?;
            first_matching(alloc, candidates, filter, most)
        }
        WantedIds::Among(keys) => {
            let candidates = rows_among(alloc, rows, &keys, direction)?;
            Ok(first_of(candidates, filter, most))
        }
    }
}

/// The rows whose `_id`s are between two ends, ordered by `_id` in this direction.
fn rows_between<'a>(
    rows: &RowsById<'a>,
    ends: Interval,
    direction: Direction,
) -> Result<FoundRows<'a>, NoMemory>
    ensures { IfOk result (λ between. between ≡ in_direction direction (kept (λ d. is_between ends (id_key d)) rows.now)) }
{
    if !ends.is_forward() {
        return Ok(FoundRows::none());
    }
    let Interval { low, high } = ends;
    match direction {
        Direction::Ascending => Ok(FoundRows::of_between(rows.between(low, high)?)),
        Direction::Descending => Ok(FoundRows::of_between(rows.between_from_last(low, high)?)),
    }
}

/// The rows whose `_id`s have one of these keys, ordered by `_id` in this direction.
fn rows_among<'a>(
    alloc: Global,
    rows: &RowsById<'a>,
    keys: &[Key],
    direction: Direction,
) -> Result<Vec<&'a Document>, NoMemory>
    ensures { IfOk result (λ among. rows_referred among.items ≡ in_direction direction (kept (λ d. has_key (id_key d) keys.now) rows.now)) }
{
    let ordered = in_order(lent(alloc, keys)?)?;
    let among = rows_under(alloc, rows, &ordered)?;
    Ok(directed(among, direction))
}

/// Ascending rows, in this direction.
fn directed<'a>(mut rows: Vec<&'a Document>, direction: Direction) -> Vec<&'a Document>
    ensures { rows_referred result.items ≡ in_direction direction (rows_referred rows.entry.items) }
{
    match direction {
        Direction::Ascending => rows,
        Direction::Descending => {
            rows.reverse();
            rows
        }
    }
}

/// The rows whose `_id`s have one of these keys, which ascend.
fn rows_under<'a>(
    alloc: Global,
    rows: &RowsById<'a>,
    keys: &[&Key],
) -> Result<Vec<&'a Document>, NoMemory>
    requires { IsStrictlySortedBy key_order (map (λ k. k.now) keys.now) }
    ensures { IfOk result (λ under. rows_referred under.items ≡ kept (λ d. has_key (id_key d) (map (λ k. k.now) keys.now)) rows.now) }
{
    laws::documents_are_found_key_by_key();
    // The rows are in order.
    rows.law_ascending();
    let mut under = Vec::with_capacity(alloc, keys.len())?;
    'keys: for key in keys {
        add_rows(&mut under, rows_at(alloc, rows, key)?)?;
    }
    Ok(under)
}

/// The row whose `_id` has this key, if there is one.
fn rows_at<'a>(alloc: Global, rows: &RowsById<'a>, key: &Key) -> Result<Vec<&'a Document>, NoMemory>
    ensures { IfOk result (λ at. rows_referred at.items ≡ kept (λ d. is_eq (key_order (id_key d) key.now)) rows.now) }
{
    let low = key.try_clone()?;
    let high = key.try_clone()?;
    rows_within(alloc, rows, Bound::Included(low), Bound::Included(high))
}

/// The rows whose `_id`s are between two ends, in their order.
fn rows_within<'a>(
    alloc: Global,
    rows: &RowsById<'a>,
    low: Bound<Key>,
    high: Bound<Key>,
) -> Result<Vec<&'a Document>, NoMemory>
    requires { IsForward (IsLeBy key_order) (IsLtBy key_order) low high }
    ensures { IfOk result (λ within. rows_referred within.items ≡ kept (λ d. range_contains key_order low high (id_key d)) rows.now) }
{
    rows.between(low, high)?.collect(alloc)
}

/// Appends rows to others.
fn add_rows<'a>(rows: &mut Vec<&'a Document>, mut more: Vec<&'a Document>) -> Result<(), NoMemory>
    ensures { OnOk result (rows_referred rows.new.items ≡ rows_referred rows.old.items ++ rows_referred more.entry.items) }
{
    rows.append(&mut more)
}

/// The first of the rows that match the filter: `most` of them, or all.
fn first_of<'a>(rows: Vec<&'a Document>, filter: &Filter, most: Option<usize>) -> Vec<&'a Document>
    ensures { rows_referred result.items ≡ front most (matching filter.now (rows_referred rows.entry.items)) }
{
    let mut found = all_matching(rows, filter);
    if let Some(most) = most {
        found.truncate(most);
    }
    found
}
