//! Walks over documents in a direction of their `_id`s, in whose order they are stored.

ghost use Rattle.std.specs.Prelude.{◌≡◌, map, take, filter as kept, IfOk};
ghost use Rattle.std.specs.BTreeMap.Range.{IsLeBy, IsLtBy};
ghost use Rattle.std.specs.Range.Bound.{IsForward};
ghost use Rattle.dv_coll.specs.Collection.{id_key};
ghost use Rattle.dv_match.specs.Match.{matches};
ghost use Rattle.dv_order.specs.Key.{key_order};
ghost use Rattle.dv_keyed.specs.Inner.Interval.{is_between};
ghost use Rattle.dv_index.specs.Inner.InDirection.{in_direction};

use crate::indexes::Indexes;
use dv_coll::{Collection, Walk};
use dv_keyed::{Bounds, Interval, Plan, laws};
use dv_match::Filter;
use dv_path::Direction;
use dv_value::{Document, NoMemory};
use std::alloc::Global;

/// Whether a plan's documents are found by a walk: all of them, or those in a range of `_id`s.
pub(crate) fn is_walk(plan: &Plan<'_>) -> bool {
    match plan {
        Plan::Scan => true,
        Plan::Index { place, bounds } => *place == 0 && is_range(bounds),
    }
}

/// Whether the bounds are those of a range.
pub(crate) fn is_range(bounds: &Bounds<'_>) -> bool {
    match bounds {
        Bounds::Within(..) => true,
        Bounds::Equal(_) | Bounds::Among(_) => false,
    }
}

/// The first documents that match the filter, in a direction of their `_id`s, and not more than `most`. Only documents whose `_id`s
/// are in all ranges that the filter sets are read, and none after `most` are found. Fails when memory runs out.
pub(crate) fn walked<'c>(
    alloc: Global,
    filter: &Filter,
    collection: &'c Collection,
    indexes: &Indexes,
    direction: Direction,
    most: usize,
) -> Result<Vec<&'c Document>, NoMemory>
    ensures { IfOk result (λ found. map (λ d. d.now) found.items ≡ take most (in_direction direction (kept (λ d. matches filter.now d) collection.now))) }
{
    laws::an_only_key_is_in_all_bounds();
    // Each document has an `_id`.
    collection.law_ascending();
    let ends = Interval::of(alloc, indexes.id_path(), filter)?;
    if !ends.is_forward() {
        return Ok(Vec::new(alloc));
    }
    scan(
        alloc,
        filter,
        walk_between(collection, ends, direction),
        most,
    )
}

/// The documents whose `_id`s are between two ends, in a direction of these.
fn walk_between(collection: &Collection, ends: Interval, direction: Direction) -> Walk<'_>
    requires { IsForward (IsLeBy key_order) (IsLtBy key_order) ends.low ends.high }
    ensures { result ≡ in_direction direction (kept (λ d. is_between ends (id_key d)) collection.now) }
{
    let Interval { low, high } = ends;
    match direction {
        Direction::Ascending => collection.between(low, high),
        Direction::Descending => collection.between_from_last(low, high),
    }
}

/// The first of the documents that match the filter, and not more than `most`.
fn scan<'c>(
    alloc: Global,
    filter: &Filter,
    documents: Walk<'c>,
    most: usize,
) -> Result<Vec<&'c Document>, NoMemory>
    ensures { IfOk result (λ found. map (λ d. d.now) found.items ≡ take most (kept (λ d. matches filter.now d) documents.entry)) }
{
    let mut found = Vec::new(alloc);
    'documents: for document in documents {
        if found.len() == most {
            return Ok(found);
        }
        if filter.matches(document) {
            found.push(document)?;
        }
    }
    Ok(found)
}
