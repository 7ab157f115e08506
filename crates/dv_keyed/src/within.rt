//! The `_id`s that pairs have in bounds.

ghost use Rattle.std.specs.Prelude.{◌≡◌, ◌↔◌, true, map, IfOk};
ghost use Rattle.std.specs.List.{list_any};
ghost use Rattle.dv_value.specs.View.{tree};
ghost use Rattle.dv_match.specs.Filter.{among, equal, in_range};
ghost use Rattle.dv_order.specs.Key.{KeyTree};
ghost use Rattle.dv_keyed.specs.Choice.{is_point};
ghost use Rattle.dv_keyed.specs.Inner.Pairs.{HaveAll, has_pair};
ghost use Rattle.dv_keyed.specs.Inner.Keys.{refers_to};
ghost use Rattle.dv_keyed.specs.Inner.Decided.{HasKeyWithin};
ghost use Rattle.dv_keyed.specs.Inner.Within.{covers};
ghost use Rattle.dv_keyed.specs.Inner.View.{bounds_seen};

use crate::bounds::ends_within;
use crate::key_lists::{in_order, keys_of_each, lent};
use crate::pairs::Pairs;
use crate::plan::Bounds;
use dv_match::Range;
use dv_order::{Key, key_of};
use dv_value::{List, NoMemory, Value};
use std::alloc::Global;

/// The `_id`s' keys of the pairs whose keys are in the bounds, in no order; if the bounds are points, no others. Fails with
/// `NoMemory` when memory runs out.
pub fn ids_within<'i>(
    alloc: Global,
    index: &'i Pairs,
    bounds: Bounds<'_>,
) -> Result<Vec<&'i Key>, NoMemory>
    ensures all { IfOk result (λ ids. HaveAll (covers (bounds_seen bounds.entry)) index.now ids.items) }
    ensures only { IfOk result (λ ids. is_point (bounds_seen bounds.entry) ≡ true → (i : KeyTree) → refers_to ids.items i ≡ true → HasKeyWithin (bounds_seen bounds.entry) i index.now) }
{
    match bounds {
        Bounds::Equal(value) => ids_equal(alloc, index, value),
        Bounds::Among(choices) => ids_among(alloc, index, choices.values()),
        Bounds::Within(range, value) => ids_in_range(alloc, index, range, value),
    }
}

/// The `_id`s' keys of the pairs whose key is of the value's class and compares to it as the range says.
fn ids_in_range<'i>(
    alloc: Global,
    index: &'i Pairs,
    range: Range,
    value: &Value,
) -> Result<Vec<&'i Key>, NoMemory>
    ensures { IfOk result (λ ids. HaveAll (covers (in_range range (tree value.now))) index.now ids.items) }
{
    let (low, high) = ends_within(alloc, range, value)?;
    let mut ids = Vec::new(alloc);
    index.add_ids_between(low, high, &mut ids)?;
    Ok(ids)
}

/// The `_id`s' keys of the pairs whose key is one of the values'; a value that is there several times is looked up once.
fn ids_among<'i>(alloc: Global, index: &'i Pairs, values: &List) -> Result<Vec<&'i Key>, NoMemory>
    ensures { IfOk result (λ ids. (i : KeyTree) → (refers_to ids.items i ≡ true) ↔ HasKeyWithin (among values.now) i index.now) }
{
    let keys = keys_of_each(alloc, values.as_slice())?;
    let all = lent(alloc, &keys)?;
    let ordered = in_order(all)?;
    ids_at_each(alloc, index, &ordered)
}

/// The `_id`s' keys of the pairs that have one of the keys.
fn ids_at_each<'i>(alloc: Global, index: &'i Pairs, keys: &[&Key]) -> Result<Vec<&'i Key>, NoMemory>
    ensures { IfOk result (λ ids. (i : KeyTree) → refers_to ids.items i ≡ list_any (λ k. has_pair k i index.now) (map (λ l. l.now) keys.now)) }
{
    let mut ids = Vec::new(alloc);
    'keys: for key in keys {
        index.add_ids_at(key, &mut ids)?;
    }
    Ok(ids)
}

/// The `_id`s' keys of the pairs whose key is the value's.
fn ids_equal<'i>(alloc: Global, index: &'i Pairs, value: &Value) -> Result<Vec<&'i Key>, NoMemory>
    ensures { IfOk result (λ ids. (i : KeyTree) → (refers_to ids.items i ≡ true) ↔ HasKeyWithin (equal (tree value.now)) i index.now) }
{
    let key = key_of(value)?;
    let mut ids = Vec::new(alloc);
    index.add_ids_at(&key, &mut ids)?;
    Ok(ids)
}
