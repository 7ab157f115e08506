//! The `_id`s of documents that may match a filter.

ghost use Rattle.std.specs.Prelude.{◌≡◌, ◌↔◌, true, IfOk};
ghost use Rattle.dv_order.specs.Key.{KeyTree};
ghost use Rattle.dv_keyed.specs.Inner.Decided.{HasKeyBetween};
ghost use Rattle.dv_keyed.specs.Inner.Interval.{is_in_all};
ghost use Rattle.dv_keyed.specs.Inner.Keys.{refers_to};
ghost use Rattle.dv_keyed.specs.Inner.Pairs.{HaveAll, HaveTried};
ghost use Rattle.dv_keyed.specs.Inner.View.{bounds_seen};
ghost use Rattle.dv_keyed.specs.Inner.Within.{covers};

use crate::bounds::ends_within;
use crate::index::Index;
use crate::interval::Interval;
use crate::plan::Bounds;
use crate::within::ids_within;
use dv_match::Filter;
use dv_order::Key;
use dv_value::NoMemory;
use std::alloc::Global;

/// The `_id`s' keys of the pairs whose keys are in the bounds; an `_id` that has only one key may be left out, unless this key is
/// in all ranges that the filter sets. Uses the one of two ways that finds fewer. Fails with `NoMemory` when memory runs out.
pub fn ids_tried<'i>(
    alloc: Global,
    index: &'i Index,
    bounds: Bounds<'_>,
    filter: &Filter,
) -> Result<Vec<&'i Key>, NoMemory>
    ensures { IfOk result (λ ids. HaveTried (covers (bounds_seen bounds.entry)) (λ k. is_in_all k index.now.path filter.now) index.now.pairs ids.items) }
{
    let pairs = index.pairs();
    if let Bounds::Within(range, value) = bounds {
        let mut ids = ids_in_all(alloc, index, filter)?;
        let (low, high) = ends_within(alloc, range, value)?;
        if pairs.has_more(low, high, ids.len()) {
            pairs.add_several(&mut ids)?;
            return Ok(ids);
        }
    }
    ids_within(alloc, pairs.as_pairs(), bounds)
}

/// The `_id`s' keys of the pairs whose keys are between two ends, in no order. Fails with `NoMemory` when memory runs out.
pub fn ids_between(alloc: Global, index: &Index, ends: Interval) -> Result<Vec<&Key>, NoMemory>
    ensures { IfOk result (λ ids. (i : KeyTree) → (refers_to ids.items i ≡ true) ↔ HasKeyBetween ends i index.now.pairs) }
{
    let mut ids = Vec::new(alloc);
    index.pairs().as_pairs().add_ids_inside(ends, &mut ids)?;
    Ok(ids)
}

/// The `_id`s' keys of the pairs whose keys are in all ranges that the filter sets.
fn ids_in_all<'i>(
    alloc: Global,
    index: &'i Index,
    filter: &Filter,
) -> Result<Vec<&'i Key>, NoMemory>
    ensures { IfOk result (λ ids. HaveAll (λ k. is_in_all k index.now.path filter.now) index.now.pairs ids.items) }
{
    let ends = Interval::of(alloc, index.path(), filter)?;
    let mut ids = Vec::new(alloc);
    index.pairs().as_pairs().add_ids_inside(ends, &mut ids)?;
    Ok(ids)
}
