//! Which rows of a view a filter asks for, by their `_id`s.

ghost use Rattle.std.specs.Prelude.{◌≡◌, List, true, map, IfOk};
ghost use Rattle.std.specs.List.{AllByRecursion};
ghost use Rattle.std.specs.Option.{option_map};
ghost use Rattle.dv_value.specs.Tree.{Field};
ghost use Rattle.dv_value.specs.View.{tree};
ghost use Rattle.dv_match.specs.Match.{matches};
ghost use Rattle.dv_coll.specs.Collection.{HasId, id_key};
ghost use Rattle.dv_keyed.specs.Inner.View.{plan_seen};
ghost use Rattle.dv_catalog.specs.Inner.Asked.{is_asked};
ghost use Rattle.dv_catalog.specs.Inner.Equalities.{equals_in};

use dv_index::{Bounds, Indexes, Plan, Planner, laws};
use dv_keyed::{Interval, keys_of_each};
use dv_match::Filter;
use dv_order::Key;
use dv_value::{NoMemory, Value};
use dv_views::RowsById;
use std::alloc::Global;
use std::ops::Bound;
use std::slice::from_ref;

/// The keys that a filter allows for `_id`s.
#[derive(Drop)]
pub(crate) enum WantedIds {
    /// Those between two ends.
    Between(Interval),
    /// These alone.
    Among(Vec<Key>),
}

/// Which keys the `_id`s of rows that match the filter can have: any, if some `_id` is an array. Fails when memory runs out.
pub(crate) fn asked_of_rows(
    alloc: Global,
    rows: &RowsById<'_>,
    filter: &Filter,
) -> Result<WantedIds, NoMemory>
    ensures { IfOk result (λ asked. AllByRecursion (λ d. matches filter.now d ≡ true → is_asked asked (id_key d) ≡ true) rows.now) }
{
    if rows.has_array_id()? {
        // A row may match by an element of its array, though the array's key is outside the bounds.
        return Ok(WantedIds::Between(Interval {
            low: Bound::Unbounded,
            high: Bound::Unbounded,
        }));
    }
    asked_of_ids(alloc, filter)
}

/// Which keys the `_id`s of documents that match the filter can have.
fn asked_of_ids(alloc: Global, filter: &Filter) -> Result<WantedIds, NoMemory>
    ensures { IfOk result (λ asked. (d : List Field) → HasId d → matches filter.now d ≡ true → is_asked asked (id_key d) ≡ true) }
{
    laws::what_matches_is_in_the_bounds();
    laws::keys_are_in_the_bounds_of_their_values();
    laws::an_only_key_is_in_all_bounds();
    let indexes = Indexes::new(alloc)?;
    let plan = Planner::choose(filter, indexes.as_slice());
    match values_asked(plan) {
        Some(values) => Ok(WantedIds::Among(keys_of_each(alloc, values)?)),
        None => Ok(WantedIds::Between(Interval::of(alloc, indexes.id_path(), filter)?)),
    }
}

/// The values that a plan asks for, if it does so by an equality or `$in`.
fn values_asked(plan: Plan<'_>) -> Option<&[Value]>
    ensures { option_map (λ values. map tree values.now) result ≡ equals_in (plan_seen plan.entry) }
{
    match plan {
        Plan::Index {
            bounds: Bounds::Equal(value),
            ..
        } => Some(from_ref(value)),
        Plan::Index {
            bounds: Bounds::Among(choices),
            ..
        } => Some(choices.values().as_slice()),
        _ => None,
    }
}
