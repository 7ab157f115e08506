//! Rows of views by their `_id`s.

ghost use Rattle.std.specs.Prelude.{◌≡◌, ◌∷◌, [], false, filter, reverse, IfOk};
ghost use Rattle.std.specs.BTreeMap.Range.{IsLeBy, IsLtBy, range_contains};
ghost use Rattle.std.specs.Iterator.{YieldsFirstRef, item_count};
ghost use Rattle.std.specs.List.{AllByRecursion};
ghost use Rattle.std.specs.Map.{values_of};
ghost use Rattle.std.specs.Range.Bound.{IsForward, bound_map};
ghost use Rattle.dv_value.specs.Tree.{array, binary, no_elements};
ghost use Rattle.dv_order.specs.Key.{key_order, value};
ghost use Rattle.dv_coll.specs.Collection.{HasId, IsAscending, id_key};
ghost use Rattle.dv_coll.specs.Inner.Walk.{walked};
ghost use Rattle.dv_change.specs.declared.position.Part.TheVariants.{Up};
ghost use Rattle.dv_change.specs.Changes.{forget};
ghost use Rattle.dv_change.specs.Inner.Changes.{IsPositioned};
ghost use Rattle.dv_views.specs.Inner.ById.{AreAtIds, AreById};

use crate::places::place_of;
use crate::stage_operator::StageOperator;
use dv_change::{Pos, ToldRows};
use dv_order::{Key, key_of};
use dv_value::{Bytes, Document, List, NoMemory, Value};
use std::alloc::Global;
use std::collections::btree_map::Range;
use std::marker::Model;
use std::ops::Bound;

/// The rows of a view. They are known to be in the order of their `_id`s if each document under a namespace, the base, begins with
/// its `_id`.
#[derive(Drop)]
pub struct Standing<'a> {
    alloc: Global,
    base: &'a str,
    live: &'a ToldRows<StageOperator>,
}

impl<'a> Model for Standing<'a> {
    ghost use Rattle.std.specs.Prelude as prelude;
    ghost use Rattle.std.specs.Coded.{coded×};
    ghost use Rattle.dv_change.specs.Changes.{Positioned};
    ghost use Rattle.dv_change.specs.Inner.Changes.{IsPositioned};
    ghost use Rattle.dv_views.specs.Inner.Code.{coded_name, coded_positioned};

    ghost Value = { prelude.List prelude.ℕ × Positioned };

    ghost coded = { coded× coded_name coded_positioned };

    ghost view = { λ s. (s.base.now, s.live.now.rows.entries) };

    ghost invariant = { λ s. IsPositioned s.live.now.rows.entries };
}

impl<'a> Standing<'a> {
    /// The rows of a live view, and their base.
    pub(crate) fn of(alloc: Global, base: &'a str, live: &'a ToldRows<StageOperator>) -> Self
        requires { IsPositioned live.now.rows.entries }
        ensures { result ≡ (base.now, live.now.rows.entries) }
    {
        Standing { alloc, base, live }
    }

    /// The namespace on whose documents the order of the rows depends.
    pub fn base(&self) -> &'a str
        ensures { result.now ≡ self.now.0 }
    {
        self.base
    }

    /// The rows by their `_id`s.
    pub fn by_id(self) -> RowsById<'a>
        requires { AreAtIds self.1 }
        ensures { result ≡ forget self.entry.1 }
    {
        RowsById {
            alloc: self.alloc,
            live: self.live,
        }
    }
}

/// The rows of a view that begin with their `_id`s and are in the order of these. No two `_id`s are equal, whatever the width of
/// their integers. A row is found by its `_id` in time logarithmic in the number of rows.
#[derive(Drop)]
pub struct RowsById<'a> {
    alloc: Global,
    live: &'a ToldRows<StageOperator>,
}

impl<'a> Model for RowsById<'a> {
    ghost use Rattle.std.specs.Prelude.{List};
    ghost use Rattle.dv_change.specs.Changes.{forget};
    ghost use Rattle.dv_pipe.specs.Sources.{Row};
    ghost use Rattle.dv_views.specs.Inner.ById.{AreById};
    ghost use Rattle.dv_views.specs.Inner.Code.{coded_view_rows};

    ghost Value = { List Row };

    ghost coded = { coded_view_rows };

    ghost view = { λ r. forget r.live.now.rows.entries };

    ghost invariant = { λ r. AreById r.live.now.rows.entries };
}

impl<'a> RowsById<'a> {
    /// That the rows ascend by their `_id`s. Does nothing.
    pub fn law_ascending(&self)
        ensures { IsAscending self.now }
    {
        let _live = &self.live;
    }

    /// The rows whose `_id`s' keys are between two ends, in the order of their `_id`s. Fails with `NoMemory` when memory runs out.
    pub fn between(&self, low: Bound<Key>, high: Bound<Key>) -> Result<RowsBetween<'a>, NoMemory>
        requires { IsForward (IsLeBy key_order) (IsLtBy key_order) low high }
        ensures { IfOk result (λ rows. rows ≡ filter (λ d. range_contains key_order low high (id_key d)) self.now) }
    {
        self.walk(low, high, false)
    }

    /// The same rows, in reverse order.
    pub fn between_from_last(
        &self,
        low: Bound<Key>,
        high: Bound<Key>,
    ) -> Result<RowsBetween<'a>, NoMemory>
        requires { IsForward (IsLeBy key_order) (IsLtBy key_order) low high }
        ensures { IfOk result (λ rows. rows ≡ reverse (filter (λ d. range_contains key_order low high (id_key d)) self.now)) }
    {
        self.walk(low, high, true)
    }

    /// The rows whose `_id`s' keys are between two ends, in their order or in reverse.
    fn walk(
        &self,
        low: Bound<Key>,
        high: Bound<Key>,
        is_backwards: bool,
    ) -> Result<RowsBetween<'a>, NoMemory>
        requires { IsForward (IsLeBy key_order) (IsLtBy key_order) low high }
        ensures { IfOk result (λ rows. rows ≡ walked is_backwards (filter (λ d. range_contains key_order low high (id_key d)) self.now)) }
    {
        let start = end_at(self.alloc, low)?;
        let end = end_at(self.alloc, high)?;
        Ok(RowsBetween {
            rows: self.live.between(start, end),
            is_backwards,
        })
    }

    /// Whether the `_id` of some row is an array, as that of a group may be. Fails with `NoMemory` when memory runs out.
    pub fn has_array_id(&self) -> Result<bool, NoMemory>
        ensures { IfOk result (λ there. there ≡ false → AllByRecursion HasId self.now) }
    {
        let first = first_array(self.alloc)?;
        let behind = first_behind_arrays(self.alloc)?;
        let mut arrays = self.between(Bound::Included(first), Bound::Excluded(behind))?;
        Ok(arrays.next().is_some())
    }
}

/// A bound on keys as a bound on positions.
fn end_at(alloc: Global, end: Bound<Key>) -> Result<Bound<Pos>, NoMemory>
    ensures { IfOk result (λ at. at ≡ bound_map (λ k. Up k ∷ []) end) }
{
    match end {
        Bound::Included(key) => Ok(Bound::Included(place_of(alloc, key)?)),
        Bound::Excluded(key) => Ok(Bound::Excluded(place_of(alloc, key)?)),
        Bound::Unbounded => Ok(Bound::Unbounded),
    }
}

/// The key of the first of all arrays.
fn first_array(alloc: Global) -> Result<Key, NoMemory>
    ensures { IfOk result (λ key. key ≡ value (array no_elements)) }
{
    key_of(&Value::Array(List::new(alloc)))
}

/// The key of the first value after all arrays.
fn first_behind_arrays(alloc: Global) -> Result<Key, NoMemory>
    ensures { IfOk result (λ key. key ≡ value (binary 0 [])) }
{
    key_of(&Value::Binary {
        subtype: 0,
        bytes: Bytes::of(Vec::new(alloc)),
    })
}

/// Rows of a view that are still to come, in the order of their `_id`s or in reverse.
#[derive(Debug, Drop)]
pub struct RowsBetween<'a> {
    rows: Range<'a, Pos, Document>,
    is_backwards: bool,
}

impl<'a> Model for RowsBetween<'a> {
    ghost use Rattle.std.specs.Prelude.{List};
    ghost use Rattle.std.specs.Map.{values_of};
    ghost use Rattle.dv_coll.specs.Inner.Walk.{walked};
    ghost use Rattle.dv_pipe.specs.Sources.{Row};
    ghost use Rattle.dv_views.specs.Inner.Code.{coded_view_rows};

    ghost Value = { List Row };

    ghost coded = { coded_view_rows };

    ghost view = { λ r. walked r.is_backwards (values_of r.rows) };
}

impl<'a> Iterator for RowsBetween<'a> {
    type Item = &'a Document;

    ghost next_gives = { YieldsFirstRef (λ r. r) };

    ghost remaining = { item_count (λ r. r) };

    fn next(&mut self) -> Option<&'a Document> {
        if self.is_backwards {
            let (_, row) = self.rows.next_back()?;
            Some(row)
        } else {
            let (_, row) = self.rows.next()?;
            Some(row)
        }
    }
}
