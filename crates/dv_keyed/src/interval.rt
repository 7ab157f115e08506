//! The ends that enclose the keys in all bounds of a filter.

ghost use Rattle.std.specs.Prelude.{◌≡◌, true, false, IfOk, IsTrue, OnOk};
ghost use Rattle.std.specs.BTreeMap.Range as ranges;
ghost use Rattle.std.specs.BTreeMap.Range.{IsLeBy, IsLtBy, range_contains};
ghost use Rattle.std.specs.Range.Bound.{IsForward};
ghost use Rattle.dv_value.specs.View.{tree};
ghost use Rattle.dv_match.specs.Filter.{in_range};
ghost use Rattle.dv_match.specs.View.{condition, member};
ghost use Rattle.dv_order.specs.Key.{KeyTree, key_order};
ghost use Rattle.dv_keyed.specs.Inner.Interval.{is_between, is_in_all, is_in_bounds, is_in_each, is_in_filters, is_in_member};
ghost use Rattle.dv_keyed.specs.Inner.Within.{covers};

use crate::bounds::ends_within;
use crate::plan::same_path;
use dv_candidates::Path;
use dv_match::{Condition, Conditions, Filter, Filters, Member, Range};
use dv_order::Key;
use dv_value::{NoMemory, Value};
use std::alloc::Global;
use std::ops::Bound;

/// Two ends, between which keys are.
#[derive(Debug, Drop)]
pub struct Interval {
    /// No key is before this.
    pub low: Bound<Key>,
    /// No key is after this.
    pub high: Bound<Key>,
}

impl Interval {
    /// Ends that enclose all keys that are in every range of the filter's top conjunction under the path. Fails with `NoMemory`
    /// when memory runs out.
    pub fn of(alloc: Global, path: &Path, filter: &Filter) -> Result<Self, NoMemory>
        ensures { IfOk result (λ ends. (k : KeyTree) → is_in_all k path.now filter.now ≡ true → is_between ends k ≡ true) }
    {
        let mut ends = Interval {
            low: Bound::Unbounded,
            high: Bound::Unbounded,
        };
        narrow_by_filter(alloc, &mut ends, path, filter)?;
        Ok(ends)
    }

    /// Moves the ends closer together. A key that was between them and is between `low` and `high` still is between them.
    pub(crate) fn close_in(&mut self, low: Bound<Key>, high: Bound<Key>)
        ensures { (k : KeyTree) → is_between self.old k ≡ true → range_contains key_order low high k ≡ true → is_between self.new k ≡ true }
    {
        raise(&mut self.low, low);
        lower(&mut self.high, high);
    }

    /// Whether all keys are between the ends.
    pub(crate) fn is_everything(&self) -> bool
        ensures { result ≡ true → (k : KeyTree) → is_between self.now k ≡ true }
    {
        match (&self.low, &self.high) {
            (Bound::Unbounded, Bound::Unbounded) => true,
            _ => false,
        }
    }

    /// Whether a key is between the ends.
    pub(crate) fn contains(&self, key: &Key) -> bool
        ensures { result ≡ is_between self.now key.now }
    {
        is_from_start(&self.low, key) && !is_past_end(&self.high, key)
    }

    /// Whether the first end comes before the other one; else there is no key between them.
    pub fn is_forward(&self) -> bool
        ensures forward { IsTrue result → IsForward (IsLeBy key_order) (IsLtBy key_order) self.now.low self.now.high }
        ensures empty { result ≡ false → (k : KeyTree) → is_between self.now k ≡ false }
    {
        match (&self.low, &self.high) {
            (Bound::Excluded(low), Bound::Excluded(high)) => low < high,
            (Bound::Excluded(low), Bound::Included(high)) => low <= high,
            (Bound::Included(low), Bound::Excluded(high)) => low <= high,
            (Bound::Included(low), Bound::Included(high)) => low <= high,
            _ => true,
        }
    }
}

#[cycle(narrowing)]
fn narrow_by_filter(
    alloc: Global,
    ends: &mut Interval,
    path: &Path,
    filter: &Filter,
) -> Result<(), NoMemory>
    ensures { OnOk result ((k : KeyTree) → is_between ends.old k ≡ true → is_in_all k path.now filter.now ≡ true → is_between ends.new k ≡ true) }
{
    for member in filter.members() {
        narrow_by_member(alloc, ends, path, member)?;
    }
    Ok(())
}

#[cycle(narrowing)]
#[tactic(auto, unfolding(crate::specs::Inner::Interval::is_in_member))]
fn narrow_by_member(
    alloc: Global,
    ends: &mut Interval,
    path: &Path,
    part: &Member,
) -> Result<(), NoMemory>
    ensures { OnOk result ((k : KeyTree) → is_between ends.old k ≡ true → is_in_member k path.now (member part.now) ≡ true → is_between ends.new k ≡ true) }
{
    match part {
        Member::And(filters) => narrow_by_filters(alloc, ends, path, filters),
        Member::At(at, conditions) => {
            if !same_path(at.components(), path.components()) {
                return Ok(());
            }
            narrow_by_conditions(alloc, ends, conditions)
        }
        _ => Ok(()),
    }
}

#[cycle(narrowing)]
fn narrow_by_filters(
    alloc: Global,
    ends: &mut Interval,
    path: &Path,
    filters: &Filters,
) -> Result<(), NoMemory>
    ensures { OnOk result ((k : KeyTree) → is_between ends.old k ≡ true → is_in_filters k path.now filters.now ≡ true → is_between ends.new k ≡ true) }
{
    for filter in filters.as_slice() {
        narrow_by_filter(alloc, ends, path, filter)?;
    }
    Ok(())
}

fn narrow_by_conditions(
    alloc: Global,
    ends: &mut Interval,
    conditions: &Conditions,
) -> Result<(), NoMemory>
    ensures { OnOk result ((k : KeyTree) → is_between ends.old k ≡ true → is_in_each k conditions.now ≡ true → is_between ends.new k ≡ true) }
{
    for condition in conditions.as_slice() {
        narrow_by_condition(alloc, ends, condition)?;
    }
    Ok(())
}

fn narrow_by_condition(
    alloc: Global,
    ends: &mut Interval,
    wanted: &Condition,
) -> Result<(), NoMemory>
    ensures { OnOk result ((k : KeyTree) → is_between ends.old k ≡ true → is_in_bounds k (condition wanted.now) ≡ true → is_between ends.new k ≡ true) }
{
    match wanted {
        Condition::Bound(range, value) => narrow(alloc, ends, *range, value),
        _ => Ok(()),
    }
}

/// Moves the ends closer together. A key in the range that was between them still is.
fn narrow(alloc: Global, ends: &mut Interval, range: Range, value: &Value) -> Result<(), NoMemory>
    ensures { OnOk result ((k : KeyTree) → is_between ends.old k ≡ true → covers (in_range range (tree value.now)) k ≡ true → is_between ends.new k ≡ true) }
{
    let (low, high) = ends_within(alloc, range, value)?;
    ends.close_in(low, high);
    Ok(())
}

/// Whether a key is after a start, or at one that is included.
fn is_from_start(start: &Bound<Key>, key: &Key) -> bool
    ensures { result ≡ ranges.is_from_start key_order start.now key.now }
{
    match start {
        Bound::Included(start) => start <= key,
        Bound::Excluded(start) => start < key,
        Bound::Unbounded => true,
    }
}

/// Whether a key is after an end, or at one that is excluded.
fn is_past_end(end: &Bound<Key>, key: &Key) -> bool
    ensures { result ≡ ranges.is_past_end key_order end.now key.now }
{
    match end {
        Bound::Included(end) => end < key,
        Bound::Excluded(end) => end <= key,
        Bound::Unbounded => false,
    }
}

/// Puts the later one of two starts in place of the first one.
fn raise(low: &mut Bound<Key>, other: Bound<Key>)
    ensures { (k : KeyTree) → ranges.is_from_start key_order low.old k ≡ true → ranges.is_from_start key_order other k ≡ true → ranges.is_from_start key_order low.new k ≡ true }
{
    if is_later(&other, low) {
        *low = other;
    }
}

/// Puts the earlier one of two ends in place of the first one.
fn lower(high: &mut Bound<Key>, other: Bound<Key>)
    ensures { (k : KeyTree) → ranges.is_past_end key_order high.old k ≡ false → ranges.is_past_end key_order other k ≡ false → ranges.is_past_end key_order high.new k ≡ false }
{
    if is_earlier(&other, high) {
        *high = other;
    }
}

/// Whether a start is after another one, or excludes the key at which both are. True if the other one is unbounded.
fn is_later(start: &Bound<Key>, other: &Bound<Key>) -> bool {
    match (start, other) {
        (_, Bound::Unbounded) => true,
        (Bound::Unbounded, _) => false,
        (Bound::Excluded(key), Bound::Included(than) | Bound::Excluded(than)) => key >= than,
        (Bound::Included(key), Bound::Included(than) | Bound::Excluded(than)) => key > than,
    }
}

/// Whether an end is before another one, or excludes the key at which both are. True if the other one is unbounded.
fn is_earlier(end: &Bound<Key>, other: &Bound<Key>) -> bool {
    match (end, other) {
        (_, Bound::Unbounded) => true,
        (Bound::Unbounded, _) => false,
        (Bound::Excluded(key), Bound::Included(than) | Bound::Excluded(than)) => key <= than,
        (Bound::Included(key), Bound::Included(than) | Bound::Excluded(than)) => key < than,
    }
}
