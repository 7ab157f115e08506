//! Sets of pairs of a key and an `_id`. They find the documents that have a key.

ghost use Rattle.std.specs.Prelude.{◌≡◌, ◌||◌, ◌&&◌, true, false, not, [], map, filter, OnErr, OnOk, IfOk, IfSome};
ghost use Rattle.std.specs.BTreeMap.{IsFromIterResult};
ghost use Rattle.std.specs.Iterator.{IsFinite};
ghost use Rattle.std.specs.List.{list_any};
ghost use Rattle.std.specs.List.Sorted.{IsStrictlySortedBy};
ghost use Rattle.std.specs.Map.{keys_of};
ghost use Rattle.std.specs.Ordering.{is_eq, is_lt};
ghost use Rattle.std.specs.BTreeMap.Range.{IsLeBy, IsLtBy, range_contains};
ghost use Rattle.std.specs.Range.Bound.{IsForward};
ghost use Rattle.dv_order.specs.Key.{KeyTree, key_order};
ghost use Rattle.dv_keyed.specs.Inner.Decided.{HasKeyBetween};
ghost use Rattle.dv_keyed.specs.Inner.Interval.{is_between};
ghost use Rattle.dv_keyed.specs.Inner.Keys.{has_key, refers_to};
ghost use Rattle.dv_keyed.specs.Inner.Pairs.{AddsPairs, AreSameBut, has_another_at, has_id, has_pair, is_under_another};

use crate::before::{Bar, Ties};
use crate::ids::Ids;
use crate::interval::Interval;
use crate::keys::Keys;
use dv_order::Key;
use dv_path::Direction;
use dv_value::NoMemory;
use std::alloc::Global;
use std::collections::BTreeMap;
use std::marker::Model;
use std::ops::Bound;

/// A set of pairs: a key, and the key of the `_id` of a document that has it.
#[derive(Debug, Drop)]
pub struct Pairs {
    alloc: Global,
    entries: BTreeMap<Key, Ids>,
}

impl Model for Pairs {
    ghost use Rattle.std.specs.Prelude as prelude;
    ghost use Rattle.std.specs.Coded.{coded_list, coded×};
    ghost use Rattle.std.specs.List.Sorted.{IsStrictlySortedBy};
    ghost use Rattle.std.specs.Map.{keys_of};
    ghost use Rattle.dv_order.specs.Key.{key_order};
    ghost use Rattle.dv_order.specs.Inner.Key.{coded_key};
    ghost use Rattle.dv_keyed.specs.Inner.Pairs.{Pair, pairs_of};

    ghost Value = { prelude.List Pair };

    ghost coded = { coded_list (coded× coded_key coded_key) };

    ghost view = { λ i. pairs_of i.entries.entries };

    ghost invariant = { λ i. IsStrictlySortedBy key_order (keys_of i.entries.entries) };
}

impl Pairs {
    /// A set without pairs, whose memory will be allocated by `alloc`.
    pub(crate) fn new(alloc: Global) -> Self
        ensures { result ≡ [] }
    {
        Pairs {
            alloc,
            entries: BTreeMap::new(alloc),
        }
    }

    /// Adds the pair of each of the keys and the `_id`'s key. If memory runs out, the pairs are unchanged.
    pub(crate) fn add(&mut self, keys: &Keys, id: &Key) -> Result<(), NoMemory>
        ensures ok { OnOk result ((k i : KeyTree) → has_pair k i self.new ≡ (has_pair k i self.old || (has_key k keys.now && is_eq (key_order i id.now)))) }
        ensures err { OnErr result ((k i : KeyTree) → has_pair k i self.new ≡ has_pair k i self.old) }
    {
        // A pair that was there stays when memory runs out.
        let fresh = self.absent(keys, id)?;
        self.add_fresh(fresh.as_slice(), id)
    }

    /// Adds a pair for each key, none of which the `_id` has yet. If memory runs out, the pairs are unchanged.
    pub(crate) fn add_fresh(&mut self, fresh: &[&Key], id: &Key) -> Result<(), NoMemory>
        requires { (k : KeyTree) → refers_to fresh.now k ≡ true → has_pair k id.now self.old ≡ false }
        ensures ok { OnOk result (AddsPairs (refers_to fresh.now) id.now self.old self.new) }
        ensures err { OnErr result ((k i : KeyTree) → has_pair k i self.new ≡ has_pair k i self.old) }
    {
        match self.add_each(fresh, id) {
            Ok(()) => Ok(()),
            Err(e) => {
                self.take_out_each(fresh, id);
                Err(e)
            }
        }
    }

    /// Removes the pair of each of the keys and the `_id`'s key, if it is there. Takes no memory.
    pub(crate) fn take_out(&mut self, keys: &Keys, id: &Key)
        ensures { (k i : KeyTree) → has_pair k i self.new ≡ (has_pair k i self.old && not (has_key k keys.now && is_eq (key_order i id.now))) }
    {
        for key in keys.as_set().iter() {
            self.take_out_pair(key, id);
        }
    }

    /// Whether one of the keys is under another `_id`. Takes no memory.
    pub(crate) fn clash(&self, keys: &Keys, id: &Key) -> bool
        ensures { result ≡ is_under_another (λ k. has_key k keys.now) id.now self.now }
    {
        self.clash_without(&Pairs::new(self.alloc), keys, id)
    }

    /// Whether one of the keys is under another `_id`, in a pair that is not in `gone`. Takes no memory.
    pub(crate) fn clash_without(&self, gone: &Pairs, keys: &Keys, id: &Key) -> bool
        ensures { result ≡ list_any (λ k. has_another_at k id.now gone.now self.now) keys.now }
    {
        keys.as_set()
            .iter()
            .any(|key| self.has_another(key, id, gone))
    }

    /// Whether another `_id` is under the key, in a pair that is not in `gone`.
    fn has_another(&self, key: &Key, id: &Key, gone: &Pairs) -> bool
        ensures { result ≡ has_another_at key.now id.now gone.now self.now }
    {
        match self.entries.get(key) {
            Some(ids) => ids.has_another(id, gone.entries.get(key)),
            None => false,
        }
    }

    /// The same pairs, in as few nodes as hold them. Fails when memory runs out.
    pub(crate) fn packed(self) -> Result<Self, NoMemory>
        ensures { IfOk result (λ packed. (k i : KeyTree) → has_pair k i packed ≡ has_pair k i self) }
    {
        let Pairs { alloc, entries } = self;
        Ok(Pairs {
            alloc,
            entries: built_anew(alloc, entries)?,
        })
    }

    /// A copy of its own. Fails when memory runs out.
    pub(crate) fn try_clone(&self) -> Result<Self, NoMemory>
        ensures { IfOk result (λ copy. copy ≡ self.now) }
    {
        Ok(Pairs {
            alloc: self.alloc,
            entries: copy_of(self.alloc, &self.entries)?,
        })
    }

    /// Adds to a list the `_id`s' keys that are under a key. If memory runs out, some of them are added.
    pub(crate) fn add_ids_at<'i>(
        &'i self,
        key: &Key,
        ids: &mut Vec<&'i Key>,
    ) -> Result<(), NoMemory>
        ensures { OnOk result ((i : KeyTree) → refers_to ids.new.items i ≡ (refers_to ids.old.items i || has_pair key.now i self.now)) }
    {
        match self.entries.get(key) {
            Some(found) => found.add_to(ids),
            None => Ok(()),
        }
    }

    /// Adds to a list the `_id`s' keys that are under a key and less than an end. If memory runs out, some of them are added.
    pub(crate) fn add_ids_until<'i>(
        &'i self,
        key: &Key,
        until: &Key,
        ids: &mut Vec<&'i Key>,
    ) -> Result<(), NoMemory>
        ensures { OnOk result ((i : KeyTree) → refers_to ids.new.items i ≡ (refers_to ids.old.items i || (has_pair key.now i self.now && is_lt (key_order i until.now)))) }
    {
        match self.entries.get(key) {
            Some(found) => found.add_until(until, ids),
            None => Ok(()),
        }
    }

    /// Adds to a list the `_id`s' keys of the pairs whose keys are between two ends. If memory runs out, some of them are added.
    pub(crate) fn add_ids_between<'i>(
        &'i self,
        low: Bound<Key>,
        high: Bound<Key>,
        ids: &mut Vec<&'i Key>,
    ) -> Result<(), NoMemory>
        requires { IsForward (IsLeBy key_order) (IsLtBy key_order) low high }
        ensures { OnOk result ((i : KeyTree) → refers_to ids.new.items i ≡ (refers_to ids.old.items i || has_id i (filter (λ p. range_contains key_order low high p.0) self.now))) }
    {
        for (_, found) in self.entries.range((low, high)) {
            found.add_to(ids)?;
        }
        Ok(())
    }

    /// Adds to a list the `_id`s' keys of the pairs whose keys are between two ends; there are none if the ends are in the wrong
    /// order. If memory runs out, some of them are added.
    pub(crate) fn add_ids_inside<'i>(
        &'i self,
        ends: Interval,
        ids: &mut Vec<&'i Key>,
    ) -> Result<(), NoMemory>
        ensures all { OnOk result ((k i : KeyTree) → is_between ends k ≡ true → has_pair k i self.now ≡ true → refers_to ids.new.items i ≡ true) }
        ensures only { OnOk result ((i : KeyTree) → refers_to ids.old.items i ≡ false → refers_to ids.new.items i ≡ true → HasKeyBetween ends i self.now) }
    {
        if !ends.is_forward() {
            return Ok(());
        }
        let Interval { low, high } = ends;
        self.add_ids_between(low, high, ids)
    }

    /// Whether more than `most` `_id`s are under the keys between two ends. Reads no further keys once there are more.
    pub(crate) fn has_more(&self, low: Bound<Key>, high: Bound<Key>, most: usize) -> bool
        requires { IsForward (IsLeBy key_order) (IsLtBy key_order) low high }
    {
        let mut left = most;
        for (_, ids) in self.entries.range((low, high)) {
            let count = ids.len();
            if count > left {
                return true;
            }
            left -= count;
        }
        false
    }

    /// A bar after `least` of the `_id`s between two ends, in a direction, unless more than `most` are before it. Reads no keys
    /// beyond that.
    pub(crate) fn bar_behind(
        &self,
        ends: Interval,
        direction: Direction,
        ties: Ties,
        least: usize,
        most: usize,
    ) -> Option<Bar<'_>>
        ensures { IfSome result (λ bar. IfSome bar.until (λ until. ties ≡ Ties.ById)) }
    {
        if !ends.is_forward() {
            return None;
        }
        let Interval { low, high } = ends;
        let entries = self.entries.range((low, high));
        match direction {
            Direction::Ascending => first_behind(entries, ties, least, most),
            Direction::Descending => first_behind(entries.rev(), ties, least, most),
        }
    }

    /// The keys whose pairs with the `_id`'s key aren't there.
    fn absent<'k>(&self, keys: &'k Keys, id: &Key) -> Result<Vec<&'k Key>, NoMemory>
        ensures { IfOk result (λ fresh. map (λ k. k.now) fresh.items ≡ filter (λ k. not (has_pair k id.now self.now)) keys.now) }
    {
        keys.as_set()
            .iter()
            .filter(|key| !self.has(key, id))
            .collect(self.alloc)
    }

    fn has(&self, key: &Key, id: &Key) -> bool
        ensures { result ≡ has_pair key.now id.now self.now }
    {
        match self.entries.get(key) {
            Some(ids) => ids.contains(id),
            None => false,
        }
    }

    /// Adds a pair for each key. If memory runs out, some of them are added.
    pub(crate) fn add_each(&mut self, keys: &[&Key], id: &Key) -> Result<(), NoMemory>
        ensures ok { OnOk result (AddsPairs (refers_to keys.now) id.now self.old self.new) }
        ensures err { OnErr result (AreSameBut (refers_to keys.now) id.now self.old self.new) }
    {
        for key in keys {
            self.add_pair(key, id)?;
        }
        Ok(())
    }

    /// Removes the pair of each key, if it is there. Takes no memory.
    pub(crate) fn take_out_each(&mut self, keys: &[&Key], id: &Key)
        ensures { (k i : KeyTree) → has_pair k i self.new ≡ (has_pair k i self.old && not (refers_to keys.now k && is_eq (key_order i id.now))) }
    {
        for key in keys {
            self.take_out_pair(key, id);
        }
    }

    fn add_pair(&mut self, key: &Key, id: &Key) -> Result<(), NoMemory>
        ensures ok { OnOk result ((k i : KeyTree) → has_pair k i self.new ≡ (has_pair k i self.old || (is_eq (key_order k key.now) && is_eq (key_order i id.now)))) }
        ensures err { OnErr result ((k i : KeyTree) → has_pair k i self.new ≡ has_pair k i self.old) }
    {
        match self.entries.get_mut(key) {
            Some(ids) => ids.add(id),
            None => self.add_key(key, id),
        }
    }

    /// Adds a key that isn't there, with one `_id`. If memory runs out, nothing changes.
    fn add_key(&mut self, key: &Key, id: &Key) -> Result<(), NoMemory>
        requires { (i : KeyTree) → has_pair key.now i self.old ≡ false }
        ensures ok { OnOk result ((k i : KeyTree) → has_pair k i self.new ≡ (has_pair k i self.old || (is_eq (key_order k key.now) && is_eq (key_order i id.now)))) }
        ensures err { OnErr result ((k i : KeyTree) → has_pair k i self.new ≡ has_pair k i self.old) }
    {
        let ids = Ids::of(self.alloc, id.try_clone()?);
        drop(self.entries.insert(key.try_clone()?, ids)?);
        Ok(())
    }

    fn take_out_pair(&mut self, key: &Key, id: &Key)
        ensures { (k i : KeyTree) → has_pair k i self.new ≡ (has_pair k i self.old && not (is_eq (key_order k key.now) && is_eq (key_order i id.now))) }
    {
        let Some(ids) = self.entries.get_mut(key) else {
            return;
        };
        ids.take_out(id);
        if ids.is_empty() {
            drop(self.entries.remove(key));
        }
    }
}

/// A bar after `least` `_id`s: between the `_id`s under one key, or before the first key that follows `least` or more, unless more
/// than `most` are before this key.
fn first_behind<'i, I: Iterator<Item = (&'i Key, &'i Ids)>>(
    entries: I,
    ties: Ties,
    least: usize,
    most: usize,
) -> Option<Bar<'i>>
    requires { I.can_next entries × IsFinite (I.remaining entries) }
    ensures { IfSome result (λ bar. IfSome bar.until (λ until. ties ≡ Ties.ById)) }
{
    if least > most {
        return None;
    }
    let mut count = 0_usize;
    for (key, ids) in entries {
        if count > most {
            return None;
        }
        if count >= least {
            return Some(Bar { key, until: None });
        }
        let until = end_behind(ids, ties, least - count);
        if until.is_some() {
            return Some(Bar { key, until });
        }
        count = count.saturating_add(ids.len());
    }
    None
}

/// Of the `_id`s under one key, the one that has `many` before it, if ties are decided by the `_id`s and there are more than
/// `many`.
fn end_behind(ids: &Ids, ties: Ties, many: usize) -> Option<&Key>
    ensures { IfSome result (λ until. ties ≡ Ties.ById) }
{
    match ties {
        Ties::ById => ids.at(many),
        Ties::Otherwise => None,
    }
}

/// The same entries, in nodes that are filled one after the other. Fails when memory runs out.
fn built_anew(alloc: Global, entries: BTreeMap<Key, Ids>) -> Result<BTreeMap<Key, Ids>, NoMemory>
    ensures { IfOk result (IsFromIterResult key_order entries.entries) }
{
    entries.into_iter().collect(alloc)
}

/// A copy of the entries. Fails when memory runs out.
fn copy_of(alloc: Global, entries: &BTreeMap<Key, Ids>) -> Result<BTreeMap<Key, Ids>, NoMemory>
    ensures same { IfOk result (λ copy. copy.entries ≡ entries.now.entries) }
    ensures sorted { IfOk result (λ copy. IsStrictlySortedBy key_order (keys_of copy.entries)) }
{
    let mut copy = BTreeMap::new(alloc);
    'entries: for (key, ids) in entries {
        drop(copy.insert(key.try_clone()?, ids.try_clone(alloc)?)?);
    }
    Ok(copy)
}
