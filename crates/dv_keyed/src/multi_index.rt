//! Indexes, which find the documents that have a key.

ghost use Rattle.std.specs.Prelude.{◌≡◌, ◌≤◌, ◌||◌, ◌&&◌, true, false, not, [], length, OnErr, OnOk, IfOk};
ghost use Rattle.std.specs.Ordering.{is_eq};
ghost use Rattle.std.specs.BTreeMap.Range.{IsLeBy, IsLtBy};
ghost use Rattle.std.specs.Range.Bound.{IsForward};
ghost use Rattle.dv_order.specs.Key.{KeyTree, key_order};
ghost use Rattle.dv_keyed.specs.Inner.Keys.{has_key, refers_to};
ghost use Rattle.dv_keyed.specs.Inner.Pairs.{AddsPairs, IsOnlyKey, has_pair, is_under_another};

use crate::ids::Ids;
use crate::keys::Keys;
use crate::pairs::Pairs;
use dv_order::Key;
use dv_value::NoMemory;
use std::alloc::Global;
use std::marker::Model;
use std::ops::Bound;

/// A set of pairs: a key, and the key of the `_id` of a document that has it. It also has the keys of the `_id`s that have several
/// keys: for all others the one key determines which conditions they meet.
#[derive(Debug, Drop)]
pub struct MultiIndex {
    alloc: Global,
    pairs: Pairs,
    several: Ids,
}

impl Model for MultiIndex {
    ghost use Rattle.std.specs.Prelude as prelude;
    ghost use Rattle.std.specs.Coded.{coded_list, coded×};
    ghost use Rattle.dv_order.specs.Inner.Key.{coded_key};
    ghost use Rattle.dv_keyed.specs.Inner.Pairs.{AreNoted, Pair};

    ghost Value = { prelude.List Pair };

    ghost coded = { coded_list (coded× coded_key coded_key) };

    ghost view = { λ i. i.pairs };

    ghost invariant = { λ i. AreNoted i.several i.pairs };
}

impl MultiIndex {
    /// An index without pairs, whose memory will be allocated by `alloc`.
    pub fn new(alloc: Global) -> Self
        ensures { result ≡ [] }
    {
        MultiIndex {
            alloc,
            pairs: Pairs::new(alloc),
            several: Ids::none(alloc),
        }
    }

    /// Adds the pair of each of the keys and the `_id`'s key. If memory runs out, the pairs are unchanged.
    pub fn add(&mut self, keys: &Keys, id: &Key) -> Result<(), NoMemory>
        ensures ok { OnOk result ((k i : KeyTree) → has_pair k i self.new ≡ (has_pair k i self.old || (has_key k keys.now && is_eq (key_order i id.now)))) }
        ensures err { OnErr result ((k i : KeyTree) → has_pair k i self.new ≡ has_pair k i self.old) }
    {
        // Whether the `_id` has other keys isn't known.
        note(&mut self.several, id, true)?;
        self.pairs.add(keys, id)
    }

    /// Adds the pair of each of the keys and the key of an `_id` that has no pair yet. If memory runs out, the pairs are unchanged.
    pub fn add_first(&mut self, keys: &Keys, id: &Key) -> Result<(), NoMemory>
        requires { (k : KeyTree) → has_pair k id.now self.old ≡ false }
        ensures ok { OnOk result ((k i : KeyTree) → has_pair k i self.new ≡ (has_pair k i self.old || (has_key k keys.now && is_eq (key_order i id.now)))) }
        ensures err { OnErr result ((k i : KeyTree) → has_pair k i self.new ≡ has_pair k i self.old) }
    {
        note(&mut self.several, id, keys.len() > 1)?;
        self.pairs.add(keys, id)
    }

    /// Adds a pair for each key, none of which the `_id` has yet; all keys that it has are in `held`. If memory runs out, the pairs
    /// are unchanged.
    pub(crate) fn add_fresh(
        &mut self,
        fresh: &[&Key],
        id: &Key,
        held: &Keys,
    ) -> Result<(), NoMemory>
        requires absent { (k : KeyTree) → refers_to fresh.now k ≡ true → has_pair k id.now self.old ≡ false }
        requires held { (k : KeyTree) → has_pair k id.now self.old ≡ true → has_key k held.now ≡ true }
        ensures ok { OnOk result (AddsPairs (refers_to fresh.now) id.now self.old self.new) }
        ensures err { OnErr result ((k i : KeyTree) → has_pair k i self.new ≡ has_pair k i self.old) }
    {
        if fresh.is_empty() {
            return Ok(());
        }
        note(&mut self.several, id, are_several(fresh, held))?;
        match self.pairs.add_fresh(fresh, id) {
            Ok(()) => Ok(()),
            Err(e) => {
                self.settle(id, held);
                Err(e)
            }
        }
    }

    /// Removes the pair of each of the keys and the `_id`'s key, if it is there. Takes no memory.
    pub fn take_out(&mut self, keys: &Keys, id: &Key)
        ensures { (k i : KeyTree) → has_pair k i self.new ≡ (has_pair k i self.old && not (has_key k keys.now && is_eq (key_order i id.now))) }
    {
        self.pairs.take_out(keys, id);
    }

    /// Removes the pair of each key, if the `_id` has it; all keys that the `_id` then has are in `left`. Takes no memory.
    pub(crate) fn take_out_each(&mut self, keys: &[&Key], id: &Key, left: &Keys)
        requires { (k : KeyTree) → (has_pair k id.now self.old && not (refers_to keys.now k)) ≡ true → has_key k left.now ≡ true }
        ensures { (k i : KeyTree) → has_pair k i self.new ≡ (has_pair k i self.old && not (refers_to keys.now k && is_eq (key_order i id.now))) }
    {
        if keys.is_empty() {
            return;
        }
        self.pairs.take_out_each(keys, id);
        self.settle(id, left);
    }

    /// Whether one of the keys is under another `_id`. Takes no memory.
    pub fn clash(&self, keys: &Keys, id: &Key) -> bool
        ensures { result ≡ is_under_another (λ k. has_key k keys.now) id.now self.now }
    {
        self.pairs.clash(keys, id)
    }

    /// The same pairs, in as few nodes of their tree as hold them. Fails with `NoMemory` when memory runs out.
    pub fn packed(self) -> Result<Self, NoMemory>
        ensures { IfOk result (λ packed. (k i : KeyTree) → has_pair k i packed ≡ has_pair k i self) }
    {
        let MultiIndex {
            alloc,
            pairs,
            several,
        } = self;
        Ok(MultiIndex {
            alloc,
            pairs: pairs.packed()?,
            several,
        })
    }

    /// A copy of its own. Fails with `NoMemory` when memory runs out.
    pub fn try_clone(&self) -> Result<Self, NoMemory>
        ensures { IfOk result (λ copy. copy ≡ self.now) }
    {
        Ok(MultiIndex {
            alloc: self.alloc,
            pairs: self.pairs.try_clone()?,
            several: self.several.try_clone(self.alloc)?,
        })
    }

    /// The pairs.
    pub fn as_pairs(&self) -> &Pairs
        ensures { result.now ≡ self.now }
    {
        &self.pairs
    }

    /// Whether an `_id` may have several keys. Takes no memory.
    pub fn has_several(&self) -> bool
        ensures { result ≡ false → (k i : KeyTree) → has_pair k i self.now ≡ true → IsOnlyKey k i self.now }
    {
        !self.several.is_empty()
    }

    /// Adds to a list the keys of the `_id`s that have several keys. Then it lacks no `_id`, except those with only one key that it
    /// lacked before. If memory runs out, some of them are added.
    pub(crate) fn add_several<'i>(&'i self, ids: &mut Vec<&'i Key>) -> Result<(), NoMemory>
        ensures { OnOk result ((k i : KeyTree) → has_pair k i self.now ≡ true → (IsOnlyKey k i self.now → refers_to ids.old.items i ≡ true) → refers_to ids.new.items i ≡ true) }
    {
        self.several.add_to(ids)
    }

    /// Whether no `_id` has several keys, or more `_id`s are under the keys between two ends than the sum of `found` and the number
    /// of those that have several keys.
    pub(crate) fn has_more(&self, low: Bound<Key>, high: Bound<Key>, found: usize) -> bool
        requires { IsForward (IsLeBy key_order) (IsLtBy key_order) low high }
    {
        self.several.is_empty()
            || self
                .pairs
                .has_more(low, high, found.saturating_add(self.several.len()))
    }

    /// Forgets that the `_id` has several keys, if `left` has at most one; `left` has all its keys.
    fn settle(&mut self, id: &Key, left: &Keys)
        requires { (k : KeyTree) → has_pair k id.now self.old ≡ true → has_key k left.now ≡ true }
        ensures { self.new ≡ self.old }
    {
        if left.len() <= 1 {
            self.several.take_out(id);
        }
    }
}

/// Whether the fresh keys, of which there is at least one, are several together with the held ones, which are others.
fn are_several(fresh: &[&Key], held: &Keys) -> bool
    ensures one { result ≡ false → length fresh.now ≤ 1 }
    ensures none_held { result ≡ false → held.now ≡ [] }
{
    fresh.len() > 1 || held.len() > 0
}

/// Notes an `_id` if it has several keys. If memory runs out, nothing changes.
fn note(several: &mut Ids, id: &Key, has_several: bool) -> Result<(), NoMemory>
    ensures ok { OnOk result ((i : KeyTree) → has_key i several.new ≡ (has_key i several.old || (has_several && is_eq (key_order i id.now)))) }
    ensures err { OnErr result ((i : KeyTree) → has_key i several.new ≡ has_key i several.old) }
{
    if has_several { several.add(id) } else { Ok(()) }
}
