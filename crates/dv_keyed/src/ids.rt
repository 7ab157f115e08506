//! The documents under one key.

ghost use Rattle.std.specs.Prelude.{◌≡◌, ◌||◌, ◌&&◌, ◌↔◌, not, [], ◌∷◌, ◌++◌, filter, if◌then◌else◌, map, IsTrue, IfOk, OnErr, OnOk};
ghost use Rattle.std.specs.List.{list_any};
ghost use Rattle.std.specs.Option.{option_map};
ghost use Rattle.std.specs.BTreeSet.{contains};
ghost use Rattle.std.specs.Ordering.{is_eq, is_lt};
ghost use Rattle.dv_order.specs.Key.{KeyTree, key_order};
ghost use Rattle.dv_keyed.specs.Inner.Ids.{has_in};
ghost use Rattle.dv_keyed.specs.Inner.Ids as defined;
ghost use Rattle.dv_keyed.specs.Inner.Keys.{has_key};

use dv_order::Key;
use dv_value::NoMemory;
use std::alloc::Global;
use std::collections::BTreeSet;
use std::marker::Model;
use std::mem::replace;
use std::ops::Bound;

/// How many keys may be in a list, which is searched key by key.
const MOST_LISTED: usize = 16;

/// A set of keys of `_id`s.
#[derive(Debug, Drop)]
pub(crate) struct Ids {
    alloc: Global,
    kept: Kept,
}

/// How the keys are stored. Under most keys there is one document, which needs no memory of its own. Few keys are in a list,
/// because a node of a set would have room for more.
#[derive(Debug, Drop)]
enum Kept {
    One(Key),
    Few(Vec<Key>),
    Many(BTreeSet<Key>),
}

impl Model for Ids {
    ghost use Rattle.std.specs.Prelude.{List};
    ghost use Rattle.std.specs.Coded.{coded_list};
    ghost use Rattle.dv_order.specs.Key.{KeyTree};
    ghost use Rattle.dv_order.specs.Inner.Key.{coded_key};
    ghost use Rattle.dv_keyed.specs.Inner.Ids.{ids_kept};

    ghost Value = { List KeyTree };

    ghost coded = { coded_list coded_key };

    ghost view = { λ i. ids_kept i.kept };
}

impl Ids {
    /// None. Takes no memory.
    pub(crate) fn none(alloc: Global) -> Self
        ensures { result ≡ [] }
    {
        Ids {
            alloc,
            kept: Kept::Few(Vec::new(alloc)),
        }
    }

    /// This one alone. Takes no memory.
    pub(crate) fn of(alloc: Global, id: Key) -> Self
        ensures { result ≡ id ∷ [] }
    {
        Ids {
            alloc,
            kept: Kept::One(id),
        }
    }

    /// Whether an equal one is there.
    pub(crate) fn contains(&self, id: &Key) -> bool
        ensures { result ≡ has_key id.now self.now }
    {
        match &self.kept {
            Kept::One(first) => id == first,
            Kept::Few(ids) => is_among(ids, id),
            Kept::Many(ids) => ids.contains(id),
        }
    }

    /// Whether there is another one that is not in `gone`.
    pub(crate) fn has_another(&self, id: &Key, gone: Option<&Ids>) -> bool
        ensures { result ≡ list_any (defined.is_another id.now (option_map (λ ids. ids.now) gone.entry)) self.now }
    {
        match &self.kept {
            Kept::One(first) => is_another(first, id, gone),
            Kept::Few(ids) => ids.iter().any(|other| is_another(other, id, gone)),
            Kept::Many(ids) => ids.iter().any(|other| is_another(other, id, gone)),
        }
    }

    /// Whether there is none.
    pub(crate) fn is_empty(&self) -> bool
        ensures { IsTrue result ↔ (self.now ≡ []) }
    {
        match &self.kept {
            Kept::One(_) => false,
            Kept::Few(ids) => ids.is_empty(),
            Kept::Many(ids) => ids.is_empty(),
        }
    }

    /// How many there are.
    pub(crate) fn len(&self) -> usize {
        match &self.kept {
            Kept::One(_) => 1,
            Kept::Few(ids) => ids.len(),
            Kept::Many(ids) => ids.len(),
        }
    }

    /// The one at this place in their order, counted from 0; `None` if there is none at it.
    pub(crate) fn at(&self, place: usize) -> Option<&Key> {
        if place >= self.len() {
            return None;
        }
        match &self.kept {
            Kept::One(first) => Some(first),
            Kept::Few(ids) => ids.iter().find(|id| count_before(ids, id) == place),
            Kept::Many(ids) => ids.iter().nth(place),
        }
    }

    /// Adds one. If memory runs out, nothing changes.
    pub(crate) fn add(&mut self, id: &Key) -> Result<(), NoMemory>
        ensures ok { OnOk result ((i : KeyTree) → has_key i self.new ≡ (has_key i self.old || is_eq (key_order i id.now))) }
        ensures err { OnErr result ((i : KeyTree) → has_key i self.new ≡ has_key i self.old) }
    {
        match &mut self.kept {
            Kept::One(first) => {
                if id == first {
                    return Ok(());
                }
                let few = Kept::Few(both(self.alloc, first, id)?);
                drop(replace(&mut self.kept, few));
                Ok(())
            }
            Kept::Few(ids) => {
                if is_among(ids, id) {
                    return Ok(());
                }
                if ids.len() < MOST_LISTED {
                    return push_copy(ids, id);
                }
                let many = Kept::Many(set_with(self.alloc, ids, id)?);
                drop(replace(&mut self.kept, many));
                Ok(())
            }
            Kept::Many(ids) => insert_into(ids, id),
        }
    }

    /// Removes one, if it is there. Takes no memory.
    pub(crate) fn take_out(&mut self, id: &Key)
        ensures { (i : KeyTree) → has_key i self.new ≡ (has_key i self.old && not (is_eq (key_order i id.now))) }
    {
        match &mut self.kept {
            Kept::One(first) => {
                if id == first {
                    let none = Kept::Few(Vec::new(self.alloc));
                    drop(replace(&mut self.kept, none));
                }
            }
            Kept::Few(ids) => drop_equal(ids, id),
            Kept::Many(ids) => {
                let _ = ids.remove(id);
            }
        }
    }

    /// A copy of its own. Fails when memory runs out.
    pub(crate) fn try_clone(&self, alloc: Global) -> Result<Self, NoMemory>
        ensures { IfOk result (λ copy. copy ≡ self.now) }
    {
        let kept = match &self.kept {
            Kept::One(first) => Kept::One(first.try_clone()?),
            Kept::Few(ids) => Kept::Few(copy_of_list(alloc, ids)?),
            Kept::Many(ids) => Kept::Many(copy_of_set(alloc, ids)?),
        };
        Ok(Ids { alloc, kept })
    }

    /// Adds all of them to a list. If memory runs out, some of them are added.
    pub(crate) fn add_to<'i>(&'i self, found: &mut Vec<&'i Key>) -> Result<(), NoMemory>
        ensures { OnOk result (map (λ i. i.now) found.new.items ≡ map (λ i. i.now) found.old.items ++ self.now) }
    {
        match &self.kept {
            Kept::One(first) => {
                found.push(first)?;
                Ok(())
            }
            Kept::Few(ids) => add_each_to(found, ids),
            Kept::Many(ids) => add_all_to(found, ids),
        }
    }

    /// Adds to a list those that are less than an end. If memory runs out, some of them are added.
    pub(crate) fn add_until<'i>(
        &'i self,
        until: &Key,
        found: &mut Vec<&'i Key>,
    ) -> Result<(), NoMemory>
        ensures { OnOk result (map (λ i. i.now) found.new.items ≡ map (λ i. i.now) found.old.items ++ filter (λ i. is_lt (key_order i until.now)) self.now) }
    {
        match &self.kept {
            Kept::One(first) => add_if_less(found, first, until),
            Kept::Few(ids) => add_less(found, ids, until),
            Kept::Many(ids) => add_front(found, ids, until),
        }
    }
}

/// How many of the list are less than this one.
fn count_before(ids: &[Key], id: &Key) -> usize {
    ids.iter().filter(|other| *other < id).count()
}

/// Whether an equal one is in the list.
fn is_among(ids: &[Key], id: &Key) -> bool
    ensures { result ≡ has_key id.now ids.now }
{
    ids.iter().any(|other| id == other)
}

/// Whether `other` is not equal to `id`, and is not in `gone`.
fn is_another(other: &Key, id: &Key, gone: Option<&Ids>) -> bool
    ensures { result ≡ defined.is_another id.now (option_map (λ ids. ids.now) gone.entry) other.now }
{
    id != other && !is_in(gone, other)
}

/// Whether there is a set, and an equal one is in it.
fn is_in(ids: Option<&Ids>, id: &Key) -> bool
    ensures { result ≡ has_in id.now (option_map (λ ids. ids.now) ids.entry) }
{
    match ids {
        Some(ids) => ids.contains(id),
        None => false,
    }
}

/// A copy of the set. Fails when memory runs out.
fn copy_of_set(alloc: Global, ids: &BTreeSet<Key>) -> Result<BTreeSet<Key>, NoMemory>
    ensures { IfOk result (λ copy. copy.keys ≡ ids.now.keys) }
{
    let mut copy = BTreeSet::new(alloc);
    'ids: for id in ids {
        let _ = copy.insert(id.try_clone()?)?;
    }
    Ok(copy)
}

/// The two keys. Fails when memory runs out.
fn both(alloc: Global, first: &Key, second: &Key) -> Result<Vec<Key>, NoMemory>
    ensures { IfOk result (λ keys. keys.items ≡ first.now ∷ second.now ∷ []) }
{
    let mut keys = Vec::with_capacity(alloc, 2)?;
    keys.push(first.try_clone()?)?;
    keys.push(second.try_clone()?)?;
    Ok(keys)
}

/// The set of the keys and of one more. Fails when memory runs out.
fn set_with(alloc: Global, ids: &[Key], id: &Key) -> Result<BTreeSet<Key>, NoMemory>
    ensures { IfOk result (λ set. (i : KeyTree) → contains key_order set i ≡ (has_key i ids.now || is_eq (key_order i id.now))) }
{
    let mut set = BTreeSet::new(alloc);
    'ids: for other in ids {
        insert_into(&mut set, other)?;
    }
    insert_into(&mut set, id)?;
    Ok(set)
}

/// Adds a copy of the key after the others. If memory runs out, nothing changes.
fn push_copy(ids: &mut Vec<Key>, id: &Key) -> Result<(), NoMemory>
    ensures ok { OnOk result ((i : KeyTree) → has_key i ids.new.items ≡ (has_key i ids.old.items || is_eq (key_order i id.now))) }
    ensures err { OnErr result (ids.new.items ≡ ids.old.items) }
{
    ids.push(id.try_clone()?)?;
    Ok(())
}

/// Removes the keys that are equal to this one.
fn drop_equal(ids: &mut Vec<Key>, id: &Key)
    ensures { ids.new.items ≡ filter (λ other. not (is_eq (key_order id.now other))) ids.old.items }
{
    ids.retain(|other| id != other);
}

/// A copy of the list. Fails when memory runs out.
fn copy_of_list(alloc: Global, ids: &[Key]) -> Result<Vec<Key>, NoMemory>
    ensures { IfOk result (λ copy. copy.items ≡ ids.now) }
{
    let mut copy = Vec::with_capacity(alloc, ids.len())?;
    'ids: for id in ids {
        copy.push(id.try_clone()?)?;
    }
    Ok(copy)
}

/// Adds each of the ids to a list. If memory runs out, some of them are added.
fn add_each_to<'i>(found: &mut Vec<&'i Key>, ids: &'i [Key]) -> Result<(), NoMemory>
    ensures { OnOk result (map (λ i. i.now) found.new.items ≡ map (λ i. i.now) found.old.items ++ ids.now) }
{
    'ids: for id in ids {
        found.push(id)?;
    }
    Ok(())
}

/// Adds all of the ids to a list. If memory runs out, some of them are added.
fn add_all_to<'i>(found: &mut Vec<&'i Key>, ids: &'i BTreeSet<Key>) -> Result<(), NoMemory>
    ensures { OnOk result (map (λ i. i.now) found.new.items ≡ map (λ i. i.now) found.old.items ++ ids.now.keys) }
{
    'ids: for id in ids {
        found.push(id)?;
    }
    Ok(())
}

/// Adds the id to a list if it is less than an end. If memory runs out, nothing changes.
fn add_if_less<'i>(found: &mut Vec<&'i Key>, id: &'i Key, until: &Key) -> Result<(), NoMemory>
    ensures { OnOk result (map (λ i. i.now) found.new.items ≡ map (λ i. i.now) found.old.items ++ (if is_lt (key_order id.now until.now) then id.now ∷ [] else [])) }
{
    if id < until {
        found.push(id)?;
    }
    Ok(())
}

/// Adds to a list each of the ids that is less than an end. If memory runs out, some of them are added.
fn add_less<'i>(found: &mut Vec<&'i Key>, ids: &'i [Key], until: &Key) -> Result<(), NoMemory>
    ensures { OnOk result (map (λ i. i.now) found.new.items ≡ map (λ i. i.now) found.old.items ++ filter (λ i. is_lt (key_order i until.now)) ids.now) }
{
    'ids: for id in ids {
        add_if_less(found, id, until)?;
    }
    Ok(())
}

/// The same for the ids of a set, of which no others are read.
fn add_front<'i>(
    found: &mut Vec<&'i Key>,
    ids: &'i BTreeSet<Key>,
    until: &Key,
) -> Result<(), NoMemory>
    ensures { OnOk result (map (λ i. i.now) found.new.items ≡ map (λ i. i.now) found.old.items ++ filter (λ i. is_lt (key_order i until.now)) ids.now.keys) }
{
    let end = Bound::Excluded(until.try_clone()?);
    'ids: for id in ids.range((Bound::Unbounded, end)) {
        found.push(id)?;
    }
    Ok(())
}

/// Adds a copy of the id to a set. If memory runs out, nothing changes.
pub(crate) fn insert_into(found: &mut BTreeSet<Key>, id: &Key) -> Result<(), NoMemory>
    ensures ok { OnOk result ((i : KeyTree) → contains key_order found.new i ≡ (contains key_order found.old i || is_eq (key_order i id.now))) }
    ensures err { OnErr result ((i : KeyTree) → contains key_order found.new i ≡ contains key_order found.old i) }
{
    let _ = found.insert(id.try_clone()?)?;
    Ok(())
}
