//! Groups by their keys, which changes of rows keep up to date.

ghost use Rattle.std.specs.Prelude.{◌≡◌, [], IfOk, OnOk, Some};
ghost use Rattle.dv_order.specs.Key.{KeyTree};
ghost use Rattle.dv_group.specs.Inner.Members as defined;
ghost use Rattle.dv_group.specs.Inner.Members.{AreLiveGroups, AreTransitionsOfKeys, AreTransitionsOfTaken, FollowTaken, IsTransitionOfKey, SetInGroup, group_members, moved, moved_all, own_key};

use crate::group_state::GroupState;
use crate::live_group::LiveGroup;
use crate::transition::{RowsWanted, Transition, Transitions};
use dv_change::{Pos, Taken};
use dv_gather::Group;
use dv_order::{Key, key_of};
use dv_value::{Document, NoMemory};
use std::alloc::Global;
use std::collections::BTreeMap;

/// The groups, by their keys.
pub(crate) type Groups = BTreeMap<Key, LiveGroup>;

/// Takes in changes of rows, one after the other, without computing the rows of groups. Fails when memory runs out.
pub(crate) fn follow_all(
    alloc: Global,
    group: &Group,
    groups: &mut Groups,
    all: Vec<Taken>,
) -> Result<(), NoMemory>
    requires { AreLiveGroups group.now groups.old.entries }
    ensures rows { OnOk result ((k : KeyTree) → group_members k groups.new.entries ≡ moved_all group.now k (group_members k groups.old.entries) all.items) }
    ensures sound { OnOk result (AreLiveGroups group.now groups.new.entries) }
{
    'all: for taken in all {
        follow(alloc, group, groups, taken, RowsWanted::Unwanted)?;
    }
    Ok(())
}

/// Takes in a change of a row: the row that was at its position is removed from the group of its key, and the row that is there now
/// is added to the group of its own key. Returns the rows of these groups before and after the change, if they are wanted. Fails
/// when memory runs out.
pub(crate) fn follow(
    alloc: Global,
    group: &Group,
    groups: &mut Groups,
    taken: Taken,
    wish: RowsWanted<'_>,
) -> Result<Transitions, NoMemory>
    requires { AreLiveGroups group.now groups.old.entries }
    ensures rows { OnOk result (FollowTaken group.now taken groups.old.entries groups.new.entries) }
    ensures sound { OnOk result (AreLiveGroups group.now groups.new.entries) }
    ensures shown { IfOk result (λ all. AreTransitionsOfTaken wish.entry group.now groups.old.entries groups.new.entries taken all) }
{
    let Taken { pos, old, new } = taken;
    let key = key_of_row(alloc, group, &old)?;
    let other = key_of_row(alloc, group, &new)?;
    move_row(alloc, group, groups, pos, &key, &other, new, wish)
}

/// The key of the row, if there is one. Fails when memory runs out.
fn key_of_row(alloc: Global, group: &Group, row: &Option<Document>) -> Result<Option<Key>, NoMemory>
    ensures { IfOk result (λ key. key ≡ own_key group.now row.now) }
{
    match row {
        Some(row) => {
            let key = group.key_in(alloc, row)?;
            Ok(Some(key_of(key.get())?))
        }
        None => Ok(None),
    }
}

/// Removes the row at the position from the group of `key`, and adds the row `new` there to the group of `other`, if there are keys
/// and a row. Returns the rows of these groups before and after that, if they are wanted. Fails when memory runs out.
fn move_row(
    alloc: Global,
    group: &Group,
    groups: &mut Groups,
    pos: Pos,
    key: &Option<Key>,
    other: &Option<Key>,
    new: Option<Document>,
    wish: RowsWanted<'_>,
) -> Result<Transitions, NoMemory>
    requires { AreLiveGroups group.now groups.old.entries }
    ensures rows { OnOk result ((k : KeyTree) → group_members k groups.new.entries ≡ moved pos key.now other.now new k (group_members k groups.old.entries)) }
    ensures sound { OnOk result (AreLiveGroups group.now groups.new.entries) }
    ensures shown { IfOk result (λ all. AreTransitionsOfKeys wish.entry group.now groups.old.entries groups.new.entries key.now other.now all) }
{
    pos.law_exact();
    if are_one(key, other) {
        let transition = set_in(alloc, group, groups, key, pos, new, wish)?;
        let one = Transitions::of_one(alloc, key, transition)?;
        return Ok(one);
    }
    let place = pos.try_clone()?;
    let left = set_in(alloc, group, groups, key, place, None, wish)?;
    let come = set_in(alloc, group, groups, other, pos, new, wish)?;
    let both = Transitions::of_two(alloc, key, left, other, come)?;
    Ok(both)
}

/// Sets the row at the position in the group of the key, or removes the row there, if there is a key.
fn set_in(
    alloc: Global,
    group: &Group,
    groups: &mut Groups,
    key: &Option<Key>,
    pos: Pos,
    row: Option<Document>,
    wish: RowsWanted<'_>,
) -> Result<Transition, NoMemory>
    requires { AreLiveGroups group.now groups.old.entries }
    ensures rows { OnOk result (SetInGroup key.now pos row groups.old.entries groups.new.entries) }
    ensures sound { OnOk result (AreLiveGroups group.now groups.new.entries) }
    ensures shown { IfOk result (λ transition. IsTransitionOfKey wish.entry group.now groups.old.entries groups.new.entries key.now transition) }
{
    match key {
        Some(key) => set_under(alloc, group, groups, key, pos, row, wish),
        None => Ok(Transition {
            before: None,
            after: None,
        }),
    }
}

/// Sets the row at the position in the group of the key, or removes the row there. A group without rows is removed.
fn set_under(
    alloc: Global,
    group: &Group,
    groups: &mut Groups,
    key: &Key,
    pos: Pos,
    row: Option<Document>,
    wish: RowsWanted<'_>,
) -> Result<Transition, NoMemory>
    requires { AreLiveGroups group.now groups.old.entries }
    ensures rows { OnOk result (SetInGroup (Some key.now) pos row groups.old.entries groups.new.entries) }
    ensures sound { OnOk result (AreLiveGroups group.now groups.new.entries) }
    ensures shown { IfOk result (λ transition. IsTransitionOfKey wish.entry group.now groups.old.entries groups.new.entries (Some key.now) transition) }
{
    let Some(live) = groups.get_mut(key) else {
        return set_first(alloc, group, groups, key, pos, row, wish);
    };
    let transition = live.set(alloc, group, pos, row, wish)?;
    if live.is_empty() {
        drop(groups.remove(key));
        return Ok(transition);
    }
    Ok(transition)
}

/// Sets the row at the position in a new group of the key, which has no group yet.
fn set_first(
    alloc: Global,
    group: &Group,
    groups: &mut Groups,
    key: &Key,
    pos: Pos,
    row: Option<Document>,
    wish: RowsWanted<'_>,
) -> Result<Transition, NoMemory>
    requires sound { AreLiveGroups group.now groups.old.entries }
    requires none { group_members key.now groups.old.entries ≡ [] }
    ensures rows { OnOk result (SetInGroup (Some key.now) pos row groups.old.entries groups.new.entries) }
    ensures sound { OnOk result (AreLiveGroups group.now groups.new.entries) }
    ensures shown { IfOk result (λ transition. IsTransitionOfKey wish.entry group.now groups.old.entries groups.new.entries (Some key.now) transition) }
{
    let state = GroupState::new(alloc, group)?;
    let mut live = LiveGroup::of(state);
    let transition = live.set(alloc, group, pos, row, wish)?;
    groups.insert(key.try_clone()?, live)?;
    Ok(transition)
}

/// Whether there are two keys, and they are equal.
fn are_one(key: &Option<Key>, other: &Option<Key>) -> bool
    ensures { result ≡ defined.are_one key.now other.now }
{
    let Some(key) = key else {
        return false;
    };
    match other {
        Some(other) => key == other,
        None => false,
    }
}
