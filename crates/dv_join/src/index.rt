//! Rows by their keys.

ghost use Rattle.std.specs.Prelude.{◌≡◌, [], cond, IfOk, OnOk};
ghost use Rattle.std.specs.BTreeMap.{IsFromIterResult};
ghost use Rattle.std.specs.BTreeSet.{IsUnion, contains, union};
ghost use Rattle.std.specs.List.Sorted.{IsStrictlySortedBy};
ghost use Rattle.std.specs.Map.{keys_of};
ghost use Rattle.std.specs.Ordering.{is_eq};
ghost use Rattle.dv_join.specs.Inner.Indexed.{AreRowsUnder, AreValuesUnder, ExchangedIn, TakenOutOf, row_set, under};
ghost use Rattle.dv_order.specs.Key.{KeyTree, key_order};

use crate::joining::{values_of, with_all};
use dv_change::{Ordered, Pos};
use dv_order::Key;
use dv_value::{Document, List, NoMemory};
use std::alloc::Global;
use std::collections::{BTreeMap, BTreeSet};
use std::mem::replace;

/// Rows by keys: under each key those that have it, in the order of their positions.
#[derive(Drop)]
pub(crate) struct RowsByKey {
    alloc: Global,
    under: BTreeMap<Key, Ordered<Document>>,
}

impl RowsByKey {
    /// No rows, which take no memory.
    pub(crate) fn new(alloc: Global) -> Self
        ensures { (k : KeyTree) → under k result ≡ [] }
    {
        RowsByKey {
            alloc,
            under: BTreeMap::new(alloc),
        }
    }

    /// Takes out the row at the position, which has the keys `old_keys`, and puts `row` there, which has the keys `new_keys`. Under
    /// a key that both have, the new row replaces the old one. Fails when memory runs out.
    pub(crate) fn exchange(
        &mut self,
        pos: &Pos,
        old_keys: &BTreeSet<Key>,
        row: &Option<Document>,
        new_keys: BTreeSet<Key>,
    ) -> Result<(), NoMemory>
        ensures { OnOk result (ExchangedIn pos.now old_keys.now row.now new_keys self.old self.new) }
    {
        self.take_out(old_keys, &new_keys, pos)?;
        self.set(new_keys, pos, row)
    }

    /// Takes out the row at the position under each of the keys that isn't one of the others.
    fn take_out(
        &mut self,
        keys: &BTreeSet<Key>,
        others: &BTreeSet<Key>,
        pos: &Pos,
    ) -> Result<(), NoMemory>
        ensures { OnOk result (TakenOutOf pos.now keys.now others.now self.old self.new) }
    {
        'keys: for key in keys.difference(others) {
            self.set_under(key.try_clone()?, pos, &None)?;
        }
        Ok(())
    }

    /// Sets the row at the position under each of the keys, or removes the row that is there.
    fn set(
        &mut self,
        keys: BTreeSet<Key>,
        pos: &Pos,
        row: &Option<Document>,
    ) -> Result<(), NoMemory>
        ensures { OnOk result ((k : KeyTree) → under k self.new ≡ cond (contains key_order keys k) (row_set pos.now row.now (under k self.old)) (under k self.old)) }
    {
        'keys: for key in keys {
            self.set_under(key, pos, row)?;
        }
        Ok(())
    }

    /// Sets the row at the position under the key, or removes the row that is there.
    fn set_under(&mut self, key: Key, pos: &Pos, row: &Option<Document>) -> Result<(), NoMemory>
        ensures { OnOk result ((k : KeyTree) → under k self.new ≡ cond (is_eq (key_order k key)) (row_set pos.now row.now (under k self.old)) (under k self.old)) }
    {
        let old = self.take_under(&key);
        let rows = with_row_set(old, pos, row)?;
        if rows.is_empty() {
            self.under.remove(&key);
        } else {
            self.under.insert(key, rows)?;
        }
        Ok(())
    }

    /// Takes out all rows under the key. The key stays, so that others can be put there without a change of the tree.
    fn take_under(&mut self, key: &Key) -> Ordered<Document>
        ensures rows { result ≡ under key.now self.old }
        ensures others { (k : KeyTree) → under k self.new ≡ cond (is_eq (key_order k key.now)) [] (under k self.old) }
    {
        let none = Ordered::new(self.alloc);
        match self.under.get_mut(key) {
            Some(rows) => replace(rows, none),
            None => none,
        }
    }

    /// Stores the rows in as few nodes of a tree as can hold them: keys that were inserted in ascending order left each node half
    /// empty. Fails when memory runs out.
    pub(crate) fn pack(&mut self) -> Result<(), NoMemory>
        ensures { OnOk result ((k : KeyTree) → under k self.new ≡ under k self.old) }
    {
        let under = replace(&mut self.under, BTreeMap::new(self.alloc));
        self.under = built_anew(self.alloc, under)?;
        Ok(())
    }

    /// The rows that have any of the keys or of the others. Fails when memory runs out.
    pub(crate) fn rows_under(
        &self,
        keys: &BTreeSet<Key>,
        others: &BTreeSet<Key>,
    ) -> Result<Ordered<Document>, NoMemory>
        ensures union { IsUnion key_order keys.now others.now (union key_order keys.now others.now) }
        ensures rows { IfOk result (λ all. AreRowsUnder self.now (union key_order keys.now others.now) all) }
    {
        let mut found = Ordered::new(self.alloc);
        'keys: for key in keys.union(others) {
            if let Some(rows) = self.under.get(key) {
                found = with_all(found, rows)?;
            }
        }
        Ok(found)
    }

    /// The rows that have any of the keys, as values in the order of their positions. Fails when memory runs out.
    pub(crate) fn values_under(&self, keys: &BTreeSet<Key>) -> Result<List, NoMemory>
        ensures { IfOk result (λ values. AreValuesUnder self.now keys.now.keys values) }
    {
        let Some(key) = keys.first() else {
            return Ok(List::new(self.alloc));
        };
        if keys.len() > 1 {
            let rows = self.rows_under(keys, &BTreeSet::new(self.alloc))?;
            return values_of(self.alloc, &rows);
        }
        match self.under.get(key) {
            Some(rows) => values_of(self.alloc, rows),
            None => Ok(List::new(self.alloc)),
        }
    }
}

/// The rows by keys, in a tree that is built from all of them at once. Fails when memory runs out.
fn built_anew(
    alloc: Global,
    under: BTreeMap<Key, Ordered<Document>>,
) -> Result<BTreeMap<Key, Ordered<Document>>, NoMemory>
    ensures ordered { IsStrictlySortedBy key_order (keys_of under.entries) }
    ensures made { IfOk result (IsFromIterResult key_order under.entries) }
{
    under.into_iter().collect(alloc)
}

/// The rows with the one at the position set, or without it.
fn with_row_set(
    rows: Ordered<Document>,
    pos: &Pos,
    row: &Option<Document>,
) -> Result<Ordered<Document>, NoMemory>
    ensures { IfOk result (λ set. set ≡ row_set pos.now row.now rows) }
{
    match row {
        Some(row) => rows.with(pos.try_clone()?, row.try_clone()?),
        None => Ok(rows.without(pos)),
    }
}
