//! The operator for `$lookup`.

ghost use Rattle.std.specs.Prelude.{◌≡◌, ◌∷◌, [], refl, IfOk, OnOk};
ghost use Rattle.std.specs.BTreeSet.{contains};
ghost use Rattle.dv_join.specs.Inner.Joined.{AreJoined, IsJoinedAlone};
ghost use Rattle.dv_join.specs.Inner.Taking.{HoldsAfterDocument, HoldsAfterRow, TellsAfterDocument, TellsAfterRow};
ghost use Rattle.dv_join.specs.Placed.{looked_up_at};
ghost use Rattle.dv_join.specs.Inner.Placed.{looked_up_even, looked_up_ordered};
ghost use Rattle.dv_join.specs.Turning.{first_input};
ghost use Rattle.dv_join.specs.Inner.Turning.{AreLocalKeys, HoldsJoin, has_foreign, if_any, join_positioned};
ghost use Rattle.dv_order.specs.Key.{KeyTree, key_order};

use crate::index::RowsByKey;
use crate::joining::{joined_row, joined_rows};
use dv_change::{Input, Operator, Ordered, Pos, Taken, Ticks, hand_over, row_alone};
use dv_gather::Lookup;
use dv_order::Key;
use dv_value::{Document, NoMemory};
use std::alloc::Global;
use std::collections::{BTreeMap, BTreeSet};

/// Rows with the documents of another list that they are joined with, updated by changes of both that come with what was there. Of
/// the rows, it reads only the changed one, or those that share a key with a changed document.
#[derive(Drop)]
pub struct LookupOperator {
    alloc: Global,
    lookup: Lookup,
    /// The rows by the keys by which they are looked up.
    left_by: RowsByKey,
    /// The documents by the keys under which they are found.
    foreign_by: RowsByKey,
    /// A row that it returned, with which later rows share names.
    last: Option<Document>,
}

impl LookupOperator {
    /// The look-up, which has taken in nothing. Fails with `NoMemory` when memory runs out.
    pub fn new(alloc: Global, lookup: &Lookup) -> Result<Self, NoMemory>
        ensures lookup { IfOk result (λ o. o.lookup ≡ lookup.now) }
        ensures holds { IfOk result (λ o. HoldsJoin o ([] ∷ []) []) }
    {
        Ok(LookupOperator {
            alloc,
            lookup: lookup.try_clone()?,
            left_by: RowsByKey::new(alloc),
            foreign_by: RowsByKey::new(alloc),
            last: None,
        })
    }

    /// Takes in a change of its rows; the row that was at its position has these keys. Returns the joined row for the row that is
    /// there now, if there is one.
    fn take_left(
        &mut self,
        taken: &Taken,
        old_keys: &BTreeSet<Key>,
    ) -> Result<Ordered<Document>, NoMemory>
        ensures lookup { OnOk result (self.new.lookup ≡ self.old.lookup) }
        ensures holds { OnOk result (HoldsAfterRow taken.now old_keys.now self.old self.new) }
        ensures told { IfOk result (λ after. TellsAfterRow self.old taken.now after) }
    {
        let Taken { pos, new, .. } = taken;
        let new_keys = self.local_keys(new)?;
        let after = self.joined_alone(pos, new, &new_keys)?;
        self.left_by.exchange(pos, old_keys, new, new_keys)?;
        self.last = lender(&after, self.last.take())?;
        Ok(after)
    }

    /// Takes in a change of the list that it reads. Returns the joined rows before the change, and those after it, for the rows
    /// that share a key with the document that was at its position or with the one that is there now.
    fn take_foreign(
        &mut self,
        taken: &Taken,
    ) -> Result<(Ordered<Document>, Ordered<Document>), NoMemory>
        ensures lookup { OnOk result (self.new.lookup ≡ self.old.lookup) }
        ensures holds { OnOk result (HoldsAfterDocument taken.now self.old self.new) }
        ensures told { IfOk result (λ made. TellsAfterDocument self.old taken.now made.0 made.1) }
    {
        let Taken { pos, old, new } = taken;
        let old_keys = self.foreign_keys(old)?;
        let new_keys = self.foreign_keys(new)?;
        let touched = self.left_by.rows_under(&old_keys, &new_keys)?;
        let before = self.joined(&touched, &touched)?;
        self.foreign_by.exchange(pos, &old_keys, new, new_keys)?;
        let after = self.joined(&touched, &before)?;
        Ok((before, after))
    }

    /// Each of the rows with the documents that it is joined with: a copy of the row in `copied`, which has the same rows, or their
    /// joined rows from before.
    fn joined(
        &self,
        rows: &Ordered<Document>,
        copied: &Ordered<Document>,
    ) -> Result<Ordered<Document>, NoMemory>
        ensures { IfOk result (λ joined. AreJoined self.now.lookup self.now.foreign_by rows.now copied.now joined) }
    {
        let lookup = &self.lookup;
        joined_rows(
            self.alloc,
            lookup,
            &self.foreign_by,
            rows,
            copied,
            self.last.as_ref(),
        )
    }

    /// The row at the position with the documents that it is joined with, if there is one. It has these keys.
    fn joined_alone(
        &self,
        pos: &Pos,
        row: &Option<Document>,
        keys: &BTreeSet<Key>,
    ) -> Result<Ordered<Document>, NoMemory>
        ensures { IfOk result (λ joined. IsJoinedAlone self.now.lookup self.now.foreign_by pos.now row.now keys.now joined) }
    {
        let none = Ordered::new(self.alloc);
        let Some(row) = row else {
            return Ok(none);
        };
        let last = self.last.as_ref();
        let joined = joined_row(self.alloc, &self.lookup, &self.foreign_by, keys, row, last)?;
        none.with(pos.try_clone()?, joined)
    }

    /// The keys by which the row is looked up, if there is one.
    fn local_keys(&self, row: &Option<Document>) -> Result<BTreeSet<Key>, NoMemory>
        ensures { IfOk result (λ keys. AreLocalKeys self.now.lookup row.now keys) }
    {
        match row {
            Some(row) => self.lookup.local_keys(self.alloc, row),
            None => Ok(BTreeSet::new(self.alloc)),
        }
    }

    /// The keys under which the document is found, if there is one.
    fn foreign_keys(&self, document: &Option<Document>) -> Result<BTreeSet<Key>, NoMemory>
        ensures { IfOk result (λ keys. (k : KeyTree) → contains key_order keys k ≡ if_any (has_foreign self.now.lookup k) document.now) }
    {
        match document {
            Some(document) => self.lookup.foreign_keys(self.alloc, document),
            None => Ok(BTreeSet::new(self.alloc)),
        }
    }
}

/// The row with which later rows share names: the first of these, or if there is none, the one from before.
fn lender(rows: &Ordered<Document>, last: Option<Document>) -> Result<Option<Document>, NoMemory> {
    match rows.first() {
        Some((_, row)) => Ok(Some(row.try_clone()?)),
        None => Ok(last),
    }
}

impl Operator for LookupOperator {
    ghost makes = { λ o others rows. looked_up_at o.lookup rows (first_input others) };

    ghost sound = { λ o. Unit {0} };

    ghost holds = { HoldsJoin };

    ghost positioned = { λ o others left held. (held.left, join_positioned o others left held) };

    ghost ordered = { λ o others rows are. looked_up_ordered o.lookup (first_input others) rows are };

    ghost even = { λ o others rows are one. looked_up_even o.lookup (first_input others) rows one };

    ghost empty = { λ o others. refl };

    fn named(&self) -> usize {
        1
    }

    fn take(
        &mut self,
        input: Input,
        taken: Taken,
        ticks: &mut Ticks,
        out: &mut Vec<Taken>,
    ) -> Result<(), NoMemory> {
        match input {
            Input::Left => {
                let keys = self.local_keys(&taken.old)?;
                let old = self.joined_alone(&taken.pos, &taken.old, &keys)?;
                let new = self.take_left(&taken, &keys)?;
                hand_over(&old, &new, ticks, out)
            }
            Input::Named(_) => {
                let (old, new) = self.take_foreign(&taken)?;
                hand_over(&old, &new, ticks, out)
            }
        }
    }

    fn take_beside(
        &mut self,
        input: Input,
        taken: Taken,
        made: &BTreeMap<Pos, Document>,
        ticks: &mut Ticks,
        out: &mut Vec<Taken>,
    ) -> Result<(), NoMemory> {
        match input {
            Input::Left => {
                let keys = self.local_keys(&taken.old)?;
                let old = row_alone(self.alloc, made, &taken.pos)?;
                let new = self.take_left(&taken, &keys)?;
                hand_over(&old, &new, ticks, out)
            }
            Input::Named(_) => self.take(input, taken, ticks, out),
        }
    }

    /// Stores its two sides in trees that are built from all their keys at once.
    fn pack(&mut self) -> Result<(), NoMemory> {
        self.left_by.pack()?;
        self.foreign_by.pack()
    }
}
