//! The operator for `$limit`.

ghost use Rattle.std.specs.Prelude.{◌≡◌, ◌+◌, ◌++◌, ◌≤◌, false, [], length, IfOk, IsTrue, OnErr, OnOk};
ghost use Rattle.dv_change.specs.Inner.Beginning.{BeginsWith};
ghost use Rattle.dv_change.specs.Changes.{at, with_change};
ghost use Rattle.dv_change.specs.Inner.Ordered.{gone, put};
ghost use Rattle.dv_change.specs.Raised.{raised};
ghost use Rattle.dv_change.specs.Inner.Told.{change_to, no_lists, told_along};
ghost use Rattle.dv_flow.specs.Inner.Limiting.{HoldsLimit, IsBehind, IsCut, IsOverfull, IsUnderfull, IsWithinLimit, at_either, edge_of, is_past, last_place, limit_changes, limit_empty, limit_even, limit_front, limit_ordered, limit_rows, next_place, positioned_held, with_limited_row};
ghost use Rattle.dv_flow.specs.Placed.{front_at};

use dv_change::{Input, Operator, Ordered, Pos, Taken, Ticks, hand_over};
use dv_value::{Document, NoMemory};
use std::alloc::Global;
use std::collections::BTreeMap;

/// The first rows. Keeps all rows, and for a change reads the changed row and the rows on both sides of the end.
#[derive(Drop)]
pub struct LimitOperator {
    alloc: Global,
    count: u64,
    /// The rows that are shown: the first ones.
    front: BTreeMap<Pos, Document>,
    /// The rows after them.
    rest: BTreeMap<Pos, Document>,
}

impl LimitOperator {
    /// The first `count` rows; it has taken in nothing.
    pub fn new(alloc: Global, count: u64) -> Self
        ensures count { result.count ≡ count }
        ensures sound { IsCut result }
        ensures holds { HoldsLimit result [] [] }
    {
        LimitOperator {
            alloc,
            count,
            front: BTreeMap::new(alloc),
            rest: BTreeMap::new(alloc),
        }
    }

    /// Takes in which row is at the position from now on, if any, and appends the changes of the first rows to `out`.
    fn take_row(
        &mut self,
        pos: Pos,
        row: Option<Document>,
        ticks: &mut Ticks,
        out: &mut Vec<Taken>,
    ) -> Result<(), NoMemory>
        requires { IsCut self.old }
        ensures sound { OnOk result (IsCut self.new) }
        ensures count { OnOk result (self.new.count ≡ self.old.count) }
        ensures left { OnOk result (limit_rows self.new ≡ with_change (limit_rows self.old) (change_to pos row)) }
        ensures out { OnOk result (out.new.items ≡ out.old.items ++ told_along (limit_front self.old) (limit_changes self.old pos row)) }
        ensures ticks { OnOk result (ticks.new ≡ raised ticks.old (1 + length (limit_changes self.old pos row))) }
        ensures begins { OnErr result (BeginsWith out.new.items out.old.items) }
        ensures no_fewer { OnErr result (ticks.old ≤ ticks.new) }
    {
        pos.law_exact();
        if self.is_behind(&pos) {
            // Nothing that is shown changes.
            self.change_rest(pos, row)?;
            ticks.add(1);
            return Ok(());
        }
        let edge = self.edge_of(&row)?;
        let old = self.shown_at(&pos, &edge)?;
        self.change_front(&pos, row)?;
        let new = self.shown_at(&pos, &edge)?;
        hand_over(&old, &new, ticks, out)
    }

    /// Takes in which row is at the position from now on, if any. The position is after those of the first rows.
    fn change_rest(&mut self, pos: Pos, row: Option<Document>) -> Result<(), NoMemory>
        ensures count { self.new.count ≡ self.old.count }
        ensures front { self.new.front ≡ self.old.front }
        ensures rest { OnOk result (self.new.rest.entries ≡ with_change self.old.rest.entries (change_to pos row)) }
    {
        match row {
            Some(row) => {
                self.rest.insert(pos, row)?;
                Ok(())
            }
            None => {
                self.rest.remove(&pos);
                Ok(())
            }
        }
    }

    /// The other position at which the shown rows may change when the row is inserted, or, if there is none, when one is removed.
    fn edge_of(&self, row: &Option<Document>) -> Result<Option<Pos>, NoMemory>
        requires { IsCut self.now }
        ensures { IfOk result (λ edge. edge ≡ edge_of self.now.count row.now (limit_rows self.now)) }
    {
        match row {
            Some(_) => self.last_place(),
            None => self.next_place(),
        }
    }

    /// The position of the last row that is shown, if no more rows may be shown.
    fn last_place(&self) -> Result<Option<Pos>, NoMemory>
        requires { IsCut self.now }
        ensures { IfOk result (λ place. place ≡ last_place self.now.count (limit_rows self.now)) }
    {
        if (self.front.len() as u64) < self.count {
            return Ok(None);
        }
        match self.front.last_key_value() {
            Some((pos, _)) => Ok(Some(pos.try_clone()?)),
            None => Ok(None),
        }
    }

    /// The position of the first row after those that are shown.
    fn next_place(&self) -> Result<Option<Pos>, NoMemory>
        requires { IsCut self.now }
        ensures { IfOk result (λ place. place ≡ next_place self.now.count (limit_rows self.now)) }
    {
        match self.rest.first_key_value() {
            Some((pos, _)) => Ok(Some(pos.try_clone()?)),
            None => Ok(None),
        }
    }

    /// The rows that are shown at the two positions.
    fn shown_at(&self, pos: &Pos, edge: &Option<Pos>) -> Result<Ordered<Document>, NoMemory>
        ensures { IfOk result (λ rows. rows ≡ at_either pos.now edge.now self.now.front.entries) }
    {
        let rows = self.with_shown(Ordered::new(self.alloc), pos)?;
        match edge {
            Some(edge) => self.with_shown(rows, edge),
            None => Ok(rows),
        }
    }

    /// The rows with the row that is shown at the position, if there is one.
    fn with_shown(&self, rows: Ordered<Document>, pos: &Pos) -> Result<Ordered<Document>, NoMemory>
        ensures { IfOk result (λ more. more ≡ with_limited_row pos.now (at pos.now self.now.front.entries) rows) }
    {
        match self.front.get(pos) {
            Some(row) => rows.with(pos.try_clone()?, row.try_clone()?),
            None => Ok(rows),
        }
    }

    /// Takes in which row is at the position from now on, if any. A row at this position is one of the first.
    fn change_front(&mut self, pos: &Pos, row: Option<Document>) -> Result<(), NoMemory>
        requires sound { IsCut self.old }
        requires within { IsWithinLimit self.old pos.now }
        ensures sound { OnOk result (IsCut self.new) }
        ensures count { OnOk result (self.new.count ≡ self.old.count) }
        ensures left { OnOk result (limit_rows self.new ≡ with_change (limit_rows self.old) (change_to pos.now row)) }
    {
        match row {
            Some(row) => self.put(pos.try_clone()?, row),
            None => self.remove(pos),
        }
    }

    /// Sets the row at the position, where it is one of the first.
    fn put(&mut self, pos: Pos, row: Document) -> Result<(), NoMemory>
        requires sound { IsCut self.old }
        requires within { IsWithinLimit self.old pos }
        ensures sound { OnOk result (IsCut self.new) }
        ensures count { OnOk result (self.new.count ≡ self.old.count) }
        ensures left { OnOk result (limit_rows self.new ≡ put pos row (limit_rows self.old)) }
    {
        pos.law_exact();
        self.front.insert(pos, row)?;
        self.spill()
    }

    /// Whether a row at the position would not be one of the first.
    fn is_behind(&self, pos: &Pos) -> bool
        ensures behind { IsTrue result → IsBehind self.now pos.now }
        ensures within { result ≡ false → IsWithinLimit self.now pos.now }
    {
        self.front.len() as u64 >= self.count && self.is_past(pos)
    }

    /// Whether the position is after those of all rows that are shown.
    fn is_past(&self, pos: &Pos) -> bool
        ensures { result ≡ is_past pos.now self.now.front.entries }
    {
        match self.front.last_key_value() {
            Some((last, _)) => pos.cmp(last).is_gt(),
            None => true,
        }
    }

    /// Stops showing the last row, if one too many is shown.
    fn spill(&mut self) -> Result<(), NoMemory>
        requires { IsOverfull self.old }
        ensures sound { OnOk result (IsCut self.new) }
        ensures count { OnOk result (self.new.count ≡ self.old.count) }
        ensures left { OnOk result (limit_rows self.new ≡ limit_rows self.old) }
    {
        if self.front.len() as u64 > self.count {
            if let Some((pos, row)) = self.front.pop_last() {
                self.rest.insert(pos, row)?;
            }
        }
        Ok(())
    }

    /// Removes the row at the position, if there is one.
    fn remove(&mut self, pos: &Pos) -> Result<(), NoMemory>
        requires { IsCut self.old }
        ensures sound { OnOk result (IsCut self.new) }
        ensures count { OnOk result (self.new.count ≡ self.old.count) }
        ensures left { OnOk result (limit_rows self.new ≡ gone pos.now (limit_rows self.old)) }
    {
        if self.front.remove(pos).is_some() {
            self.pull()
        } else {
            self.rest.remove(pos);
            Ok(())
        }
    }

    /// Shows one row more, if there are others.
    fn pull(&mut self) -> Result<(), NoMemory>
        requires { IsUnderfull self.old }
        ensures sound { OnOk result (IsCut self.new) }
        ensures count { OnOk result (self.new.count ≡ self.old.count) }
        ensures left { OnOk result (limit_rows self.new ≡ limit_rows self.old) }
    {
        if let Some((pos, row)) = self.rest.pop_first() {
            self.front.insert(pos, row)?;
        }
        Ok(())
    }
}

impl Operator for LimitOperator {
    ghost makes = { λ o others rows. front_at o.count rows };

    ghost sound = { IsCut };

    ghost holds = { HoldsLimit };

    ghost positioned = { λ o others left held. (positioned_held o others left held, no_lists others held.none) };

    ghost ordered = { λ o others rows are. limit_ordered o.count rows are };

    ghost even = { λ o others rows are one. limit_even o.count rows one };

    ghost empty = { λ o others. limit_empty o.count };

    fn named(&self) -> usize {
        0
    }

    fn take(
        &mut self,
        input: Input,
        taken: Taken,
        ticks: &mut Ticks,
        out: &mut Vec<Taken>,
    ) -> Result<(), NoMemory> {
        match input {
            Input::Left => {
                let Taken { pos, new, .. } = taken;
                self.take_row(pos, new, ticks, out)
            }
            Input::Named(_) => Ok(()),
        }
    }
}
