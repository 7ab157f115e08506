//! The operator for `$group`.

ghost use Rattle.std.specs.Prelude.{◌≡◌, ◌≤◌, ◌+◌, ◌++◌, [], length, IfOk, OnErr, OnOk, Some};
ghost use Rattle.dv_change.specs.Inner.Beginning.{BeginsWith};
ghost use Rattle.dv_change.specs.Changes.{forget};
ghost use Rattle.dv_change.specs.Inner.Changes.{IsPositioned};
ghost use Rattle.dv_change.specs.Raised.{raised};
ghost use Rattle.dv_change.specs.Inner.Told.{diff_told, no_lists};
ghost use Rattle.dv_gather.specs.Grouping.{row_shown};
ghost use Rattle.dv_group.specs.Inner.Grouped.{group_empty, group_even, group_ordered};
ghost use Rattle.dv_group.specs.Inner.Held.{HoldsGroups};
ghost use Rattle.dv_group.specs.Inner.Members as defined;
ghost use Rattle.dv_group.specs.Inner.Members.{AreLiveGroups, AreGroupRows, FollowTaken, changes_shown, group_members, rows_after, rows_before};
ghost use Rattle.dv_group.specs.Placed.{grouped_at};

use crate::groups::{Groups, follow, follow_all};
use crate::transition::{RowsWanted, Transitions, first_row, with_row};
use dv_change::{Input, Operator, Ordered, Taken, Ticks, hand_over};
use dv_gather::Group;
use dv_order::Key;
use dv_value::{Document, NoMemory};
use std::alloc::Global;
use std::collections::BTreeMap;

/// The groups of rows, each a row at its key, updated by changes that come with the row that was at their position. For a change it
/// reads only the groups of the changed row, and of these the row that is added or removed, the first one and the one with the
/// least or greatest value; with a `$push`, it copies the array that it returns.
#[derive(Drop)]
pub struct GroupOperator {
    alloc: Global,
    group: Group,
    groups: Groups,
    /// The row of a group, with which later rows share names.
    last: Option<Document>,
}

impl GroupOperator {
    /// The stage, which has taken in nothing. Fails with `NoMemory` when memory runs out.
    pub fn new(alloc: Global, group: &Group) -> Result<Self, NoMemory>
        ensures group { IfOk result (λ o. o.group ≡ group.now) }
        ensures sound { IfOk result (λ o. AreLiveGroups o.group o.groups.entries) }
        ensures holds { IfOk result (λ o. HoldsGroups o [] []) }
    {
        Ok(GroupOperator {
            alloc,
            group: group.try_clone()?,
            groups: BTreeMap::new(alloc),
            last: None,
        })
    }

    /// Takes in a change of its rows, and appends the changes of the groups' rows to `out`.
    fn regroup(
        &mut self,
        taken: Taken,
        ticks: &mut Ticks,
        out: &mut Vec<Taken>,
    ) -> Result<(), NoMemory>
        requires { AreLiveGroups self.old.group self.old.groups.entries }
        ensures group { OnOk result (self.new.group ≡ self.old.group) }
        ensures groups { OnOk result (FollowTaken self.old.group taken self.old.groups.entries self.new.groups.entries) }
        ensures sound { OnOk result (AreLiveGroups self.new.group self.new.groups.entries) }
        ensures out { OnOk result (out.new.items ≡ out.old.items ++ changes_shown self.old.group self.old.groups.entries self.new.groups.entries taken) }
        ensures ticks { OnOk result (ticks.new ≡ raised ticks.old (1 + length (changes_shown self.old.group self.old.groups.entries self.new.groups.entries taken))) }
        ensures begins { OnErr result (BeginsWith out.new.items out.old.items) }
        ensures no_fewer { OnErr result (ticks.old ≤ ticks.new) }
    {
        let transitions = follow(
            self.alloc,
            &self.group,
            &mut self.groups,
            taken,
            RowsWanted::Wanted(self.last.as_ref()),
        )?;
        self.tell(&transitions, ticks, out)
    }

    /// Appends to `out` the changes from the rows before to the rows after.
    fn tell(
        &mut self,
        transitions: &Transitions,
        ticks: &mut Ticks,
        out: &mut Vec<Taken>,
    ) -> Result<(), NoMemory>
        ensures group { self.new.group ≡ self.old.group }
        ensures groups { self.new.groups.entries ≡ self.old.groups.entries }
        ensures out { OnOk result (out.new.items ≡ out.old.items ++ diff_told (rows_before transitions.now) (rows_after transitions.now)) }
        ensures ticks { OnOk result (ticks.new ≡ raised ticks.old (1 + length (diff_told (rows_before transitions.now) (rows_after transitions.now)))) }
        ensures begins { OnErr result (BeginsWith out.new.items out.old.items) }
        ensures no_fewer { OnErr result (ticks.old ≤ ticks.new) }
    {
        self.keep_last(transitions.row_after())?;
        transitions.tell(ticks, out)
    }

    /// The rows of all groups.
    fn all_shown(&self) -> Result<Ordered<Document>, NoMemory>
        requires { AreLiveGroups self.now.group self.now.groups.entries }
        ensures positioned { IfOk result (λ rows. IsPositioned rows) }
        ensures rows { IfOk result (λ rows. AreGroupRows self.now.group self.now.groups.entries rows) }
    {
        let mut rows = Ordered::new(self.alloc);
        'groups: for (key, _) in &self.groups {
            key.law_own();
            rows = self.with_group(rows, key)?;
        }
        Ok(rows)
    }

    /// The rows, with the row of the group of the key.
    fn with_group(&self, rows: Ordered<Document>, key: &Key) -> Result<Ordered<Document>, NoMemory>
        requires { AreLiveGroups self.now.group self.now.groups.entries }
        ensures { IfOk result (λ more. more ≡ defined.with_shown self.now.group (λ k. group_members k self.now.groups.entries) (Some key.now) rows) }
    {
        let row = self.row_of(key, self.lender(&rows))?;
        with_row(self.alloc, rows, key, row)
    }

    /// The row of the group of the key, if it has rows. It may share names with the row `before`.
    fn row_of(&self, key: &Key, before: Option<&Document>) -> Result<Option<Document>, NoMemory>
        requires { AreLiveGroups self.now.group self.now.groups.entries }
        ensures { IfOk result (λ row. row ≡ row_shown self.now.group (forget (group_members key.now self.now.groups.entries))) }
    {
        match self.groups.get(key) {
            Some(live) => live.shown(self.alloc, &self.group, before),
            None => Ok(None),
        }
    }

    /// A row with which another may share names: the first of these, or the one that is kept for this.
    fn lender<'a>(&'a self, rows: &'a Ordered<Document>) -> Option<&'a Document> {
        match first_row(rows) {
            Some(first) => Some(first),
            None => self.last.as_ref(),
        }
    }

    /// Keeps the row, if there is one, so that later rows can share its names.
    fn keep_last(&mut self, row: Option<&Document>) -> Result<(), NoMemory>
        ensures groups { self.new.groups.entries ≡ self.old.groups.entries }
        ensures group { self.new.group ≡ self.old.group }
    {
        if let Some(row) = row {
            self.last = Some(row.try_clone()?);
        }
        Ok(())
    }
}

impl Operator for GroupOperator {
    ghost makes = { λ o others rows. grouped_at o.group rows };

    ghost sound = { λ o. AreLiveGroups o.group o.groups.entries };

    ghost holds = { HoldsGroups };

    ghost positioned = { λ o others left held. (held.positioned, no_lists others held.none) };

    ghost ordered = { λ o others rows are. group_ordered o.group rows are };

    ghost even = { λ o others rows are one. group_even o.group rows are one };

    ghost empty = { λ o others. group_empty o.group };

    fn named(&self) -> usize {
        0
    }

    fn take(
        &mut self,
        input: Input,
        taken: Taken,
        ticks: &mut Ticks,
        out: &mut Vec<Taken>,
    ) -> Result<(), NoMemory> {
        match input {
            Input::Left => self.regroup(taken, ticks, out),
            Input::Named(_) => Ok(()),
        }
    }

    fn is_filled_at_once(&self) -> bool {
        true
    }

    /// Computes the row of each group once.
    fn fill(&mut self, all: Vec<Taken>) -> Result<Vec<Taken>, NoMemory> {
        follow_all(self.alloc, &self.group, &mut self.groups, all)?;
        let rows = self.all_shown()?;
        self.keep_last(first_row(&rows))?;
        puts_of(self.alloc, &rows)
    }
}

/// The changes that insert these rows where there were none. Fails when memory runs out.
fn puts_of(alloc: Global, rows: &Ordered<Document>) -> Result<Vec<Taken>, NoMemory>
    ensures { IfOk result (λ puts. puts.items ≡ diff_told [] rows.now) }
{
    let none = Ordered::new(alloc);
    let mut ticks = Ticks::new();
    let mut puts = Vec::new(alloc);
    hand_over(&none, rows, &mut ticks, &mut puts)?;
    Ok(puts)
}
