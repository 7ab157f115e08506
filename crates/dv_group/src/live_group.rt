//! Groups that are updated by changes.

ghost use Rattle.std.specs.Prelude.{◌≡◌, ◌↔◌, [], IfOk, IsTrue, None, OnOk};
ghost use Rattle.dv_change.specs.Changes.{forget};
ghost use Rattle.dv_gather.specs.Grouping.{row_shown};
ghost use Rattle.dv_group.specs.Inner.Members.{IsLiveGroup, IsTransition, IsShownIfWanted, set_at};

use crate::group_state::GroupState;
use crate::transition::{RowsWanted, Transition};
use dv_change::Pos;
use dv_gather::Group;
use dv_value::{Document, NoMemory};
use std::alloc::Global;

/// A group that is updated by changes: what it holds, and its row.
#[derive(Drop)]
pub(crate) struct LiveGroup {
    state: GroupState,
    /// The group's row, if it was computed since its rows last changed.
    row: Option<Document>,
}

impl LiveGroup {
    /// A group whose row isn't computed yet.
    pub(crate) fn of(state: GroupState) -> Self
        ensures state { result.state ≡ state }
        ensures row { result.row ≡ None }
    {
        LiveGroup { state, row: None }
    }

    /// Whether it has no rows.
    pub(crate) fn is_empty(&self) -> bool
        ensures { IsTrue result ↔ (self.now.state.members ≡ []) }
    {
        self.state.is_empty()
    }

    /// Sets the row at the position, or removes the row that is there. Returns the group's row before and after that, if it is
    /// wanted. Fails when memory runs out; then the group may only be dropped.
    pub(crate) fn set(
        &mut self,
        alloc: Global,
        group: &Group,
        pos: Pos,
        row: Option<Document>,
        wish: RowsWanted<'_>,
    ) -> Result<Transition, NoMemory>
        requires { IsLiveGroup group.now self.old }
        ensures rows { OnOk result (self.new.state.members ≡ set_at pos row self.old.state.members) }
        ensures sound { OnOk result (IsLiveGroup group.now self.new) }
        ensures shown { IfOk result (λ transition. IsTransition wish.entry group.now self.old.state.members self.new.state.members transition) }
    {
        let before = self.shown_if_wanted(alloc, group, wish)?;
        self.state.set(alloc, group, pos, row)?;
        self.row = None;
        let after = self.settle(alloc, group, wish.beside(&before))?;
        Ok(Transition { before, after })
    }

    /// Keeps and returns the group's row, if it is wanted. Fails when memory runs out.
    fn settle(
        &mut self,
        alloc: Global,
        group: &Group,
        wish: RowsWanted<'_>,
    ) -> Result<Option<Document>, NoMemory>
        requires { IsLiveGroup group.now self.old }
        ensures state { self.new.state ≡ self.old.state }
        ensures sound { OnOk result (IsLiveGroup group.now self.new) }
        ensures shown { IfOk result (λ row. IsShownIfWanted wish.entry group.now self.new.state.members row) }
    {
        let row = self.shown_if_wanted(alloc, group, wish)?;
        let copy = copy_of(&row)?;
        self.row = copy;
        Ok(row)
    }

    /// The group's row, if it is wanted. Fails when memory runs out.
    pub(crate) fn shown_if_wanted(
        &self,
        alloc: Global,
        group: &Group,
        wish: RowsWanted<'_>,
    ) -> Result<Option<Document>, NoMemory>
        requires { IsLiveGroup group.now self.now }
        ensures { IfOk result (λ row. IsShownIfWanted wish.entry group.now self.now.state.members row) }
    {
        match wish {
            RowsWanted::Unwanted => Ok(None),
            RowsWanted::Wanted(lender) => self.shown(alloc, group, lender),
        }
    }

    /// The group's row, if it has rows. A row that was already computed is shared; a new one may share names with the row `before`.
    /// Fails when memory runs out.
    pub(crate) fn shown(
        &self,
        alloc: Global,
        group: &Group,
        before: Option<&Document>,
    ) -> Result<Option<Document>, NoMemory>
        requires { IsLiveGroup group.now self.now }
        ensures { IfOk result (λ row. row ≡ row_shown group.now (forget self.now.state.members)) }
    {
        match &self.row {
            Some(row) => Ok(Some(row.try_clone()?)),
            None => self.state.row(alloc, group, before),
        }
    }
}

/// A copy of the row, if there is one. Fails when memory runs out.
fn copy_of(row: &Option<Document>) -> Result<Option<Document>, NoMemory>
    ensures { IfOk result (λ copy. copy ≡ row.now) }
{
    match row {
        Some(row) => Ok(Some(row.try_clone()?)),
        None => Ok(None),
    }
}
