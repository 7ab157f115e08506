//! What a group holds.

ghost use Rattle.std.specs.Prelude.{◌≡◌, ◌≤◌, ◌↔◌, [], ◌∷◌, IfOk, IfSome, IsTrue, OnOk, drop, length, map};
ghost use Rattle.dv_value.specs.View.{tree};
ghost use Rattle.dv_change.specs.Changes.{at, forget};
ghost use Rattle.dv_gather.specs.Inner.GroupView.{accumulation};
ghost use Rattle.dv_gather.specs.Grouping.{row_shown};
ghost use Rattle.dv_group.specs.Inner.Members.{set_at};
ghost use Rattle.dv_group.specs.Inner.SumBounds.{AreSummableIn, HaveRoom, IsGroupState, most_rows};
ghost use Rattle.dv_group.specs.Inner.AccumulatorStates.{state_over, state_values, states_after_at, states_after_from, states_after_some};
ghost use Rattle.dv_group.specs.Inner.StateView.{state_seen};

use crate::accumulator_state::{AccumulatorState, RowChange};
use dv_change::{Ordered, Pos};
use dv_gather::{Group, GroupField, row_of_values};
use dv_value::{Document, NoMemory, Value};
use std::alloc::Global;
use std::mem::replace;

/// What a group holds: its rows by their positions, and the state of the accumulator of each field.
#[derive(Drop)]
pub(crate) struct GroupState {
    members: Ordered<Document>,
    /// One for each field of the group, in its order.
    states: Vec<AccumulatorState>,
}

impl GroupState {
    /// A group of no rows. Fails when memory runs out.
    pub(crate) fn new(alloc: Global, group: &Group) -> Result<Self, NoMemory>
        ensures rows { IfOk result (λ state. state.members ≡ []) }
        ensures sound { IfOk result (λ state. IsGroupState group.now.fields state) }
    {
        Ok(GroupState {
            members: Ordered::new(alloc),
            states: states_of_none(alloc, group.fields())?,
        })
    }

    /// Whether it has no rows.
    pub(crate) fn is_empty(&self) -> bool
        ensures { IsTrue result ↔ (self.now.members ≡ []) }
    {
        self.members.is_empty()
    }

    /// Sets the row at the position, or removes the row that is there. Fails when memory runs out; then the state may only be
    /// dropped.
    pub(crate) fn set(
        &mut self,
        alloc: Global,
        group: &Group,
        pos: Pos,
        row: Option<Document>,
    ) -> Result<(), NoMemory>
        requires { IsGroupState group.now.fields self.old }
        ensures rows { OnOk result (self.new.members ≡ set_at pos row self.old.members) }
        ensures sound { OnOk result (IsGroupState group.now.fields self.new) }
    {
        pos.law_exact();
        // No sum of so many numbers is beyond 128 bits.
        law_few(&self.members);
        let old = exchange(alloc, &mut self.members, &pos, &row)?;
        let states = &mut self.states;
        apply_some(alloc, states, group, RowChange::Removed, &pos, &old)?;
        apply_some(alloc, states, group, RowChange::Added, &pos, &row)
    }

    /// The group's row, if it has rows. It may share names with the row `before`, if there is one. Fails when memory runs out.
    pub(crate) fn row(
        &self,
        alloc: Global,
        group: &Group,
        before: Option<&Document>,
    ) -> Result<Option<Document>, NoMemory>
        requires { IsGroupState group.now.fields self.now }
        ensures { IfOk result (λ row. row ≡ row_shown group.now (forget self.now.members)) }
    {
        let Some((_, first)) = self.members.first() else {
            return Ok(None);
        };
        let key = group.key_in(alloc, first)?.into_value()?;
        let fields = group.fields();
        let values = self.values(alloc, fields, key)?;
        let row = row_of_values(alloc, fields, values, before)?;
        Ok(Some(row))
    }

    /// The key, and the values of the states. Fails when memory runs out.
    fn values(
        &self,
        alloc: Global,
        fields: &[GroupField],
        key: Value,
    ) -> Result<Vec<Value>, NoMemory>
        ensures { IfOk result (λ values. map tree values.items ≡ tree key ∷ state_values (map accumulation fields.now) (map state_seen self.now.states.items)) }
    {
        let mut values = Vec::with_capacity(alloc, fields.len().saturating_add(1))?;
        values.push(key)?;
        'fields: for (field, state) in fields.iter().zip(&self.states) {
            values.push(state.value(alloc, field)?)?;
        }
        Ok(values)
    }
}

/// The states of the fields over no rows. Fails when memory runs out.
fn states_of_none(alloc: Global, fields: &[GroupField]) -> Result<Vec<AccumulatorState>, NoMemory>
    ensures { IfOk result (λ states. map state_seen states.items ≡ map (λ a. state_over a []) (map accumulation fields.now)) }
{
    let mut states = Vec::with_capacity(alloc, fields.len())?;
    'fields: for field in fields {
        states.push(AccumulatorState::of_none(alloc, field.accumulator))?;
    }
    Ok(states)
}

/// Sets the row at the position, or removes the row that is there. Returns the row that was there. Fails when memory runs out;
/// then all rows are dropped.
fn exchange(
    alloc: Global,
    rows: &mut Ordered<Document>,
    pos: &Pos,
    row: &Option<Document>,
) -> Result<Option<Document>, NoMemory>
    ensures rows { OnOk result (rows.new ≡ set_at pos.now row.now rows.old) }
    ensures stood { IfOk result (λ old. old ≡ at pos.now rows.old) }
{
    let was = replace(rows, Ordered::new(alloc));
    let (now, old) = with_set(was, pos, row)?;
    *rows = now;
    Ok(old)
}

/// The rows, with this one at the position, or with none there; and the row that was there, if any. Fails when memory runs out.
fn with_set(
    rows: Ordered<Document>,
    pos: &Pos,
    row: &Option<Document>,
) -> Result<(Ordered<Document>, Option<Document>), NoMemory>
    ensures rows { IfOk result (λ both. both.0 ≡ set_at pos.now row.now rows) }
    ensures stood { IfOk result (λ both. both.1 ≡ at pos.now rows) }
{
    match row {
        Some(row) => rows.exchange(pos.try_clone()?, row.try_clone()?),
        None => Ok(rows.take_out(pos)),
    }
}

/// There are no more rows than memory can hold. Does nothing.
fn law_few(members: &Ordered<Document>)
    ensures { length members.now ≤ most_rows }
{
    let _count = members.len();
}

/// Adds the row at the position to the states of the group's fields, or removes it, if there is one. Fails when memory runs out.
fn apply_some(
    alloc: Global,
    states: &mut Vec<AccumulatorState>,
    group: &Group,
    change: RowChange,
    pos: &Pos,
    row: &Option<Document>,
) -> Result<(), NoMemory>
    requires { IfSome row.now (λ d. HaveRoom change group.now.fields pos.now d (map state_seen states.old.items)) }
    ensures states { OnOk result (map state_seen states.new.items ≡ states_after_some change pos.now row.now group.now.fields (map state_seen states.old.items)) }
    ensures summable { OnOk result (IfSome row.now (λ d. AreSummableIn (map state_seen states.old.items) group.now.fields d)) }
{
    match row {
        Some(row) => apply_each(alloc, states, group.fields(), change, pos, row),
        None => Ok(()),
    }
}

/// Adds the row at the position to the states of the fields, or removes it. Fails when memory runs out.
fn apply_each(
    alloc: Global,
    states: &mut Vec<AccumulatorState>,
    fields: &[GroupField],
    change: RowChange,
    pos: &Pos,
    row: &Document,
) -> Result<(), NoMemory>
    requires { HaveRoom change (map accumulation fields.now) pos.now row.now (map state_seen states.old.items) }
    ensures states { OnOk result (map state_seen states.new.items ≡ states_after_from change pos.now row.now 0 (map accumulation fields.now) (map state_seen states.old.items)) }
    ensures summable { OnOk result (AreSummableIn (map state_seen states.old.items) (map accumulation fields.now) row.now) }
{
    'fields: for (place, field) in fields.iter().enumerate() {
        apply_at(alloc, states, place, field, change, pos, row)?;
    }
    Ok(())
}

/// The same for the state at a place, if there is one.
fn apply_at(
    alloc: Global,
    states: &mut [AccumulatorState],
    place: usize,
    field: &GroupField,
    change: RowChange,
    pos: &Pos,
    row: &Document,
) -> Result<(), NoMemory>
    requires { HaveRoom change (accumulation field.now ∷ []) pos.now row.now (drop place (map state_seen states.old)) }
    ensures states { OnOk result (map state_seen states.new ≡ states_after_at change pos.now row.now place (accumulation field.now) (map state_seen states.old)) }
    ensures summable { OnOk result (AreSummableIn (drop place (map state_seen states.old)) (accumulation field.now ∷ []) row.now) }
{
    if place < states.len() {
        states[place].apply(alloc, field, change, pos, row)?;
    }
    Ok(())
}
