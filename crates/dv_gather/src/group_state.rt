//! What a group holds.

ghost use Rattle.std.specs.Prelude.{◌≡◌, ℕ, suc, map, IfOk, OnOk};
ghost use Rattle.dv_value.specs.View.{tree};
ghost use Rattle.dv_row.specs.RowValueView.{row_value};
ghost use Rattle.dv_gather.specs.Inner.SumBounds.{AreWithin, most};
ghost use Rattle.dv_gather.specs.Inner.GroupView.{accumulation};
ghost use Rattle.dv_gather.specs.Inner.GroupStates as defined;
ghost use Rattle.dv_gather.specs.Inner.StateView.{keys_seen, group_state_seen, state_seen};

use crate::accumulator_state::{AccumulatorState, add_at};
use crate::group::GroupField;
use crate::group_rows::row_of_values;
use dv_row::RowValue;
use dv_value::{Document, NoMemory, Value};
use std::alloc::Global;

/// What a group holds: its key, and the state of the accumulator of each field, in its order.
#[derive(Debug, Drop)]
pub(crate) struct GroupState {
    /// The key in the encoding of the first row, if there was a row.
    key: Option<Value>,
    states: Vec<AccumulatorState>,
}

impl GroupState {
    /// A group of no rows. Takes no memory.
    pub(crate) fn new(alloc: Global) -> Self
        ensures { group_state_seen result ≡ defined.without_rows }
    {
        GroupState {
            key: None,
            states: Vec::new(alloc),
        }
    }

    /// Adds a row of the group, which has this key. Fails when memory runs out.
    pub(crate) fn add(
        &mut self,
        alloc: Global,
        key: RowValue<'_>,
        fields: &[GroupField],
        row: &Document,
    ) -> Result<(), NoMemory>
        requires { AreWithin 0 most (group_state_seen self.old).1 }
        ensures state { OnOk result (group_state_seen self.new ≡ defined.group_with_keyed_row (map accumulation fields.now) (row_value key.entry) row.now (group_state_seen self.old)) }
        ensures within { OnOk result ((count : ℕ) → AreWithin 0 count (group_state_seen self.old).1 → AreWithin 0 (suc count) (group_state_seen self.new).1) }
    {
        self.start(alloc, key, fields)?;
        self.add_values(alloc, fields, row)
    }

    /// Begins with the key and the states over no rows, if there was no row yet.
    fn start(
        &mut self,
        alloc: Global,
        key: RowValue<'_>,
        fields: &[GroupField],
    ) -> Result<(), NoMemory>
        ensures { OnOk result (group_state_seen self.new ≡ defined.started (map accumulation fields.now) (row_value key.entry) (group_state_seen self.old)) }
    {
        if self.key.is_some() {
            return Ok(());
        }
        self.states = states_of_none(alloc, fields)?;
        self.key = Some(key.into_value()?);
        Ok(())
    }

    /// Adds the row's values to the states.
    fn add_values(
        &mut self,
        alloc: Global,
        fields: &[GroupField],
        row: &Document,
    ) -> Result<(), NoMemory>
        requires { AreWithin 0 most (group_state_seen self.old).1 }
        ensures state { OnOk result (group_state_seen self.new ≡ defined.with_row_values (map accumulation fields.now) row.now (group_state_seen self.old)) }
        ensures within { OnOk result ((count : ℕ) → AreWithin 0 count (group_state_seen self.old).1 → AreWithin 0 (suc count) (group_state_seen self.new).1) }
    {
        add_each(alloc, &mut self.states, fields, row)
    }

    /// The group's row. It shares names with the row of another group, if there is one. Fails when memory runs out.
    pub(crate) fn row(
        self,
        alloc: Global,
        fields: &[GroupField],
        another: Option<&Document>,
    ) -> Result<Document, NoMemory>
        ensures { IfOk result (λ row. row ≡ defined.row_of_state (map accumulation fields.now) (group_state_seen self)) }
    {
        let values = self.values(alloc)?;
        row_of_values(alloc, fields, values, another)
    }

    /// The key, and the values of the states. Fails when memory runs out.
    fn values(self, alloc: Global) -> Result<Vec<Value>, NoMemory>
        ensures { IfOk result (λ values. map tree values.items ≡ defined.row_values (group_state_seen self)) }
    {
        let GroupState { key, states } = self;
        let mut values = Vec::with_capacity(alloc, states.len().saturating_add(1))?;
        values.push(key_or_null(key))?;
        'states: for state in states {
            values.push(state.value(alloc)?)?;
        }
        Ok(values)
    }
}

/// Adds a row's values to the states of the fields. Fails when memory runs out.
fn add_each(
    alloc: Global,
    states: &mut Vec<AccumulatorState>,
    fields: &[GroupField],
    row: &Document,
) -> Result<(), NoMemory>
    requires { AreWithin 0 most (map state_seen states.old.items) }
    ensures states { OnOk result (map state_seen states.new.items ≡ defined.with_values (map accumulation fields.now) row.now (map state_seen states.old.items)) }
    ensures within { OnOk result ((count : ℕ) → AreWithin 0 count (map state_seen states.old.items) → AreWithin 0 (suc count) (map state_seen states.new.items)) }
{
    'fields: for (place, field) in fields.iter().enumerate() {
        if let Some(value) = field.expr.value_in(alloc, row)? {
            add_at(states, place, value)?;
        }
    }
    Ok(())
}

/// The key of a group, or null if there was no row.
fn key_or_null(key: Option<Value>) -> Value
    ensures { tree result ≡ defined.key_or_null (keys_seen key) }
{
    match key {
        Some(key) => key,
        None => Value::Null,
    }
}

/// The states of the fields over no rows. Fails when memory runs out.
fn states_of_none(alloc: Global, fields: &[GroupField]) -> Result<Vec<AccumulatorState>, NoMemory>
    ensures { IfOk result (λ states. map state_seen states.items ≡ defined.states_of_none (map accumulation fields.now)) }
{
    let mut states = Vec::with_capacity(alloc, fields.len())?;
    'fields: for field in fields {
        states.push(AccumulatorState::of_none(alloc, field.accumulator))?;
    }
    Ok(states)
}
