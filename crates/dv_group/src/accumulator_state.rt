//! What a group holds for one accumulator, as rows are added and removed.

ghost use Rattle.std.specs.Prelude.{◌≡◌, [], ◌∷◌, IfOk, OnOk, map};
ghost use Rattle.dv_value.specs.Tree.{array, elements_of};
ghost use Rattle.dv_value.specs.View.{tree};
ghost use Rattle.dv_gather.specs.Inner.GroupView.{accumulation};
ghost use Rattle.dv_gather.specs.Grouping.{Accumulation};
ghost use Rattle.dv_group.specs.Inner.SumBounds.{HasRoomFor, IsSummableIn};
ghost use Rattle.dv_group.specs.Inner.AccumulatorStates as defined;
ghost use Rattle.dv_group.specs.Inner.AccumulatorStates.{value_of_first, state_after, rank, state_by, state_value, values_in};
ghost use Rattle.dv_group.specs.Inner.StateView.{state_seen, values_seen};

use crate::sum_state::SumState;
use dv_change::{Ordered, Part, Pos};
use dv_gather::{Accumulator, GroupField};
use dv_order::key_of;
use dv_value::{Document, List, NoMemory, Value};
use std::alloc::Global;
use std::mem::replace;

/// Whether a row is added to a group or removed from it.
#[derive(Clone, Copy, Debug)]
pub(crate) enum RowChange {
    /// It is added.
    Added,
    /// It is removed.
    Removed,
}

/// What a group holds for one accumulator, over the values of its rows.
#[derive(Drop)]
pub(crate) enum AccumulatorState {
    /// For `$sum`: the sum of the numbers among them.
    Sum(SumState),
    /// For `$min` and `$max`: the rows with a value that isn't null, ordered by the value and then by their positions. The least
    /// value is the first for `$min`, the greatest for `$max`.
    Extreme(Ordered<Document>),
    /// For `$push`: the values, by the positions of their rows.
    Array(Ordered<Value>),
}

impl AccumulatorState {
    /// The state over no rows.
    pub(crate) fn of_none(alloc: Global, accumulator: Accumulator) -> Self
        ensures { (a : Accumulation) → state_seen result ≡ state_by accumulator a [] }
    {
        match accumulator {
            Accumulator::Sum => AccumulatorState::Sum(SumState::of_none()),
            Accumulator::Min | Accumulator::Max => AccumulatorState::Extreme(Ordered::new(alloc)),
            Accumulator::Push => AccumulatorState::Array(Ordered::new(alloc)),
        }
    }

    /// Adds the row at the position, or removes it. Fails when memory runs out; then the state may only be dropped.
    pub(crate) fn apply(
        &mut self,
        alloc: Global,
        field: &GroupField,
        change: RowChange,
        pos: &Pos,
        row: &Document,
    ) -> Result<(), NoMemory>
        requires { HasRoomFor change (accumulation field.now) pos.now row.now (state_seen self.old) }
        ensures state { OnOk result (state_seen self.new ≡ state_after change (accumulation field.now) pos.now row.now (state_seen self.old)) }
        ensures summable { OnOk result (IsSummableIn (state_seen self.old) (accumulation field.now) row.now) }
    {
        match self {
            AccumulatorState::Sum(sum) => {
                if let Some(value) = field.expr.value_in(alloc, row)? {
                    match change {
                        RowChange::Added => sum.add(value.get()),
                        RowChange::Removed => sum.remove(value.get()),
                    }
                }
            }
            AccumulatorState::Extreme(rows) => {
                let some = replace(rows, Ordered::new(alloc));
                *rows = reranked(alloc, some, field, change, pos, row)?;
            }
            AccumulatorState::Array(values) => {
                let some = replace(values, Ordered::new(alloc));
                *values = repushed(alloc, some, field, change, pos, row)?;
            }
        }
        Ok(())
    }

    /// What the accumulator returns for the values. Fails when memory runs out.
    pub(crate) fn value(&self, alloc: Global, field: &GroupField) -> Result<Value, NoMemory>
        ensures { IfOk result (λ value. tree value ≡ state_value (accumulation field.now) (state_seen self.now)) }
    {
        match self {
            AccumulatorState::Sum(sum) => sum.value(alloc),
            AccumulatorState::Extreme(rows) => value_of_first(alloc, field, rows),
            AccumulatorState::Array(values) => array_of(alloc, values),
        }
    }
}

/// The rows with this one added or removed, if it has a value that isn't null. Fails when memory runs out.
fn reranked(
    alloc: Global,
    rows: Ordered<Document>,
    field: &GroupField,
    change: RowChange,
    pos: &Pos,
    row: &Document,
) -> Result<Ordered<Document>, NoMemory>
    ensures { IfOk result (λ now. now ≡ defined.reranked change (accumulation field.now) pos.now row.now rows) }
{
    let Some(value) = field.expr.value_in(alloc, row)? else {
        return Ok(rows);
    };
    if let Value::Null = value.get() {
        return Ok(rows);
    }
    let place = ranked_place(alloc, field.accumulator, value.get(), pos)?;
    match change {
        RowChange::Added => rows.with(place, row.try_clone()?),
        RowChange::Removed => Ok(rows.without(&place)),
    }
}

/// The position of the row at `pos` among rows that are ordered by this value. Fails when memory runs out.
fn ranked_place(
    alloc: Global,
    accumulator: Accumulator,
    value: &Value,
    pos: &Pos,
) -> Result<Pos, NoMemory>
    ensures { IfOk result (λ place. place ≡ rank accumulator (tree value.now) ∷ pos.now) }
{
    let key = key_of(value)?;
    let part = match accumulator {
        Accumulator::Max => Part::Down(key),
        Accumulator::Sum | Accumulator::Min | Accumulator::Push => Part::Up(key),
    };
    pos.behind_part(alloc, part)
}

/// The value of the first row, or null if there is none. Fails when memory runs out.
fn value_of_first(
    alloc: Global,
    field: &GroupField,
    rows: &Ordered<Document>,
) -> Result<Value, NoMemory>
    ensures { IfOk result (λ value. tree value ≡ value_of_first (accumulation field.now) rows.now) }
{
    let Some((_, row)) = rows.first() else {
        return Ok(Value::Null);
    };
    match field.expr.value_in(alloc, row)? {
        Some(value) => value.into_value(),
        None => Ok(Value::Null),
    }
}

/// The values with that of the row at the position added, if it has one, or removed. Fails when memory runs out.
#[tactic(auto, using(crate::proofs::Pushing::values_put, crate::proofs::Pushing::values_gone))]
fn repushed(
    alloc: Global,
    values: Ordered<Value>,
    field: &GroupField,
    change: RowChange,
    pos: &Pos,
    row: &Document,
) -> Result<Ordered<Value>, NoMemory>
    ensures { IfOk result (λ now. values_seen now ≡ defined.repushed change (accumulation field.now) pos.now row.now (values_seen values)) }
{
    match change {
        RowChange::Added => match field.expr.value_in(alloc, row)? {
            Some(value) => values.with(pos.try_clone()?, value.into_value()?),
            None => Ok(values),
        },
        RowChange::Removed => Ok(values.without(pos)),
    }
}

/// A copy of the values, as an array. Fails when memory runs out.
fn array_of(alloc: Global, values: &Ordered<Value>) -> Result<Value, NoMemory>
    ensures { IfOk result (λ value. tree value ≡ array (elements_of (values_in (values_seen values.now)))) }
{
    let copies = copies_of(alloc, values)?;
    Ok(Value::Array(List::of(copies)))
}

/// A copy of the values, without their positions. Fails when memory runs out.
fn copies_of(alloc: Global, values: &Ordered<Value>) -> Result<Vec<Value>, NoMemory>
    ensures { IfOk result (λ copies. map tree copies.items ≡ values_in (values_seen values.now)) }
{
    let mut copies = Vec::with_capacity(alloc, values.len())?;
    let Some((_, first)) = values.first() else {
        return Ok(copies);
    };
    copies.push(first.try_clone()?)?;
    'others: for (_, value) in values.others() {
        copies.push(value.try_clone()?)?;
    }
    Ok(copies)
}
