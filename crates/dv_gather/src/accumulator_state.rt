//! What a group holds for one accumulator.

ghost use Rattle.std.specs.Prelude.{◌≡◌, ℕ, suc, map, IfOk, OnOk};
ghost use Rattle.dv_value.specs.View.{tree};
ghost use Rattle.dv_row.specs.RowValueView.{row_value};
ghost use Rattle.dv_gather.specs.Inner.SumBounds.{AreWithin, IsWithinCount, most};
ghost use Rattle.dv_gather.specs.Inner.AccumulatorStates as defined;
ghost use Rattle.dv_gather.specs.Inner.StateView.{state_seen};

use crate::accumulator::Accumulator;
use crate::extreme::Extreme;
use crate::sum_state::SumState;
use dv_row::RowValue;
use dv_value::{List, NoMemory, Value};
use std::alloc::Global;

/// What a group holds for one accumulator, over the values so far.
#[derive(Debug, Drop)]
pub(crate) enum AccumulatorState {
    /// For `$sum`: the sum of the numbers among them.
    Sum(SumState),
    /// For `$min` and `$max`: the least or the greatest, and null before there is one.
    Extreme(Extreme, Value),
    /// For `$push`: all of them.
    Array(Vec<Value>),
}

impl AccumulatorState {
    /// The state over no values.
    pub(crate) fn of_none(alloc: Global, accumulator: Accumulator) -> Self
        ensures { state_seen result ≡ defined.of_none accumulator }
    {
        match accumulator {
            Accumulator::Sum => AccumulatorState::Sum(SumState::of_none()),
            Accumulator::Min => AccumulatorState::Extreme(Extreme::Least, Value::Null),
            Accumulator::Max => AccumulatorState::Extreme(Extreme::Greatest, Value::Null),
            Accumulator::Push => AccumulatorState::Array(Vec::new(alloc)),
        }
    }

    /// Adds a value after the others. Fails when memory runs out.
    pub(crate) fn add(&mut self, value: RowValue<'_>) -> Result<(), NoMemory>
        requires { IsWithinCount most (state_seen self.old) }
        ensures state { OnOk result (state_seen self.new ≡ defined.with_value (row_value value.entry) (state_seen self.old)) }
        ensures within { OnOk result ((count : ℕ) → IsWithinCount count (state_seen self.old) → IsWithinCount (suc count) (state_seen self.new)) }
    {
        match self {
            AccumulatorState::Sum(sum) => sum.add(value.get()),
            AccumulatorState::Extreme(extreme, best) => {
                if extreme.is_better(value.get(), best) {
                    *best = value.into_value()?;
                }
            }
            AccumulatorState::Array(values) => values.push(value.into_value()?)?,
        }
        Ok(())
    }

    /// What the accumulator returns for the values. Fails when memory runs out.
    pub(crate) fn value(self, alloc: Global) -> Result<Value, NoMemory>
        ensures { IfOk result (λ value. tree value ≡ defined.state_value (state_seen self)) }
    {
        match self {
            AccumulatorState::Sum(sum) => sum.value(alloc),
            AccumulatorState::Extreme(_, best) => Ok(best),
            AccumulatorState::Array(values) => Ok(Value::Array(List::of(values))),
        }
    }
}

/// Adds a value to the state at the place, if there is one. Fails when memory runs out.
pub(crate) fn add_at(
    states: &mut [AccumulatorState],
    place: usize,
    value: RowValue<'_>,
) -> Result<(), NoMemory>
    requires { AreWithin place most (map state_seen states.old) }
    ensures states { OnOk result (map state_seen states.new ≡ defined.with_value_at place (row_value value.entry) (map state_seen states.old)) }
    ensures within { OnOk result ((count : ℕ) → AreWithin place count (map state_seen states.old) → AreWithin (suc place) count (map state_seen states.new)) }
{
    if place < states.len() {
        states[place].add(value)?;
    }
    Ok(())
}
