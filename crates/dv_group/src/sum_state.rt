//! Sums of numbers that are added and removed.

ghost use Rattle.std.specs.Prelude.{◌≡◌, ◌≤◌, ◌+◌, ◌-◌, ◌+ℤ◌, ◌-ℤ◌, IfOk, Some, nat_eq, pos};
ghost use Rattle.dv_value.specs.View.{tree};
ghost use Rattle.dv_gather.specs.Sums as sums;
ghost use Rattle.dv_group.specs.Inner.SumBounds.{IsSummableValue, IsWithinCount, most_rows};
ghost use Rattle.dv_group.specs.Inner.AccumulatorStates.{adds, sum_state, int64s_in};
ghost use Rattle.dv_group.specs.Inner.StateView.{sum_state_seen};

use dv_gather::{addend, is_int64, sum_value};
use dv_value::{NoMemory, Value};
use std::alloc::Global;

/// The sum of numbers that are added and removed.
#[derive(Debug, Drop)]
pub(crate) struct SumState {
    total: i128,
    /// How many of them are int64s.
    int64s: u128,
}

impl SumState {
    /// The sum of no numbers.
    pub(crate) fn of_none() -> Self
        ensures { sum_state_seen result ≡ sum_state (pos 0) 0 }
    {
        SumState {
            total: 0,
            int64s: 0,
        }
    }

    /// Adds the value, if it is a number.
    pub(crate) fn add(&mut self, value: &Value)
        requires { IsWithinCount most_rows (sum_state_seen self.old) }
        ensures sum { sum_state_seen self.new ≡ sum_state (self.old.total +ℤ adds (Some (tree value.now))) (self.old.int64s + int64s_in (Some (tree value.now))) }
        ensures summable { IsSummableValue (Some (tree value.now)) }
    {
        self.total += i128::from(addend(value));
        if is_int64(value) {
            self.int64s += 1;
        }
    }

    /// Removes the value, if it is a number.
    pub(crate) fn remove(&mut self, value: &Value)
        requires within { IsWithinCount most_rows (sum_state (self.old.total -ℤ adds (Some (tree value.now))) (self.old.int64s - int64s_in (Some (tree value.now)))) }
        requires counted { int64s_in (Some (tree value.now)) ≤ self.old.int64s }
        ensures sum { sum_state_seen self.new ≡ sum_state (self.old.total -ℤ adds (Some (tree value.now))) (self.old.int64s - int64s_in (Some (tree value.now))) }
        ensures summable { IsSummableValue (Some (tree value.now)) }
    {
        self.total -= i128::from(addend(value));
        if is_int64(value) {
            self.int64s -= 1;
        }
    }

    /// The sum as a value. Fails when memory runs out.
    pub(crate) fn value(&self, alloc: Global) -> Result<Value, NoMemory>
        ensures { IfOk result (λ sum. tree sum ≡ sums.spelled (nat_eq self.now.int64s 0) self.now.total) }
    {
        sum_value(alloc, self.int64s == 0, self.total)
    }
}
