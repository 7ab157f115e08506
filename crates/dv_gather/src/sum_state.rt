//! Sums.

ghost use Rattle.std.specs.Prelude.{◌≡◌, ℕ, suc, IfOk, pos, true};
ghost use Rattle.dv_value.specs.View.{tree};
ghost use Rattle.dv_gather.specs.Inner.SumBounds.{IsWithinCount, most};
ghost use Rattle.dv_gather.specs.Sums as defined;
ghost use Rattle.dv_gather.specs.Inner.AccumulatorStates.{sum_state, with_value, state_value};
ghost use Rattle.dv_gather.specs.Inner.StateView.{sum_state_seen};

use dv_value::{BsonFault, Document, NoMemory, Str, Value};
use itoa::Buffer;
use std::alloc::{AllocError, Global};

/// The sum of the numbers so far.
#[derive(Debug, Drop)]
pub(crate) struct SumState {
    total: i128,
    /// Whether none of the numbers was an int64.
    narrow: bool,
}

impl SumState {
    /// The sum of no numbers.
    pub(crate) fn of_none() -> Self
        ensures { sum_state_seen result ≡ sum_state (pos 0) true }
    {
        SumState {
            total: 0,
            narrow: true,
        }
    }

    /// Adds the value, if it is a number.
    pub(crate) fn add(&mut self, value: &Value)
        requires { IsWithinCount most (sum_state_seen self.old) }
        ensures sum { sum_state_seen self.new ≡ with_value (tree value.now) (sum_state_seen self.old) }
        ensures within { (count : ℕ) → IsWithinCount count (sum_state_seen self.old) → IsWithinCount (suc count) (sum_state_seen self.new) }
    {
        self.total += i128::from(addend(value));
        self.narrow = self.narrow && !is_int64(value);
    }

    /// The sum as a value: an int32 if it fits and each number was one, 0 if there were none; else an int64 if it fits; else a
    /// document with its decimal digits under `$sum128`. Fails when memory runs out.
    pub(crate) fn value(&self, alloc: Global) -> Result<Value, NoMemory>
        ensures { IfOk result (λ sum. tree sum ≡ state_value (sum_state_seen self.now)) }
    {
        sum_value(alloc, self.narrow, self.total)
    }
}

/// What the value adds to a sum: a number adds itself, any other value nothing. Takes no memory.
pub fn addend(value: &Value) -> i64
    ensures { result ≡ defined.addend (tree value.now) }
{
    match value {
        Value::Int32(number) => i64::from(*number),
        Value::Int64(number) => *number,
        _ => 0,
    }
}

/// Whether the value is an int64. Takes no memory.
pub fn is_int64(value: &Value) -> bool
    ensures { result ≡ defined.is_int64 (tree value.now) }
{
    match value {
        Value::Int64(_) => true,
        _ => false,
    }
}

/// A sum as a value: an int32 if it fits and `narrow` says that none of its numbers was an int64; else an int64 if it fits; else a
/// document with its decimal digits under `$sum128`. Fails with `NoMemory` when memory runs out.
#[tactic(auto, unfolding(crate::specs::Sums::spelled))]
pub fn sum_value(alloc: Global, narrow: bool, total: i128) -> Result<Value, NoMemory>
    ensures { IfOk result (λ sum. tree sum ≡ defined.spelled narrow total) }
{
    if narrow {
        if let Ok(total) = i32::try_from(total) {
            return Ok(Value::Int32(total));
        }
    }
    match i64::try_from(total) {
        Ok(total) => Ok(Value::Int64(total)),
        Err(_) => wide(alloc, total),
    }
}

/// A sum beyond 64 bits.
fn wide(alloc: Global, total: i128) -> Result<Value, NoMemory>
    ensures { IfOk result (λ sum. tree sum ≡ defined.digits total) }
{
    let digits = String::from_str(alloc, Buffer::new().format(total))?;
    let mut document = Document::new(alloc);
    match document.push("$sum128", Value::Text(Str::of(digits))) {
        Err(BsonFault::NoMemory) => Err(AllocError),
        _ => Ok(Value::Doc(document)),
    }
}
