//! The operands of `$inc`.

ghost use Rattle.std.specs.Prelude.{◌≡◌};
ghost use Rattle.dv_value.specs.View.{tree};
ghost use Rattle.dv_value.specs.Widths as widths;
ghost use Rattle.dv_value.specs.Results.{Gives};
ghost use Rattle.dv_update.specs.declared.fault.UpdateFault.TheVariants.{NoMemory as no_memory};
ghost use Rattle.dv_update.specs.Apply as defined;

use crate::fault::UpdateFault;
use dv_value::Value;

/// An integer of one of the two widths.
#[derive(Clone, Copy, Debug, PartialEq, Eq)]
pub enum Number {
    /// Of 32 bits.
    Int32(i32),
    /// Of 64 bits.
    Int64(i64),
}

impl Number {
    /// The number as a value.
    pub(crate) fn value(self) -> Value
        ensures { tree result ≡ defined.number_tree self }
    {
        match self {
            Number::Int32(number) => Value::Int32(number),
            Number::Int64(number) => Value::Int64(number),
        }
    }

    fn is_narrow(self) -> bool
        ensures { result ≡ defined.is_narrow self }
    {
        matches!(self, Number::Int32(_))
    }

    fn integer(self) -> i64
        ensures { result ≡ defined.integer self }
    {
        match self {
            Number::Int32(number) => i64::from(number),
            Number::Int64(number) => number,
        }
    }

    /// The sum: of 32 bits if both numbers are and the sum fits, otherwise of 64. Refused with `Overflow` if it doesn't fit 64
    /// bits.
    pub(crate) fn add(self, other: Number) -> Result<Value, UpdateFault>
        ensures { Gives no_memory tree result (defined.sum self other) }
    {
        let Some(sum) = self.integer().checked_add(other.integer()) else {
            return Err(UpdateFault::Overflow);
        };
        if self.is_narrow() && other.is_narrow() && fits_32(sum) {
            Ok(Value::Int32(sum as i32))
        } else {
            Ok(Value::Int64(sum))
        }
    }
}

/// Whether a number fits 32 bits.
fn fits_32(number: i64) -> bool
    ensures { result ≡ widths.fits_32 number }
{
    i64::from(i32::MIN) <= number && number <= i64::from(i32::MAX)
}
