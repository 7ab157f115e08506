//! Keys of values that take few bytes.

ghost use Rattle.std.specs.Prelude.{◌≡◌, IfNone, IfSome, true};
ghost use Rattle.dv_value.specs.View.{tree};
ghost use Rattle.dv_order.specs.Codes.{key_of_code, value_high, value_low};
ghost use Rattle.std.specs.Option.{option_map};
ghost use Rattle.dv_order.specs.Key.{key_at, value as key_of_tree};
ghost use Rattle.dv_order.specs.Order.{canon, class, order};
ghost use Rattle.dv_order.specs.Inner.Sources.{IsLarge};
ghost use Rattle.dv_order.specs.Source.{small_value};

use crate::code::{KeyCode, integer_of, numbers_of_bytes, object_id_of, offset_of};
use dv_value::Value;
use std::cmp::Ordering;

/// A value of at most twelve bytes, an integer with 64 bits.
#[derive(Clone, Copy, Debug, Drop)]
pub(crate) enum Small {
    MinKey,
    Null,
    Integer(i64),
    ObjectId([u8; 12]),
    Bool(bool),
    Date(i64),
    Timestamp(u64),
    MaxKey,
}

impl Small {
    /// The value, unless it is a text, a document, an array or binary data.
    pub(crate) fn of(value: &Value) -> Option<Self>
        ensures value { IfSome result (λ small. small_value small ≡ canon (tree value.now)) }
        ensures large { IfNone result (IsLarge (tree value.now)) }
    {
        match value {
            Value::MinKey => Some(Small::MinKey),
            Value::Null => Some(Small::Null),
            Value::Int32(number) => Some(Small::Integer(i64::from(*number))),
            Value::Int64(number) => Some(Small::Integer(*number)),
            Value::ObjectId(id) => Some(Small::ObjectId(*id)),
            Value::Bool(truth) => Some(Small::Bool(*truth)),
            Value::Date(time) => Some(Small::Date(*time)),
            Value::Timestamp(number) => Some(Small::Timestamp(*number)),
            Value::MaxKey => Some(Small::MaxKey),
            Value::Text(_) | Value::Doc(_) | Value::Array(_) | Value::Binary { .. } => None,
        }
    }

    /// The value whose key the parts of a code give; `None` where that is the key that no value has.
    pub(crate) fn of_code(class: u8, high: u64, low: u32) -> Option<Self>
        ensures { key_at (option_map small_value result) ≡ key_of_code class high low }
    {
        match class {
            0 => Some(Small::MinKey),
            1 => None,
            2 => Some(Small::Null),
            3 => Some(Small::Integer(integer_of(high))),
            8 => Some(Small::ObjectId(object_id_of(high, low))),
            9 => Some(Small::Bool(high == 1)),
            10 => Some(Small::Date(integer_of(high))),
            11 => Some(Small::Timestamp(high)),
            _ => Some(Small::MaxKey),
        }
    }

    /// Its place among the classes of values.
    pub(crate) fn class(&self) -> u8
        ensures { result ≡ class (small_value self.now) }
    {
        match self {
            Small::MinKey => 0,
            Small::Null => 2,
            Small::Integer(_) => 3,
            Small::ObjectId(_) => 8,
            Small::Bool(_) => 9,
            Small::Date(_) => 10,
            Small::Timestamp(_) => 11,
            Small::MaxKey => 12,
        }
    }

    /// The order of the two.
    pub(crate) fn order(&self, other: &Small) -> Ordering
        ensures { result ≡ order (small_value self.now) (small_value other.now) }
    {
        match (self, other) {
            (Small::Integer(a), Small::Integer(b)) => a.cmp(b),
            (Small::ObjectId(a), Small::ObjectId(b)) => a.cmp(b),
            (Small::Bool(a), Small::Bool(b)) => a.cmp(b),
            (Small::Date(a), Small::Date(b)) => a.cmp(b),
            (Small::Timestamp(a), Small::Timestamp(b)) => a.cmp(b),
            _ => self.class().cmp(&other.class()),
        }
    }

    /// The code of its key.
    pub(crate) fn code(&self) -> KeyCode
        ensures class { result.class ≡ class (small_value self.now) }
        ensures high { result.high ≡ value_high (small_value self.now) }
        ensures low { result.low ≡ value_low (small_value self.now) }
        ensures exact { result.is_exact ≡ true → key_of_code result.class result.high result.low ≡ key_of_tree (small_value self.now) }
    {
        let class = self.class();
        match self {
            Small::Integer(number) | Small::Date(number) => KeyCode {
                class,
                high: offset_of(*number),
                low: 0,
                is_exact: true,
            },
            Small::ObjectId(id) => {
                let (high, low) = numbers_of_bytes(id);
                KeyCode {
                    class,
                    high,
                    low,
                    // Always true. It is checked in place of a proof, which costs nothing where keys are compared.
                    is_exact: object_id_of(high, low) == *id,
                }
            }
            Small::Bool(truth) => KeyCode {
                class,
                high: u64::from(*truth),
                low: 0,
                is_exact: true,
            },
            Small::Timestamp(number) => KeyCode {
                class,
                high: *number,
                low: 0,
                is_exact: true,
            },
            Small::MinKey | Small::Null | Small::MaxKey => KeyCode {
                class,
                high: 0,
                low: 0,
                is_exact: true,
            },
        }
    }
}
