//! Directions of sorting.

ghost use Rattle.std.specs.Prelude.{◌≡◌};
ghost use Rattle.dv_value.specs.View.{tree};
ghost use Rattle.dv_path.specs.SortSpec.{direction_of, direction_of_number};

use dv_value::Value;

/// Which end of the order comes first.
#[derive(Clone, Copy, Debug, PartialEq, Eq)]
pub enum Direction {
    /// The least.
    Ascending,
    /// The greatest.
    Descending,
}

impl Direction {
    /// The direction that a value stands for: 1 is ascending and -1 descending, of either width.
    pub(crate) fn of(value: &Value) -> Option<Self>
        ensures { result ≡ direction_of (tree value.now) }
    {
        match value {
            Value::Int32(number) => Direction::of_number(i64::from(*number)),
            Value::Int64(number) => Direction::of_number(*number),
            _ => None,
        }
    }

    fn of_number(number: i64) -> Option<Self>
        ensures { result ≡ direction_of_number number }
    {
        match number {
            1 => Some(Direction::Ascending),
            -1 => Some(Direction::Descending),
            _ => None,
        }
    }
}
