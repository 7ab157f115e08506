//! Least and greatest values.

ghost use Rattle.std.specs.Prelude.{◌≡◌};
ghost use Rattle.dv_value.specs.View.{tree};
ghost use Rattle.dv_gather.specs.Extremes as defined;

use dv_order::compare;
use dv_value::Value;

/// Which of values is taken.
#[derive(Clone, Copy, Debug)]
pub(crate) enum Extreme {
    /// The least.
    Least,
    /// The greatest.
    Greatest,
}

impl Extreme {
    /// Whether the value takes the place of the best one before it.
    pub(crate) fn is_better(self, value: &Value, best: &Value) -> bool
        ensures { result ≡ defined.is_better self (tree value.now) (tree best.now) }
    {
        if is_null(value) {
            return false;
        }
        if is_null(best) {
            return true;
        }
        let order = compare(value, best);
        match self {
            Extreme::Least => order.is_lt(),
            Extreme::Greatest => order.is_gt(),
        }
    }
}

fn is_null(value: &Value) -> bool
    ensures { result ≡ defined.is_null (tree value.now) }
{
    match value {
        Value::Null => true,
        _ => false,
    }
}
