//! What switches a field on or off.

ghost use Rattle.std.specs.Prelude.{◌≡◌};
ghost use Rattle.dv_value.specs.View.{tree};
ghost use Rattle.dv_row.specs.ExpressionParsing as defined;

use dv_value::Value;

/// Whether a boolean or a number switches a field on or off: false and 0 switch it off. `None` for any other value.
pub(crate) fn switch_of(value: &Value) -> Option<bool>
    ensures { result ≡ defined.switch_in (tree value.now) }
{
    match value {
        Value::Bool(truth) => Some(*truth),
        Value::Int32(number) => Some(*number != 0),
        Value::Int64(number) => Some(*number != 0),
        _ => None,
    }
}
