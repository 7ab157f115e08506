//! Values that ascend, no two of which compare equal.

ghost use Rattle.dv_value.specs.View.{tree};
ghost use Rattle.dv_match.specs.Inner.Blocks.{IsBlock};
ghost use Rattle.dv_match.specs.Inner.Choices.{Ascend, IsPlaceOf};

use dv_order::compare;
use dv_value::Value;

/// The place of the value that compares equal to this one, if there is one. Takes comparisons logarithmic in the number of
/// values.
pub(crate) fn place_of(values: &[Value], value: &Value) -> Option<usize>
    requires { Ascend values.now }
    ensures { IsPlaceOf (tree value.now) values.now result }
{
    values
        .binary_search_by(|member| compare(member, value))
        .ok()
}

/// The same, with at most two comparisons for a value before the first or after the last.
pub(crate) fn place_in_block(block: &[Value], value: &Value) -> Option<usize>
    requires { IsBlock block.now }
    ensures { IsPlaceOf (tree value.now) block.now result }
{
    if compare(value, &block[0]).is_lt() {
        return None;
    }
    if compare(&block[block.len() - 1], value).is_lt() {
        return None;
    }
    place_of(block, value)
}
