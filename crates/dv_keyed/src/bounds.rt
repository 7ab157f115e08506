//! Between which keys an index is read for a range.

ghost use Rattle.std.specs.Prelude.{◌≡◌, true, IfOk};
ghost use Rattle.std.specs.BTreeMap.Range.{IsLeBy, IsLtBy, range_contains};
ghost use Rattle.std.specs.Range.Bound.{IsForward, bound_map};
ghost use Rattle.dv_value.specs.View.{tree};
ghost use Rattle.dv_match.specs.Filter.{in_range};
ghost use Rattle.dv_order.specs.Key.{KeyTree, key_order, value as key_of_tree};
ghost use Rattle.dv_order.specs.Order.{canon};
ghost use Rattle.dv_keyed.specs.Inner.Within.{covers};

use dv_match::Range;
use dv_order::{Key, class_end, class_start, key_of, laws};
use dv_value::{NoMemory, Value};
use std::alloc::Global;
use std::ops::Bound;

/// Ends that enclose all keys of the value's class that compare to its key as the range says. Fails with `NoMemory` when memory
/// runs out.
pub fn ends_within(
    alloc: Global,
    range: Range,
    value: &Value,
) -> Result<(Bound<Key>, Bound<Key>), NoMemory>
    ensures forward { IfOk result (λ ends. IsForward (IsLeBy key_order) (IsLtBy key_order) ends.0 ends.1) }
    ensures holds { IfOk result (λ ends. (k : KeyTree) → covers (in_range range (tree value.now)) k ≡ true → range_contains key_order ends.0 ends.1 k ≡ true) }
{
    // Keys of other classes are beyond these ends.
    laws::lower_classes_stand_first();
    let key = key_of(value)?;
    match range {
        Range::Above => Ok((Bound::Excluded(key), key_end(class_end(alloc, value))?)),
        Range::AtLeast => Ok((Bound::Included(key), key_end(class_end(alloc, value))?)),
        Range::Below => Ok((key_end(class_start(alloc, value))?, Bound::Excluded(key))),
        Range::AtMost => Ok((key_end(class_start(alloc, value))?, Bound::Included(key))),
    }
}

/// The same end, with its value's key in place of the value.
fn key_end(end: Bound<Value>) -> Result<Bound<Key>, NoMemory>
    ensures { IfOk result (λ key. key ≡ bound_map (λ v. key_of_tree (canon (tree v))) end) }
{
    match end {
        Bound::Included(value) => Ok(Bound::Included(key_of(&value)?)),
        Bound::Excluded(value) => Ok(Bound::Excluded(key_of(&value)?)),
        Bound::Unbounded => Ok(Bound::Unbounded),
    }
}
