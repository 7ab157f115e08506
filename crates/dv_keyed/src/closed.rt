//! Filters that are a range with two ends.

ghost use Rattle.std.specs.Prelude.{IfOk, IfSome};
ghost use Rattle.dv_value.specs.View.{tree};
ghost use Rattle.dv_match.specs.Filter.{in_range};
ghost use Rattle.dv_match.specs.View.{condition, member};
ghost use Rattle.dv_keyed.specs.Inner.Decided.{AreClosed, HasKeysOfBoth, IsClosed, IsClosedUnder, IsInBoth};

use crate::interval::Interval;
use crate::plan::same_path;
use dv_candidates::Path;
use dv_match::{Condition, Conditions, Filter, Member, Range};
use dv_order::{key_of, laws, same_class};
use dv_value::{NoMemory, Value};
use std::ops::Bound;

/// If the filter is a range with two ends under the path, the lower one first and both of one class, as `{x: {$gte: 1, $lt: 5}}`:
/// the ends that enclose exactly the keys in this range. `None` for any other filter. Fails with `NoMemory` when memory runs out.
pub fn closed_range(filter: &Filter, path: &Path) -> Result<Option<Interval>, NoMemory>
    ensures { IfOk result (λ found. IfSome found (λ ends. IsClosed ends path.now filter.now)) }
{
    match filter.members() {
        [part] => closed_under(part, path),
        _ => Ok(None),
    }
}

fn closed_under(part: &Member, path: &Path) -> Result<Option<Interval>, NoMemory>
    ensures { IfOk result (λ found. IfSome found (λ ends. IsClosedUnder ends path.now (member part.now))) }
{
    match part {
        Member::At(at, conditions) => {
            if !same_path(at.components(), path.components()) {
                return Ok(None);
            }
            closed_by(conditions)
        }
        _ => Ok(None),
    }
}

fn closed_by(conditions: &Conditions) -> Result<Option<Interval>, NoMemory>
    ensures { IfOk result (λ found. IfSome found (λ ends. AreClosed ends conditions.now)) }
{
    match conditions.as_slice() {
        [lower, upper] => closed_by_both(lower, upper),
        _ => Ok(None),
    }
}

fn closed_by_both(lower: &Condition, upper: &Condition) -> Result<Option<Interval>, NoMemory>
    ensures { IfOk result (λ found. IfSome found (λ ends. IsInBoth ends (condition lower.now) (condition upper.now))) }
{
    match (lower, upper) {
        (Condition::Bound(low, least), Condition::Bound(high, most)) => {
            closed_between(*low, least, *high, most)
        }
        _ => Ok(None),
    }
}

/// The ends that enclose exactly the keys in both ranges, if the first has a lower end and the second an upper one, and their
/// values are of one class.
fn closed_between(
    low: Range,
    least: &Value,
    high: Range,
    most: &Value,
) -> Result<Option<Interval>, NoMemory>
    ensures { IfOk result (λ found. IfSome found (λ ends. HasKeysOfBoth ends (in_range low (tree least.now)) (in_range high (tree most.now)))) }
{
    laws::lower_classes_stand_first();
    if !same_class(least, most) {
        return Ok(None);
    }
    let start = key_of(least)?;
    let end = key_of(most)?;
    match (low, high) {
        (Range::Above, Range::Below) => Ok(Some(Interval {
            low: Bound::Excluded(start),
            high: Bound::Excluded(end),
        })),
        (Range::Above, Range::AtMost) => Ok(Some(Interval {
            low: Bound::Excluded(start),
            high: Bound::Included(end),
        })),
        (Range::AtLeast, Range::Below) => Ok(Some(Interval {
            low: Bound::Included(start),
            high: Bound::Excluded(end),
        })),
        (Range::AtLeast, Range::AtMost) => Ok(Some(Interval {
            low: Bound::Included(start),
            high: Bound::Included(end),
        })),
        _ => Ok(None),
    }
}
