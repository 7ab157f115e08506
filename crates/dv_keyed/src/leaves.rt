//! Which documents have a leaf in bounds.

ghost use Rattle.std.specs.Prelude.{◌≡◌, Some};
ghost use Rattle.dv_value.specs.View.{tree};
ghost use Rattle.dv_match.specs.Match as matching;
ghost use Rattle.dv_candidates.specs.View.{seen};
ghost use Rattle.dv_keyed.specs.Inner.View.{bounds_seen};
ghost use Rattle.dv_keyed.specs.Within.{has_within, is_within};

use crate::plan::Bounds;
use dv_candidates::{Candidate, Path, any_leaf};
use dv_match::Range;
use dv_order::{compare, same_class};
use dv_value::{Document, Value};

/// Whether the document has a leaf in the bounds under the path, Missing counting as null. Takes no memory.
#[tactic(auto, unfolding(crate::specs::Within::has_within))]
pub fn is_covered(document: &Document, path: &Path, bounds: Bounds<'_>) -> bool
    ensures { result ≡ has_within (bounds_seen bounds.entry) path.now document.now }
{
    any_leaf(
        document,
        path,
        |candidate: Candidate<'_>| -> bool
            ensures { result ≡ is_within (bounds_seen bounds.entry) (seen candidate.entry) }
        { is_in(candidate, bounds) },
    )
}

fn is_in(candidate: Candidate<'_>, bounds: Bounds<'_>) -> bool
    ensures { result ≡ is_within (bounds_seen bounds.entry) (seen candidate.entry) }
{
    match candidate {
        Candidate::Found(value) => is_value_in(value, bounds),
        Candidate::Missing => is_value_in(&Value::Null, bounds),
    }
}

fn is_value_in(value: &Value, bounds: Bounds<'_>) -> bool
    ensures { result ≡ is_within (bounds_seen bounds.entry) (Some (tree value.now)) }
{
    match bounds {
        Bounds::Equal(wanted) => compare(value, wanted).is_eq(),
        Bounds::Among(choices) => choices.contains(value),
        Bounds::Within(range, bound) => same_class(value, bound) && stands(value, range, bound),
    }
}

fn stands(value: &Value, range: Range, bound: &Value) -> bool
    ensures { result ≡ matching.stands range (tree bound.now) (tree value.now) }
{
    let order = compare(value, bound);
    match range {
        Range::Above => order.is_gt(),
        Range::AtLeast => order.is_ge(),
        Range::Below => order.is_lt(),
        Range::AtMost => order.is_le(),
    }
}
