//! What is checked of one candidate.

ghost use Rattle.std.specs.Prelude.{◌≡◌, is_some};
ghost use Rattle.dv_value.specs.View.{tree};
ghost use Rattle.dv_candidates.specs.View.{seen};
ghost use Rattle.dv_match.specs.Match as defined;

use crate::choices::Choices;
use crate::range::Range;
use dv_candidates::Candidate;
use dv_order::{compare, same_class};
use dv_value::Value;

/// Whether the candidate compares equal to the value.
pub(crate) fn is_equal(candidate: Candidate<'_>, value: &Value) -> bool
    ensures { result ≡ defined.is_equal (tree value.now) (seen candidate.entry) }
{
    match candidate {
        Candidate::Found(found) => compare(found, value).is_eq(),
        Candidate::Missing => compare(&Value::Null, value).is_eq(),
    }
}

/// Whether the candidate is of the bound's class and is in the range.
pub(crate) fn is_in_range(candidate: Candidate<'_>, range: Range, bound: &Value) -> bool
    ensures { result ≡ defined.is_in_range range (tree bound.now) (seen candidate.entry) }
{
    match candidate {
        Candidate::Found(found) => same_class(found, bound) && stands(found, range, bound),
        Candidate::Missing => {
            same_class(&Value::Null, bound) && stands(&Value::Null, range, bound)
        }
    }
}

fn stands(value: &Value, range: Range, bound: &Value) -> bool
    ensures { result ≡ defined.stands range (tree bound.now) (tree value.now) }
{
    let order = compare(value, bound);
    match range {
        Range::Above => order.is_gt(),
        Range::AtLeast => order.is_ge(),
        Range::Below => order.is_lt(),
        Range::AtMost => order.is_le(),
    }
}

/// Whether the candidate compares equal to one of the choices.
pub(crate) fn is_among(candidate: Candidate<'_>, choices: &Choices) -> bool
    ensures { result ≡ defined.is_among choices.now (seen candidate.entry) }
{
    match candidate {
        Candidate::Found(found) => choices.contains(found),
        Candidate::Missing => choices.contains(&Value::Null),
    }
}

/// Whether the candidate isn't missing.
pub(crate) fn is_found(candidate: Candidate<'_>) -> bool
    ensures { result ≡ is_some (seen candidate.entry) }
{
    matches!(candidate, Candidate::Found(_))
}

/// Whether the candidate is an array with this number of elements.
pub(crate) fn has_size(candidate: Candidate<'_>, size: u64) -> bool
    ensures { result ≡ defined.has_size size (seen candidate.entry) }
{
    let Candidate::Found(found) = candidate else {
        return false;
    };
    match found {
        Value::Array(list) => list.as_slice().len() as u64 == size,
        _ => false,
    }
}
