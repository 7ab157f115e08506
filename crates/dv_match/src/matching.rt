//! Which documents match a filter.

ghost use Rattle.std.specs.Prelude.{◌≡◌, is_some};
ghost use Rattle.std.specs.List.{list_any};
ghost use Rattle.dv_value.specs.View.{tree};
ghost use Rattle.dv_candidates.specs.View.{seen};
ghost use Rattle.dv_match.specs.Inner.Asked.{wholes, parts};
ghost use Rattle.dv_match.specs.Match as defined;
ghost use Rattle.dv_match.specs.View.{member, condition, test};

use crate::choices::Choices;
use crate::form::{Condition, Conditions, Filter, Filters, Member, Test};
use crate::leaf::{has_size, is_among, is_equal, is_found, is_in_range};
use crate::marks::have_equals;
use crate::place::{Subject, any_candidate, any_part};
use crate::range::Range;
use dv_candidates::Candidate;
use dv_value::{Document, List, Value};

/// How many values of `$all` are looked for one after the other. For more of them marks are kept.
const FEW: usize = 8;

impl Filter {
    /// Whether the document matches: all the filter's members match. Takes no memory, and stops as soon as the answer is
    /// known; for more than eight values of `$all` all leaves are checked, once for each 128 of these values.
    #[cycle(matching)]
    pub fn matches(&self, document: &Document) -> bool
        ensures { result ≡ defined.matches self.now document.now }
    {
        for member in self.members() {
            if !member.matches(document) {
                return false;
            }
        }
        true
    }
}

impl Member {
    #[cycle(matching)]
    #[tactic(auto, unfolding(crate::specs::Match::matches_member))]
    fn matches(&self, document: &Document) -> bool
        ensures { result ≡ defined.matches_member (member self.now) document.now }
    {
        match self {
            Member::And(filters) => filters.all_match(document),
            Member::Or(filters) => filters.any_matches(document),
            Member::Nor(filters) => !filters.any_matches(document),
            Member::At(path, conditions) => conditions.are_met(Subject::of(document, path)),
        }
    }
}

impl Filters {
    #[cycle(matching)]
    fn all_match(&self, document: &Document) -> bool
        ensures { result ≡ defined.matches_all self.now document.now }
    {
        for filter in self.as_slice() {
            if !filter.matches(document) {
                return false;
            }
        }
        true
    }

    #[cycle(matching)]
    fn any_matches(&self, document: &Document) -> bool
        ensures { result ≡ defined.matches_any self.now document.now }
    {
        for filter in self.as_slice() {
            if filter.matches(document) {
                return true;
            }
        }
        false
    }
}

impl Conditions {
    #[cycle(matching)]
    fn are_met(&self, place: Subject<'_>) -> bool
        ensures { result ≡ defined.meets_all self.now (wholes place.entry) (parts place.entry) }
    {
        for condition in self.as_slice() {
            if !condition.is_met(place) {
                return false;
            }
        }
        true
    }
}

impl Condition {
    #[cycle(matching)]
    #[tactic(auto, unfolding(crate::specs::Match::meets))]
    fn is_met(&self, place: Subject<'_>) -> bool
        ensures { result ≡ defined.meets (condition self.now) (wholes place.entry) (parts place.entry) }
    {
        match self {
            Condition::Eq(value) => has_equal(place, value),
            Condition::Ne(value) => !has_equal(place, value),
            Condition::Bound(range, value) => has_in_range(place, *range, value),
            Condition::In(choices) => has_among(place, choices),
            Condition::Nin(choices) => !has_among(place, choices),
            Condition::Not(conditions) => !conditions.are_met(place),
            Condition::All(choices) => has_every(place, choices),
            Condition::Exists(wanted) => has_any(place) == *wanted,
            Condition::Size(size) => has_sized(place, *size),
            Condition::ElemMatch(wanted) => any_candidate(
                place,
                |candidate: Candidate<'_>| -> bool
                    ensures { result ≡ list_any (defined.passes (test wanted.entry.now)) (defined.elements_in (seen candidate.entry)) }
                { wanted.passes_in(candidate) },
            ),
        }
    }
}

impl Test {
    /// Whether a value passes: an element of an array by itself. Takes no memory, and stops as soon as the answer is
    /// known.
    #[cycle(matching)]
    #[tactic(auto, unfolding(crate::specs::Match::passes))]
    pub fn passes(&self, value: &Value) -> bool
        ensures { result ≡ defined.passes (test self.now) (tree value.now) }
    {
        match self {
            Test::Meets(conditions) => conditions.are_met(Subject::Element(value)),
            Test::Matches(filter) => match value {
                Value::Doc(document) => filter.matches(document),
                _ => false,
            },
        }
    }

    /// Whether the candidate is an array with an element that passes.
    #[cycle(matching)]
    fn passes_in(&self, candidate: Candidate<'_>) -> bool
        ensures { result ≡ list_any (defined.passes (test self.now)) (defined.elements_in (seen candidate.entry)) }
    {
        let Candidate::Found(found) = candidate else {
            return false;
        };
        match found {
            Value::Array(list) => self.any_passes(list),
            _ => false,
        }
    }

    #[cycle(matching)]
    fn any_passes(&self, list: &List) -> bool
        ensures { result ≡ list_any (defined.passes (test self.now)) list.now }
    {
        for element in list.as_slice() {
            if self.passes(element) {
                return true;
            }
        }
        false
    }
}

/// Whether some leaf compares equal to the value.
fn has_equal(place: Subject<'_>, value: &Value) -> bool
    ensures { result ≡ list_any (defined.is_equal (tree value.now)) (parts place.entry) }
{
    any_part(place, |candidate| is_equal(candidate, value))
}

/// Whether some leaf compares equal to one of the choices.
fn has_among(place: Subject<'_>, choices: &Choices) -> bool
    ensures { result ≡ list_any (defined.is_among choices.now) (parts place.entry) }
{
    any_part(place, |candidate| is_among(candidate, choices))
}

/// Whether there are values, and each of them compares equal to some leaf.
fn has_every(place: Subject<'_>, choices: &Choices) -> bool
    ensures { result ≡ defined.holds_every choices.now (parts place.entry) }
{
    let values = choices.values();
    if values.as_slice().len() > FEW {
        have_equals(place, choices.ascending())
    } else {
        has_each(place, values)
    }
}

/// The same, checking the leaves for one value after the other.
fn has_each(place: Subject<'_>, values: &List) -> bool
    ensures { result ≡ defined.holds_every values.now (parts place.entry) }
{
    let members = values.as_slice();
    for value in members {
        if !has_equal(place, value) {
            return false;
        }
    }
    !members.is_empty()
}

/// Whether some leaf is of the bound's class and is in the range.
fn has_in_range(place: Subject<'_>, range: Range, bound: &Value) -> bool
    ensures { result ≡ list_any (defined.is_in_range range (tree bound.now)) (parts place.entry) }
{
    any_part(place, |candidate| is_in_range(candidate, range, bound))
}

/// Whether some candidate isn't missing.
fn has_any(place: Subject<'_>) -> bool
    ensures { result ≡ list_any is_some (wholes place.entry) }
{
    any_candidate(place, |candidate| is_found(candidate))
}

/// Whether some candidate is an array with this number of elements.
fn has_sized(place: Subject<'_>, size: u64) -> bool
    ensures { result ≡ list_any (defined.has_size size) (wholes place.entry) }
{
    any_candidate(place, |candidate| has_size(candidate, size))
}
