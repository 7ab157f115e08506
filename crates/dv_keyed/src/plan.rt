//! Plans: by which index a filter is answered.

ghost use Rattle.std.specs.Prelude.{◌≡◌, ◌&&◌, map, Some, None, if◌then◌else◌};
ghost use Rattle.std.specs.Option.{option_map};
ghost use Rattle.dv_match.specs.View.{condition, member};
ghost use Rattle.dv_keyed.specs.Choice.{chosen, first_place, first_in, first_in_member, first_in_all, first_of, is_point};
ghost use Rattle.dv_keyed.specs.Choice as choices;
ghost use Rattle.dv_keyed.specs.Inner.Decided as decided;
ghost use Rattle.dv_keyed.specs.Inner.View.{bounds_seen, plan_seen, has_kind};

use crate::index::Index;
use dv_candidates::{Component, Path};
use dv_match::{Choices, Condition, Conditions, Filter, Filters, Member, Range};
use dv_value::Value;

/// Which keys of an index are read.
#[derive(Clone, Copy, Debug)]
pub enum Bounds<'f> {
    /// Those that compare equal to the value's.
    Equal(&'f Value),
    /// Those that compare equal to the key of one of the values.
    Among(&'f Choices),
    /// Those of the value's class that are above, at least, below or at most it, as the `Range` says.
    Within(Range, &'f Value),
}

/// How the documents that match a filter are found.
#[derive(Clone, Copy, Debug)]
pub enum Plan<'f> {
    /// By reading each document.
    Scan,
    /// By the index at this place in creation order, counted from 0, within these bounds.
    Index { place: usize, bounds: Bounds<'f> },
}

/// What is looked for in a filter.
#[derive(Clone, Copy)]
enum ConditionKind {
    /// `$eq` and `$in`.
    Point,
    /// `$gt`, `$gte`, `$lt` and `$lte`.
    Bound,
}

/// Chooses plans.
pub struct Planner;

impl Planner {
    /// The plan for a filter by indexes, which are in creation order. The filter's top conjunction has the conditions under its
    /// paths and, at the places of its `$and` members, the conditions of these, at any depth. The plan uses the first index whose
    /// path has `$eq` or `$in` there, with the first such condition; else the first whose path has a range operator there, with the
    /// first such bound alone; else it is a scan. Takes no memory.
    #[tactic(auto, unfolding(crate::specs::Choice::chosen))]
    pub fn choose<'f>(filter: &'f Filter, indexes: &[Index]) -> Plan<'f>
        ensures { plan_seen result ≡ chosen filter.now (map (λ i. i.path) indexes.now) }
    {
        match first_index(filter, indexes, ConditionKind::Point) {
            Plan::Scan => first_index(filter, indexes, ConditionKind::Bound),
            found => found,
        }
    }
}

/// The first index whose path has a condition of the kind in the top conjunction, with the first such condition.
fn first_index<'f>(filter: &'f Filter, indexes: &[Index], kind: ConditionKind) -> Plan<'f>
    ensures { plan_seen result ≡ first_place (has_kind kind) filter.now 0 (map (λ i. i.path) indexes.now) }
{
    for (place, index) in indexes.iter().enumerate() {
        if let Some(bounds) = first_in_filter(filter, index.path(), kind) {
            return Plan::Index { place, bounds };
        }
    }
    Plan::Scan
}

#[cycle(conjunction)]
fn first_in_filter<'f>(filter: &'f Filter, path: &Path, kind: ConditionKind) -> Option<Bounds<'f>>
    ensures { option_map bounds_seen result ≡ first_in (has_kind kind) path.now filter.now }
{
    for member in filter.members() {
        if let Some(bounds) = first_in_part(member, path, kind) {
            return Some(bounds);
        }
    }
    None
}

#[cycle(conjunction)]
#[tactic(auto, unfolding(crate::specs::Choice::first_in_member))]
fn first_in_part<'f>(part: &'f Member, path: &Path, kind: ConditionKind) -> Option<Bounds<'f>>
    ensures { option_map bounds_seen result ≡ first_in_member (has_kind kind) path.now (member part.now) }
{
    match part {
        Member::And(filters) => first_in_filters(filters, path, kind),
        Member::At(at, conditions) => {
            if !same_path(at.components(), path.components()) {
                return None;
            }
            first_of_kind(conditions, kind)
        }
        _ => None,
    }
}

#[cycle(conjunction)]
fn first_in_filters<'f>(
    filters: &'f Filters,
    path: &Path,
    kind: ConditionKind,
) -> Option<Bounds<'f>>
    ensures { option_map bounds_seen result ≡ first_in_all (has_kind kind) path.now filters.now }
{
    for filter in filters.as_slice() {
        if let Some(bounds) = first_in_filter(filter, path, kind) {
            return Some(bounds);
        }
    }
    None
}

fn first_of_kind<'f>(conditions: &'f Conditions, kind: ConditionKind) -> Option<Bounds<'f>>
    ensures { option_map bounds_seen result ≡ first_of (has_kind kind) conditions.now }
{
    for condition in conditions.as_slice() {
        if let Some(bounds) = bounds_of(condition, kind) {
            return Some(bounds);
        }
    }
    None
}

/// The bounds that a condition of the kind sets.
fn bounds_of<'f>(wanted: &'f Condition, kind: ConditionKind) -> Option<Bounds<'f>>
    ensures { option_map bounds_seen result ≡ (if has_kind kind (condition wanted.now) then Some (condition wanted.now) else None) }
{
    match (kind, wanted) {
        (ConditionKind::Point, Condition::Eq(value)) => Some(Bounds::Equal(value)),
        (ConditionKind::Point, Condition::In(choices)) => Some(Bounds::Among(choices)),
        (ConditionKind::Bound, Condition::Bound(range, value)) => Some(Bounds::Within(
            *range, value,
        )),
        _ => None,
    }
}

/// Whether the filter, whose plan has these bounds, is decided by them: they are its one condition, and are points. Takes no memory.
pub fn is_decided(filter: &Filter, bounds: Bounds<'_>) -> bool
    ensures { result ≡ (decided.is_one_condition filter.now && is_point (bounds_seen bounds.entry)) }
{
    let is_point = match bounds {
        Bounds::Equal(_) | Bounds::Among(_) => true,
        Bounds::Within(..) => false,
    };
    is_one_condition(filter) && is_point
}

/// Whether the filter is one condition under one path.
fn is_one_condition(filter: &Filter) -> bool
    ensures { result ≡ decided.is_one_condition filter.now }
{
    match filter.members() {
        [part] => is_one_under(part),
        _ => false,
    }
}

fn is_one_under(part: &Member) -> bool
    ensures { result ≡ decided.is_one_under (member part.now) }
{
    match part {
        Member::At(_, conditions) => is_alone(conditions),
        _ => false,
    }
}

fn is_alone(conditions: &Conditions) -> bool
    ensures { result ≡ decided.is_alone conditions.now }
{
    match conditions.as_slice() {
        [_] => true,
        _ => false,
    }
}

/// Whether two paths, by their components, are the same. Takes no memory.
pub fn same_path(first: &[Component], second: &[Component]) -> bool
    ensures { result ≡ choices.same_path first.now second.now }
{
    let mut rest = second;
    for component in first {
        let [next, behind @ ..] = rest else {
            return false;
        };
        if component.as_str() != next.as_str() {
            return false;
        }
        rest = behind;
    }
    rest.is_empty()
}
