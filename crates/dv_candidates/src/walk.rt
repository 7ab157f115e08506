//! Walking into a document once, whatever the number of ways that a path has in it.

ghost use Rattle.std.specs.Prelude.{◌≡◌, Some, drop};
ghost use Rattle.dv_value.specs.Tree.{fields_of, elements_of};
ghost use Rattle.dv_value.specs.Tree as trees;
ghost use Rattle.dv_value.specs.View.{tree};
ghost use Rattle.dv_candidates.specs.Candidates.{whole};
ghost use Rattle.dv_candidates.specs.Inner.Fold.{Folded, PassesOne};
ghost use Rattle.dv_candidates.specs.Inner.Places.{Reaches, ReachesElement, IsBefore, IsWithin};
ghost use Rattle.dv_candidates.specs.View.{seen};

use crate::candidate::Candidate;
use crate::component::Component;
use crate::onward::{Stand, along_one_way, at_element};
use crate::path::Path;
use crate::places::Places;
use crate::sole::sole_candidate;
use dv_value::{Document, List, Value};

/// Folds the candidates of the path as a set: `f` takes the value so far and a candidate, and returns the next value. The order of
/// the candidates is not specified, and one may be taken more or less often than it is listed. Stops at the first error of `f`, and
/// returns it.
pub fn fold_whole<T, E, F>(document: &Document, path: &Path, seed: T, f: F) -> Result<T, E>
where
    F: Fn(T, Candidate<'_>) -> Result<T, E>,
    requires { F.IsAlwaysCallable f }
    ensures { Folded seen (λ t x r. F.post f t x r) (PassesOne (whole document.now path.now)) seed result }
{
    match sole_candidate(document, path) {
        // Most ways meet no array, and sets of places cost more than a look-up.
        Some(candidate) => f(seed, candidate),
        None => fold_ways(document, path, seed, f),
    }
}

/// The same, for a path that may have many ways.
pub(crate) fn fold_ways<T, E, F>(document: &Document, path: &Path, seed: T, f: F) -> Result<T, E>
where
    F: Fn(T, Candidate<'_>) -> Result<T, E>,
    requires { F.IsAlwaysCallable f }
    ensures { Folded seen (λ t x r. F.post f t x r) (PassesOne (whole document.now path.now)) seed result }
{
    fold_document(path.components(), Places::FIRST, document, seed, &f)
}

/// Folds the candidates that the rest of the path, from each of the places on, has from a value.
#[cycle(walk)]
fn fold_value<T, E, F>(
    components: &[Component],
    places: Places,
    value: &Value,
    so_far: T,
    f: &F,
) -> Result<T, E>
where
    F: Fn(T, Candidate<'_>) -> Result<T, E>,
    requires callable { F.IsAlwaysCallable f.now }
    requires within { IsWithin components.now places }
    ensures { Folded seen (λ t x r. F.post f.now t x r) (Reaches components.now places (Some (tree value.now))) so_far result }
{
    let Stand {
        components,
        places,
        value,
    } = along_one_way(components, places, value);
    let inside = places.before_end(components);
    if !places.has(components.len()) {
        return fold_inside(components, inside, value, so_far, f);
    }
    let so_far = f(so_far, Candidate::Found(value))?;
    fold_inside(components, inside, value, so_far, f)
}

/// The same, if each place has a component.
#[cycle(walk)]
fn fold_inside<T, E, F>(
    components: &[Component],
    places: Places,
    value: &Value,
    so_far: T,
    f: &F,
) -> Result<T, E>
where
    F: Fn(T, Candidate<'_>) -> Result<T, E>,
    requires callable { F.IsAlwaysCallable f.now }
    requires before { IsBefore components.now places }
    ensures { Folded seen (λ t x r. F.post f.now t x r) (Reaches components.now places (Some (tree value.now))) so_far result }
{
    if places.is_empty() {
        return Ok(so_far);
    }
    match value {
        Value::Doc(document) => fold_document(components, places, document, so_far, f),
        Value::Array(list) => fold_list(components, places, list, so_far, f),
        _ => f(so_far, Candidate::Missing),
    }
}

#[cycle(walk)]
fn fold_document<T, E, F>(
    components: &[Component],
    places: Places,
    document: &Document,
    so_far: T,
    f: &F,
) -> Result<T, E>
where
    F: Fn(T, Candidate<'_>) -> Result<T, E>,
    requires callable { F.IsAlwaysCallable f.now }
    requires before { IsBefore components.now places }
    ensures { Folded seen (λ t x r. F.post f.now t x r) (Reaches components.now places (Some (trees.document (fields_of document.now)))) so_far result }
{
    let mut folded = so_far;
    let mut missing = false;
    let mut done = Places::NONE;
    'places: for (place, component) in components.iter().enumerate() {
        if !places.has(place) || done.has(place) {
            continue;
        }
        let name = component.as_str();
        match document.get(name) {
            None => missing = true,
            Some(value) => {
                let same = places.named(components, name);
                done = done.with(same);
                folded = fold_value(behind(components), same, value, folded, f)?;
            }
        }
    }
    if missing {
        f(folded, Candidate::Missing)
    } else {
        Ok(folded)
    }
}

#[cycle(walk)]
fn fold_list<T, E, F>(
    components: &[Component],
    places: Places,
    list: &List,
    so_far: T,
    f: &F,
) -> Result<T, E>
where
    F: Fn(T, Candidate<'_>) -> Result<T, E>,
    requires callable { F.IsAlwaysCallable f.now }
    requires before { IsBefore components.now places }
    ensures { Folded seen (λ t x r. F.post f.now t x r) (Reaches components.now places (Some (trees.array (elements_of list.now)))) so_far result }
{
    let mut folded = so_far;
    'elements: for (index, element) in list.as_slice().iter().enumerate() {
        folded = fold_element(components, places, index, element, folded, f)?;
    }
    Ok(folded)
}

/// Folds the candidates of an element of an array that the walk has reached at the places.
#[cycle(walk)]
fn fold_element<T, E, F>(
    components: &[Component],
    places: Places,
    index: usize,
    element: &Value,
    so_far: T,
    f: &F,
) -> Result<T, E>
where
    F: Fn(T, Candidate<'_>) -> Result<T, E>,
    requires callable { F.IsAlwaysCallable f.now }
    requires before { IsBefore components.now places }
    ensures { Folded seen (λ t x r. F.post f.now t x r) (ReachesElement components.now places index (tree element.now)) so_far result }
{
    if let Some(stand) = at_element(components, places, index, element) {
        return fold_value(stand.components, stand.places, stand.value, so_far, f);
    }
    let so_far = fold_inside(components, places, element, so_far, f)?;
    let picking = places.picking(components, index);
    fold_value(behind(components), picking, element, so_far, f)
}

/// The components after the first one; none if there is none.
pub fn behind(components: &[Component]) -> &[Component]
    ensures { result.now ≡ drop 1 components.now }
{
    match components {
        [_, behind @ ..] => behind,
        [] => components,
    }
}
