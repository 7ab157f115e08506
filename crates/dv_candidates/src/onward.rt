//! Going on while only one way leads on: in a loop, since values may be nested thousands of levels deep.

ghost use Rattle.std.specs.Prelude.{◌≡◌, ◌≤◌, ◌<◌, Some, IfSome, MatchOption};
ghost use Rattle.dv_value.specs.Tree.{fields_of, elements_of};
ghost use Rattle.dv_value.specs.Inner.Tree.{fields_weight, elements_weight, weight};
ghost use Rattle.dv_value.specs.Tree as trees;
ghost use Rattle.dv_value.specs.View.{tree};
ghost use Rattle.dv_candidates.specs.Inner.Onward.{StandsFor};
ghost use Rattle.dv_candidates.specs.Inner.Places.{Reaches, ReachesElement, IsBefore, IsDocument, IsWithin};

use crate::component::Component;
use crate::places::Places;
use crate::walk::behind;
use dv_value::{Document, List, Value};

/// Where a walk is: at a value, from which what is left of a path goes on at each of the places.
#[derive(Clone, Copy)]
pub(crate) struct Stand<'p, 'v> {
    /// What is left of the path.
    pub(crate) components: &'p [Component],
    /// The places in it.
    pub(crate) places: Places,
    /// The value.
    pub(crate) value: &'v Value,
}

/// Where the walk is when it has gone on from a value for as long as only one way leads on.
pub(crate) fn along_one_way<'p, 'v>(
    components: &'p [Component],
    places: Places,
    value: &'v Value,
) -> Stand<'p, 'v>
    requires { IsWithin components.now places }
    ensures stand { StandsFor (Reaches components.now places (Some (tree value.now))) result }
    ensures weight { weight (tree result.value.now) ≤ weight (tree value.now) }
{
    let mut stand = Stand {
        components,
        places,
        value,
    };
    'way: while let Some(further) = next(stand) {
        stand = further;
    }
    stand
}

/// Where the walk is next, if only one way leads on from the value, and the value itself is no candidate.
fn next<'p, 'v>(stand: Stand<'p, 'v>) -> Option<Stand<'p, 'v>>
    requires { IsWithin stand.components.now stand.places }
    ensures stand { IfSome result (λ further. StandsFor (Reaches stand.entry.components.now stand.entry.places (Some (tree stand.entry.value.now))) further) }
    ensures weight { IfSome result (λ further. weight (tree further.value.now) < weight (tree stand.entry.value.now)) }
{
    if stand.places.has(stand.components.len()) {
        return None;
    }
    match stand.value {
        Value::Doc(document) => in_document(stand.components, stand.places, document),
        Value::Array(list) => in_list(stand.components, stand.places, list),
        _ => None,
    }
}

/// The same, for a document: if all places have one name, and there is a value under it.
fn in_document<'p, 'v>(
    components: &'p [Component],
    places: Places,
    document: &'v Document,
) -> Option<Stand<'p, 'v>>
    requires { IsBefore components.now places }
    ensures stand { IfSome result (λ stand. StandsFor (Reaches components.now places (Some (trees.document (fields_of document.now)))) stand) }
    ensures weight { IfSome result (λ stand. weight (tree stand.value.now) ≤ fields_weight (fields_of document.now)) }
{
    let name = places.sole_name(components)?;
    let value = document.get(name)?;
    Some(Stand {
        components: behind(components),
        places,
        value,
    })
}

/// The same, for an array: if it has one element.
fn in_list<'p, 'v>(
    components: &'p [Component],
    places: Places,
    list: &'v List,
) -> Option<Stand<'p, 'v>>
    requires { IsBefore components.now places }
    ensures stand { IfSome result (λ stand. StandsFor (Reaches components.now places (Some (trees.array (elements_of list.now)))) stand) }
    ensures weight { IfSome result (λ stand. weight (tree stand.value.now) ≤ elements_weight (elements_of list.now)) }
{
    match list.as_slice() {
        [element] => at_element(components, places, 0, element),
        _ => None,
    }
}

/// Where the walk is at an element of an array that it has reached at the places: after those that pick the element and, if this is
/// a document, at the places too. `None` if it is a document and a place would be beyond 63.
pub(crate) fn at_element<'p, 'v>(
    components: &'p [Component],
    places: Places,
    index: usize,
    element: &'v Value,
) -> Option<Stand<'p, 'v>>
    requires { IsBefore components.now places }
    ensures stand { MatchOption result (IsDocument (tree element.now)) (λ stand. StandsFor (ReachesElement components.now places index (tree element.now)) stand) }
    ensures value { IfSome result (λ stand. stand.value.now ≡ element.now) }
{
    let picking = places.picking(components, index);
    let Value::Doc(_) = element else {
        return Some(Stand {
            components: behind(components),
            places: picking,
            value: element,
        });
    };
    let both = places.with_behind(picking)?;
    Some(Stand {
        components,
        places: both,
        value: element,
    })
}
