//! The one candidate of a path that leads through no array.

ghost use Rattle.std.specs.Prelude.{◌≡◌, ◌∷◌, [], ℕ, List, Some, IfSome, IsSome};
ghost use Rattle.dv_value.specs.Names.{value_under};
ghost use Rattle.dv_value.specs.Tree.{document as tree_of, fields_of};
ghost use Rattle.dv_candidates.specs.Candidates.{step_from, whole};
ghost use Rattle.dv_candidates.specs.View.{seen};
ghost use Rattle.dv_candidates.specs.Ways.{HasNoArray};

use crate::candidate::Candidate;
use crate::component::Component;
use crate::path::Path;
use crate::walk::behind;
use dv_value::{Document, Value};

/// The one candidate of the path in the document, if there is no array on the way, except at its end; `None` if there is one. Takes
/// no memory.
pub fn sole_candidate<'a>(document: &'a Document, path: &Path) -> Option<Candidate<'a>>
    ensures sole { IfSome result (λ candidate. whole document.now path.now ≡ seen candidate ∷ []) }
    ensures some { HasNoArray path.now (Some (tree_of (fields_of document.now))) → IsSome result }
{
    let components = path.components();
    let mut candidate = field(document, &components[0]);
    for component in behind(components) {
        candidate = next(candidate, component)?;
    }
    Some(candidate)
}

/// The candidate one component further; `None` for an array.
fn next<'a>(candidate: Candidate<'a>, component: &Component) -> Option<Candidate<'a>>
    ensures sole { IfSome result (λ next. step_from component.now (seen candidate.entry) ≡ seen next ∷ []) }
    ensures some { (names : List (List ℕ)) → HasNoArray (component.now ∷ names) (seen candidate.entry) → IsSome result }
    ensures on { IfSome result (λ next. (names : List (List ℕ)) → HasNoArray (component.now ∷ names) (seen candidate.entry) → HasNoArray names (seen next)) }
{
    let Candidate::Found(value) = candidate else {
        return Some(Candidate::Missing);
    };
    match value {
        Value::Doc(document) => Some(field(document, component)),
        Value::Array(_) => None,
        _ => Some(Candidate::Missing),
    }
}

/// What is under the component's name.
fn field<'a>(document: &'a Document, component: &Component) -> Candidate<'a>
    ensures { seen result ≡ value_under component.now document.now }
{
    match document.get(component.as_str()) {
        Some(value) => Candidate::Found(value),
        None => Candidate::Missing,
    }
}
