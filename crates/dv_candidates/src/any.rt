//! Tests of the candidates of a path.

ghost use Rattle.std.specs.Prelude.{◌≡◌, Bool, Some, map};
ghost use Rattle.std.specs.List.{list_any};
ghost use Rattle.dv_candidates.specs.Candidates.{whole, leaves, with_elements};
ghost use Rattle.dv_candidates.specs.Candidates as candidates;
ghost use Rattle.dv_candidates.specs.Answering.{Answers};
ghost use Rattle.dv_candidates.specs.View.{seen};

use crate::candidate::Candidate;
use crate::path::Path;
use crate::walk::fold_ways;
use dv_value::{Document, List, Value};

/// Whether one of the path's candidates passes. Takes no memory, and tests each value of the document at most once for each of the
/// path's components.
pub fn any_whole<F: Fn(Candidate<'_>) -> bool>(document: &Document, path: &Path, passes: F) -> bool
    requires { F.IsAlwaysCallable passes }
    ensures { (test : candidates.Candidate → Bool) → Answers seen (λ x b. F.post passes x b) test → result ≡ list_any test (whole document.now path.now) }
{
    let stopped = fold_ways(document, path, (), |_, candidate| {
        if passes(candidate) { Err(()) } else { Ok(()) }
    });
    stopped.is_err()
}

/// Whether one of the path's leaves passes: a candidate, or an element of one that is an array. Takes no memory, and tests each
/// value of the document at most once for each of the path's components.
pub fn any_leaf<F: Fn(Candidate<'_>) -> bool>(document: &Document, path: &Path, passes: F) -> bool
    requires { F.IsAlwaysCallable passes }
    ensures { (test : candidates.Candidate → Bool) → Answers seen (λ x b. F.post passes x b) test → result ≡ list_any test (leaves document.now path.now) }
{
    any_whole(
        document,
        path,
        |candidate| any_with_elements(candidate, &passes),
    )
}

/// Whether the candidate passes, or an element of it if it is an array. Takes no memory.
pub fn any_with_elements<F: Fn(Candidate<'_>) -> bool>(candidate: Candidate<'_>, passes: &F) -> bool
    requires { F.IsAlwaysCallable passes.now }
    ensures { (test : candidates.Candidate → Bool) → Answers seen (λ x b. F.post passes.now x b) test → result ≡ list_any test (with_elements (seen candidate.entry)) }
{
    if passes(candidate) {
        return true;
    }
    let Candidate::Found(value) = candidate else {
        return false;
    };
    match value {
        Value::Array(list) => any_element(list, passes),
        _ => false,
    }
}

fn any_element<F: Fn(Candidate<'_>) -> bool>(list: &List, passes: &F) -> bool
    requires { F.IsAlwaysCallable passes.now }
    ensures { (test : candidates.Candidate → Bool) → Answers seen (λ x b. F.post passes.now x b) test → result ≡ list_any test (map Some list.now) }
{
    for element in list.as_slice() {
        if passes(Candidate::Found(element)) {
            return true;
        }
    }
    false
}
