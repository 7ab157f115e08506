//! What conditions are checked on.

ghost use Rattle.std.specs.Prelude.{◌≡◌, Bool};
ghost use Rattle.std.specs.List.{list_any};
ghost use Rattle.dv_candidates.specs.Candidates.{whole, leaves};
ghost use Rattle.dv_candidates.specs.Candidates as candidates;
ghost use Rattle.dv_candidates.specs.Answering.{Answers};
ghost use Rattle.dv_candidates.specs.View.{seen};
ghost use Rattle.dv_match.specs.Inner.Asked.{wholes, parts};

use dv_candidates::{Candidate, Path, any_leaf, any_whole, any_with_elements, sole_candidate};
use dv_value::{Document, Value};

/// What conditions are checked on.
#[derive(Clone, Copy)]
pub(crate) enum Subject<'a> {
    /// What the path leads to in the document.
    Path(&'a Document, &'a Path),
    /// The one candidate of a path.
    Sole(Candidate<'a>),
    /// An element by itself.
    Element(&'a Value),
}

impl<'a> Subject<'a> {
    /// What the path leads to in the document, looked up once for all conditions if there is no array on the way.
    pub(crate) fn of(document: &'a Document, path: &'a Path) -> Self
        ensures wholes { wholes result ≡ whole document.now path.now }
        ensures parts { parts result ≡ leaves document.now path.now }
    {
        match sole_candidate(document, path) {
            Some(candidate) => Subject::Sole(candidate),
            None => Subject::Path(document, path),
        }
    }
}

/// Whether one of the place's candidates passes.
pub(crate) fn any_candidate<F: Fn(Candidate<'_>) -> bool>(place: Subject<'_>, passes: F) -> bool
    requires { F.IsAlwaysCallable passes }
    ensures { (test : candidates.Candidate → Bool) → Answers seen (λ x b. F.post passes x b) test → result ≡ list_any test (wholes place.entry) }
{
    match place {
        Subject::Path(document, path) => any_whole(document, path, passes),
        Subject::Sole(candidate) => passes(candidate),
        Subject::Element(element) => passes(Candidate::Found(element)),
    }
}

/// Whether one of the place's leaves passes: a candidate of the path, or an element of one that is an array; or the
/// element by itself.
pub(crate) fn any_part<F: Fn(Candidate<'_>) -> bool>(place: Subject<'_>, passes: F) -> bool
    requires { F.IsAlwaysCallable passes }
    ensures { (test : candidates.Candidate → Bool) → Answers seen (λ x b. F.post passes x b) test → result ≡ list_any test (parts place.entry) }
{
    match place {
        Subject::Path(document, path) => any_leaf(document, path, passes),
        Subject::Sole(candidate) => any_with_elements(candidate, &passes),
        Subject::Element(element) => passes(Candidate::Found(element)),
    }
}
