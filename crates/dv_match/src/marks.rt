//! Values that candidates are compared with together. Each value to which a candidate is equal is marked. So a candidate is
//! compared with few of many values, without memory.

ghost use Rattle.std.specs.Prelude.{◌≡◌, ◌==◌, ◌||◌, ◌∷◌, [], ℕ, ◌<◌, ◌≤◌, MatchBool, Some, false, map, true};
ghost use Rattle.std.specs.List.{list_all};
ghost use Rattle.dv_value.specs.View.{tree};
ghost use Rattle.dv_candidates.specs.Candidates.{leaves, with_elements};
ghost use Rattle.dv_candidates.specs.View.{seen};
ghost use Rattle.dv_match.specs.Inner.Asked.{parts};
ghost use Rattle.dv_match.specs.Inner.Blocks.{IsBlock, Marked, has, has_equal, no_marks};
ghost use Rattle.dv_match.specs.Inner.Choices.{Ascend};

use crate::ascending::place_in_block;
use crate::place::Subject;
use dv_candidates::{Candidate, Path, fold_whole};
use dv_value::{Document, List, Value};

/// How many values are in a block at most: a bit for each.
const BLOCK: usize = 128;

/// The values of a block to which a checked candidate is equal: a bit for each place, from the lowest on.
#[derive(Clone, Copy)]
struct Marks {
    bits: u128,
}

impl Marks {
    /// Nothing was checked.
    const NONE: Marks = Marks { bits: 0 };

    /// Whether the value at the place has a mark.
    fn has(self, place: usize) -> bool
        requires { place < 128 }
        ensures { result ≡ has self place }
    {
        self.bits >> place & 1 == 1
    }

    /// Whether each of the first `count` values has a mark.
    fn are_on_first(self, count: usize) -> bool
        requires { count ≤ 128 }
        ensures { MatchBool result ((k : ℕ) → k < count → has self k ≡ true) ((k : ℕ) × (k < count) × (has self k ≡ false)) }
    {
        for place in 0..count {
            if !self.has(place) {
                return false;
            }
        }
        true
    }

    /// These marks, and one for the value at the place.
    fn with(self, place: usize) -> Self
        requires { place < 128 }
        ensures { (k : ℕ) → has result k ≡ (has self k || k == place) }
    {
        Marks {
            bits: self.bits | 1 << place,
        }
    }

    /// These marks, and one for the value of the block that compares equal to this one.
    fn with_value(self, block: &[Value], value: &Value) -> Self
        requires { IsBlock block.now }
        ensures { Marked block.now (Some (tree value.now) ∷ []) self result }
    {
        match place_in_block(block, value) {
            Some(place) => self.with(place),
            None => self,
        }
    }

    /// These marks, and one for the value of the block that a candidate compares equal to.
    fn with_candidate(self, block: &[Value], candidate: Candidate<'_>) -> Self
        requires { IsBlock block.now }
        ensures { Marked block.now (seen candidate.entry ∷ []) self result }
    {
        match candidate {
            Candidate::Found(value) => self.with_value(block, value),
            Candidate::Missing => self.with_value(block, &Value::Null),
        }
    }

    /// These marks, and those for a candidate and, if it is an array, its elements.
    fn with_elements(self, block: &[Value], candidate: Candidate<'_>) -> Self
        requires { IsBlock block.now }
        ensures { Marked block.now (with_elements (seen candidate.entry)) self result }
    {
        let marks = self.with_candidate(block, candidate);
        let Candidate::Found(value) = candidate else {
            return marks;
        };
        match value {
            Value::Array(list) => marks.with_each(block, list),
            _ => marks,
        }
    }

    fn with_each(self, block: &[Value], list: &List) -> Self
        requires { IsBlock block.now }
        ensures { Marked block.now (map Some list.now) self result }
    {
        let mut marks = self;
        for element in list.as_slice() {
            marks = marks.with_value(block, element);
        }
        marks
    }
}

/// Whether each of the values, which ascend, compares equal to some leaf. Checks the leaves once for each 128 values, and compares
/// most leaves with two values.
pub(crate) fn have_equals(place: Subject<'_>, values: &[Value]) -> bool
    requires { Ascend values.now }
    ensures { result ≡ list_all (has_equal (parts place.entry)) values.now }
{
    let mut left = values;
    'each_block: while !left.is_empty() {
        let (block, further) = left.split_at(left.len().min(BLOCK));
        if !marks_of(place, block).are_on_first(block.len()) {
            return false;
        }
        left = further;
    }
    true
}

/// The marks for the leaves of a place.
fn marks_of(place: Subject<'_>, block: &[Value]) -> Marks
    requires { IsBlock block.now }
    ensures { Marked block.now (parts place.entry) no_marks result }
{
    match place {
        Subject::Path(document, path) => marks_along(document, path, block),
        Subject::Sole(candidate) => Marks::NONE.with_elements(block, candidate),
        Subject::Element(element) => Marks::NONE.with_value(block, element),
    }
}

/// The marks for the leaves of a path.
fn marks_along(document: &Document, path: &Path, block: &[Value]) -> Marks
    requires { IsBlock block.now }
    ensures { Marked block.now (leaves document.now path.now) no_marks result }
{
    let all = fold_whole(
        document,
        path,
        Marks::NONE,
        |marks: Marks, candidate: Candidate<'_>| -> Result<Marks, ()> {
            Ok(marks.with_elements(block, candidate))
        },
    );
    let Ok(marks) = all else { unreachable!() };
    marks
}
