//! Laws of stages at positions, each the contract of a function that does nothing: without the positions they are the stages of a
//! pipeline, and a change of their rows changes few of the rows that they return.

ghost use Rattle.std.specs.Prelude.{◌≡◌, ℕ, List, filter, map, take};
ghost use Rattle.std.specs.List.{flat_map};
ghost use Rattle.dv_match.specs.Filter.{Members};
ghost use Rattle.dv_match.specs.Match.{matches};
ghost use Rattle.dv_change.specs.Changes.{Positioned, forget};
ghost use Rattle.dv_change.specs.Inner.Bounds.{ChangesAtMost, ChangesWithin};
ghost use Rattle.dv_change.specs.Inner.Changes.{HaveOneLength, IsPositioned};
ghost use Rattle.dv_path.specs.SortSpec.{Part};
ghost use Rattle.dv_row.specs.declared.project.Project.{Project};
ghost use Rattle.dv_row.specs.declared.unwind.Unwind.{Unwind};
ghost use Rattle.dv_row.specs.Projecting.{projected};
ghost use Rattle.dv_row.specs.Unwinding.{unwound};
ghost use Rattle.dv_sort.specs.Sorting.{stable};
ghost use Rattle.dv_flow.specs.Inner.Bounds.{rows_unwound};
ghost use Rattle.dv_flow.specs.Placed.{front_at, matched_at, shown_at, sorted_at, unwound_at};

/// Without their positions, the rows that a stage returns at positions are those of the stage: the rows that match, each row after
/// the `$project`, the rows of elements, the rows in the order of a sort, the first rows.
#[tactic(auto, using(crate::proofs::Forgetting::match_forgets, crate::proofs::Forgetting::project_forgets, crate::proofs::Unwound::unwind_forgets, crate::proofs::Sorted::sort_forgets, crate::proofs::Limits::limit_forgets))]
pub fn rows_without_positions_are_those_of_the_stage()
    ensures matched { (form : Members) (rows : Positioned) → forget (matched_at form rows) ≡ filter (matches form) (forget rows) }
    ensures shown { (project : Project) (rows : Positioned) → forget (shown_at project rows) ≡ map (projected project) (forget rows) }
    ensures unwound { (unwind : Unwind) (rows : Positioned) → IsPositioned rows → HaveOneLength rows → forget (unwound_at unwind rows) ≡ flat_map (unwound unwind) (forget rows) }
    ensures sorted { (parts : List Part) (rows : Positioned) → IsPositioned rows → forget (sorted_at parts rows) ≡ stable parts (forget rows) }
    ensures first { (count : ℕ) (rows : Positioned) → forget (front_at count rows) ≡ take count (forget rows) }
{}

/// A change of a row changes at most one of the rows that match.
#[tactic(auto, using(crate::proofs::Bounds::match_bound))]
pub fn a_match_hands_on_one_change()
    ensures { (form : Members) → ChangesAtMost 1 (matched_at form) }
{}

/// A change of a row changes at most one of the rows after a `$project`.
#[tactic(auto, using(crate::proofs::Bounds::project_bound))]
pub fn a_project_hands_on_one_change()
    ensures { (project : Project) → ChangesAtMost 1 (shown_at project) }
{}

/// A change of a row changes at most as many rows of elements as an `$unwind` returns for the row that was there and for the row
/// that is there now, together.
#[tactic(auto, using(crate::proofs::Bounds::unwind_bound))]
pub fn an_unwind_hands_on_the_rows_of_a_row()
    ensures { (unwind : Unwind) → ChangesWithin (rows_unwound unwind) (unwound_at unwind) }
{}

/// A change of a row changes at most two of the sorted rows: one is removed, and one is inserted.
#[tactic(auto, using(crate::proofs::Bounds::sort_bound))]
pub fn a_sort_hands_on_two_changes()
    ensures { (parts : List Part) → ChangesAtMost 2 (sorted_at parts) }
{}

/// A change of a row changes at most two of the first rows: one is removed, and one is inserted.
#[tactic(auto, using(crate::proofs::LimitBound::limit_bound))]
pub fn a_limit_hands_on_two_changes()
    ensures { (count : ℕ) → ChangesAtMost 2 (front_at count) }
{}
