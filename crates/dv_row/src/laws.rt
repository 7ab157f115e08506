//! What holds of the results of stages for one row. Each law is the contract of a function that does nothing.

ghost use Rattle.std.specs.Prelude.{◌≡◌, ◌≢◌, ◌⊎◌, ℕ, Bool, true, false, List, [], ◌∷◌, ◌++◌, ◌||◌, ◌&&◌, not, filter, map, Some, None, Ok, Err, codes};
ghost use Rattle.std.specs.Option.{IfSome};
ghost use Rattle.dv_value.specs.Names.{AreNamed, bare, has_name};
ghost use Rattle.dv_value.specs.Spelling.{IsValue};
ghost use Rattle.dv_value.specs.Tree.{Tree, array, document, null, Elements, no_elements, element, list_of_elements, Field, fields_of};
ghost use Rattle.dv_path.specs.Placing.{put};
ghost use Rattle.dv_path.specs.Removing.{remove};
ghost use Rattle.dv_row.specs.declared.fault.PipelineFault.TheVariants.{BadSpec};
ghost use Rattle.dv_row.specs.Inner.Examples.{named_a, named_b, named_id, row_of, shown};
ghost use Rattle.dv_value.specs.Short.{int, long, text, doc, list};
ghost use Rattle.dv_row.specs.declared.project.Project as projects;
ghost use Rattle.dv_row.specs.declared.project.Project.TheVariants.{Include};
ghost use Rattle.dv_row.specs.declared.unwind.Unwind as unwinds;
ghost use Rattle.dv_row.specs.ExpressionParsing.{expression_in};
ghost use Rattle.dv_row.specs.Expressions.{Expression, computed_of, value_of};
ghost use Rattle.dv_row.specs.Parsing.{unwind_in};
ghost use Rattle.dv_row.specs.Projecting.{projected};
ghost use Rattle.dv_row.specs.ProjectParsing.{project_in};
ghost use Rattle.dv_row.specs.Row.{Row};
ghost use Rattle.dv_row.specs.Inner.Shown.{AreNamesApart, AreUnmet, IsShownInside, IsShownWithin, Level, Paths, bare_levels, begins_at, computed_fields, ends_at, excluded, has_parts, ids_in, included, is_met, is_named, names};
ghost use Rattle.dv_row.specs.Inner.UnwoundRows.{dropping, preserving};
ghost use Rattle.dv_row.specs.Unwinding.{reached, unwound};
ghost use Rattle.dv_row.specs.Inner.Valid.{AreValid, IsValid};

/// The results for a valid row are valid, if the form was read from a valid value.
#[tactic(auto, using(crate::proofs::Sound::value_valid, crate::proofs::Sound::row_valid, crate::proofs::Sound::unwound_valid))]
pub fn what_comes_of_a_valid_row_is_valid()
    ensures values { (plain : Bool) (v : Tree) (e : Expression) (row : Row) → IsValue v → expression_in plain v ≡ Ok e → IsValid row → IfSome (value_of e row) IsValue }
    ensures projected { (v : Tree) (p : projects.Project) (row : Row) → IsValue v → project_in v ≡ Ok p → IsValid row → IsValid (projected p row) }
    ensures unwound { (u : unwinds.Unwind) (row : Row) → IsValid row → AreValid (unwound u row) }
{}

/// An `$unwind` returns a row for each element, in their order: the row with the element put in the array's place. For a value that
/// is no array it returns the row as it is.
#[tactic(auto, using(crate::proofs::ElementRows::a_row_each, crate::proofs::ElementRows::the_row_itself))]
pub fn each_element_has_its_row()
    ensures elements { (u : unwinds.Unwind) (row : Row) (v : Tree) (vs : Elements) → reached u.path row ≡ Some (array (element v vs)) → map (put row u.path) (v ∷ list_of_elements vs) ≡ map Ok (unwound u row) }
    ensures itself { (u : unwinds.Unwind) (row : Row) (v : Tree) → reached u.path row ≡ Some v → v ≢ null → ((vs : Elements) → v ≢ array vs) → unwound u row ≡ row ∷ [] }
{}

/// If the path leads to nothing, to null or to an empty array, no row is returned. If such rows are preserved, the row is returned:
/// as it is, or without the empty array. For other rows it makes no difference whether such rows are preserved.
#[tactic(auto, using(crate::proofs::ElementRows::no_row, crate::proofs::ElementRows::preserved_row, crate::proofs::ElementRows::without_the_array, crate::proofs::ElementRows::no_more))]
pub fn what_is_dropped_can_be_preserved()
    ensures dropped { (path : List (List ℕ)) (row : Row) → (reached path row ≡ None) ⊎ (reached path row ≡ Some null) ⊎ (reached path row ≡ Some (array no_elements)) → dropping path row ≡ [] }
    ensures preserved { (path : List (List ℕ)) (row : Row) → (reached path row ≡ None) ⊎ (reached path row ≡ Some null) → preserving path row ≡ row ∷ [] }
    ensures without_the_array { (path : List (List ℕ)) (row : Row) → reached path row ≡ Some (array no_elements) → preserving path row ≡ remove row path ∷ [] }
    ensures no_more { (path : List (List ℕ)) (row first : Row) (rest : List Row) → dropping path row ≡ first ∷ rest → preserving path row ≡ first ∷ rest }
{}

/// The fields of a row that a path names stay, each as it is. Documents and arrays stay if a path leads through them. Nothing else
/// stays, and the order is the row's.
#[tactic(auto, using(crate::proofs::ShownFields::included_names, crate::proofs::ShownFields::included_kept))]
pub fn included_fields_alone_stay()
    ensures names { (paths : Paths) (row : Row) → names (included paths row) ≡ names (filter (λ f. is_named paths f || is_met paths f && has_parts f.1) row) }
    ensures kept { (paths : Paths) (row : Row) → filter (is_named paths) (included paths row) ≡ filter (is_named paths) row }
{}

/// The fields that an excluded path names are removed, and no others. Fields that no path names or leads through stay as they are,
/// in the row's order.
#[tactic(auto, using(crate::proofs::ShownFields::excluded_names, crate::proofs::ShownFields::excluded_kept))]
pub fn excluded_fields_alone_go()
    ensures names { (paths : Paths) (row : Row) → names (excluded paths row) ≡ names (filter (λ f. not (is_named paths f)) row) }
    ensures kept { (paths : Paths) (row : Row) → filter (λ f. not (is_met paths f)) (excluded paths row) ≡ filter (λ f. not (is_met paths f)) row }
{}

/// A field that no excluded path begins with stays as it is, at its place, whatever becomes of the others.
#[tactic(auto, using(crate::proofs::Levels::excluded_stays))]
pub fn other_fields_stay_where_they_stand()
    ensures { (paths : Paths) (front back : Row) (f : Field) → is_met paths f ≡ false → excluded paths (front ++ f ∷ back) ≡ excluded paths front ++ f ∷ excluded paths back }
{}

/// Each field is shown independently of the others. If paths lead into a document, and none of them names it, the document is shown
/// as a row is, with the rest of these paths. The same holds for documents in it, at each level.
#[tactic(auto, using(crate::proofs::Levels::included_apart, crate::proofs::Levels::excluded_apart, crate::proofs::Levels::included_inside, crate::proofs::Levels::excluded_inside))]
pub fn documents_are_shown_as_rows()
    ensures included_apart { (paths : Paths) (front back : Row) → included paths (front ++ back) ≡ included paths front ++ included paths back }
    ensures excluded_apart { (paths : Paths) (front back : Row) → excluded paths (front ++ back) ≡ excluded paths front ++ excluded paths back }
    ensures included_inside { (paths : Paths) (name : List ℕ) (d : Row) → ends_at paths name ≡ false → begins_at paths name ≡ true
        → IsShownInside included paths name d }
    ensures excluded_inside { (paths : Paths) (name : List ℕ) (d : Row) → ends_at paths name ≡ false → begins_at paths name ≡ true
        → IsShownInside excluded paths name d }
{}

/// At any depth of documents, an included path that leads through the levels keeps at each of them only the document that it leads
/// into, and in the innermost one what the rest of the path keeps. An excluded path removes what its rest removes there, and
/// nothing else at any level. This requires that no other field of a level has the name that the path has there.
#[tactic(auto, using(crate::proofs::Levels::included_deep, crate::proofs::Levels::excluded_deep))]
pub fn paths_lead_through_levels()
    ensures included { (levels : List Level) (name : List ℕ) (rest : List (List ℕ)) (d : Row) → AreNamesApart levels
        → IsShownWithin included levels (bare_levels levels) name rest d }
    ensures excluded { (levels : List Level) (name : List ℕ) (rest : List (List ℕ)) (d : Row) → AreNamesApart levels
        → IsShownWithin excluded levels levels name rest d }
{}

/// If a stage doesn't name `_id`, then `_id` stays as it is, whether other fields are included, computed or excluded.
#[tactic(auto, using(crate::proofs::Ids::unasked_id_stays))]
pub fn an_id_that_is_not_asked_for_stays()
    ensures { (members row : List Field) (p : projects.Project) → project_in (document (fields_of members)) ≡ Ok p → has_name (codes "_id") members ≡ false
        → ids_in (projected p row) ≡ ids_in row }
{}

/// `_id` stays if another field is included or excluded. It is removed if it is excluded itself, alone or together with a field
/// that is included or excluded.
#[tactic(auto, using(crate::proofs::Worked::id_stays_included, crate::proofs::Worked::id_stays_excluded, crate::proofs::Worked::id_goes_alone, crate::proofs::Worked::id_goes_included, crate::proofs::Worked::id_goes_excluded))]
pub fn examples_of_ids()
    ensures stays_beside_included { (id a b : Tree) → shown (named_a (int 1) ∷ []) (row_of id a b) ≡ Ok (named_id id ∷ named_a a ∷ []) }
    ensures stays_beside_excluded { (id a b : Tree) → shown (named_a (int 0) ∷ []) (row_of id a b) ≡ Ok (named_id id ∷ named_b b ∷ []) }
    ensures goes_alone { (id a b : Tree) → shown (named_id (int 0) ∷ []) (row_of id a b) ≡ Ok (named_a a ∷ named_b b ∷ []) }
    ensures goes_beside_included { (id a b : Tree) → shown (named_a (int 1) ∷ named_id (int 0) ∷ []) (row_of id a b) ≡ Ok (named_a a ∷ []) }
    ensures goes_beside_excluded { (id a b : Tree) → shown (named_a (int 0) ∷ named_id (int 0) ∷ []) (row_of id a b) ≡ Ok (named_b b ∷ []) }
{}

/// After the included fields come the computed fields, in the stage's order, each with the value of its expression over the row. A
/// field without a value is left out. This requires that no two of their names are equal, and that no path begins with one of them.
#[tactic(auto, using(crate::proofs::ComputedFields::computed_stand_last))]
pub fn computed_fields_stand_last()
    ensures { (paths : Paths) (es : List (List ℕ × Expression)) (row : Row) → AreNamed (map (λ e. bare e.0) es) → AreUnmet paths es
        → projected (Include paths (computed_of es)) row ≡ included paths row ++ computed_fields es row }
{}

/// An array stays even if nothing in it does; an int64 includes or excludes a field; `_id` stays first, and computed fields come
/// last.
#[tactic(auto, using(crate::proofs::Worked::arrays_stay, crate::proofs::Worked::a_long_on, crate::proofs::Worked::a_long_off, crate::proofs::Worked::computed_behind))]
pub fn examples_of_showing()
    ensures arrays_stay { shown ((codes "a.c", int 1) ∷ (codes "b.c", int 1) ∷ []) (row_of (int 1) (list (int 7 ∷ [])) (list [])) ≡ Ok (row_of (int 1) (list []) (list [])) }
    ensures a_long_on { shown (named_a (long 1) ∷ []) (row_of (int 1) (int 5) (int 6)) ≡ Ok (named_id (int 1) ∷ named_a (int 5) ∷ []) }
    ensures a_long_off { shown (named_a (long 0) ∷ []) (row_of (int 1) (int 5) (int 6)) ≡ Ok (named_id (int 1) ∷ named_b (int 6) ∷ []) }
    ensures computed_behind { shown ((codes "x", text (codes "$b")) ∷ (codes "y", text (codes "$c")) ∷ named_a (int 1) ∷ []) (row_of (int 1) (int 5) (int 6)) ≡ Ok (named_id (int 1) ∷ named_a (int 5) ∷ (codes "x", int 6) ∷ []) }
{}

/// Forms that are refused: a dollar sign with no path after it, a switch inside a document, a computed field together with an
/// excluded one, a part of `_id`, null for a boolean.
#[tactic(auto, using(crate::proofs::Worked::a_dollar_alone, crate::proofs::Worked::an_empty_component, crate::proofs::Worked::a_switch_inside, crate::proofs::Worked::computed_after_excluded, crate::proofs::Worked::excluded_after_computed, crate::proofs::Worked::a_part_of_id, crate::proofs::Worked::unwinding_a_dollar, crate::proofs::Worked::preserving_null))]
pub fn forms_that_are_refused()
    ensures a_dollar_alone { project_in (doc ((codes "x", text (codes "$")) ∷ [])) ≡ Err BadSpec }
    ensures an_empty_component { project_in (doc ((codes "x", text (codes "$a..b")) ∷ [])) ≡ Err BadSpec }
    ensures a_switch_inside { project_in (doc ((codes "x", doc ((codes "y", long 1) ∷ [])) ∷ [])) ≡ Err BadSpec }
    ensures computed_after_excluded { project_in (doc ((codes "a", int 0) ∷ (codes "x", text (codes "$b")) ∷ [])) ≡ Err BadSpec }
    ensures excluded_after_computed { project_in (doc ((codes "x", text (codes "$b")) ∷ (codes "a", int 0) ∷ [])) ≡ Err BadSpec }
    ensures a_part_of_id { project_in (doc ((codes "_id.x", int 0) ∷ [])) ≡ Err BadSpec }
    ensures unwinding_a_dollar { unwind_in (text (codes "$")) ≡ Err BadSpec }
    ensures preserving_null { unwind_in (doc ((codes "path", text (codes "$a")) ∷ (codes "preserveNullAndEmptyArrays", null) ∷ [])) ≡ Err BadSpec }
{}
