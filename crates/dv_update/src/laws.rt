//! What holds of updates, each the contract of a function that does nothing.

ghost use Rattle.std.specs.Prelude.{◌≡◌, ◌↔◌, ◌≤◌, true, false, List, [], ◌∷◌, ◌++◌, length, Ok, Err, codes};
ghost use Rattle.std.specs.Ordering.{ordering_reverse};
ghost use Rattle.std.specs.declared.cmp.Ordering.TheVariants.{Less, Equal};
ghost use Rattle.dv_value.specs.Spelling.{AreFields, Fits, spelling};
ghost use Rattle.dv_value.specs.Tree.{Tree, Field, fields_of, null};
ghost use Rattle.dv_path.specs.Laws.{IsFirst};
ghost use Rattle.dv_path.specs.Slots.{slot, taken};
ghost use Rattle.dv_update.specs.Apply.{Path, applied, changed, edited, set_at};
ghost use Rattle.dv_update.specs.Inner.Examples.{dollar_below_b, id_and, one_edit, one_inside_the_other, one_more_in_v, out_of_order, outcome, push_each_to_a, push_to_a, set_each, start, v_and_vw, with_a, with_v, with_x};
ghost use Rattle.dv_update.specs.Laws.{ExceedsDepth, ExceedsSize, have_same_id};
ghost use Rattle.dv_value.specs.Short.{doc, int, list, long};
ghost use Rattle.dv_update.specs.Parsing.{conflicts, has_conflict, in_order, update_of};
ghost use Rattle.dv_update.specs.PathOrder.{path_order};
ghost use Rattle.dv_path.specs.Apart.{remove_each};
ghost use Rattle.dv_update.specs.Removals.{edited_removals_last, other_edits, removals};
ghost use Rattle.dv_order.specs.Same.{is_same, same_fields};
ghost use Rattle.dv_update.specs.Update.{Edit, Update};
ghost use Rattle.dv_update.specs.declared.fault.UpdateFault.TheVariants.{BadName, BadOperand, Conflict, IdChanged, NotArray, NotNumber, NotViable, Overflow, TooDeep, TooLarge, UnknownOperator};

/// The order of paths is total: comparing two paths the other way round gives the reverse order; a path that comes before another
/// also comes before all paths after that one; and two paths are equal in the order exactly if they are the same.
#[tactic(auto, using(crate::proofs::Lawful::back, crate::proofs::Lawful::through, crate::proofs::Lawful::beside))]
pub fn paths_stand_in_a_total_order()
    ensures back { (p q : Path) → path_order p q ≡ ordering_reverse (path_order q p) }
    ensures through { (p q r : Path) → path_order p q ≡ Less → path_order q r ≡ Less → path_order p r ≡ Less }
    ensures beside { (p q : Path) → (path_order p q ≡ Equal) ↔ (p ≡ q) }
{}

/// If two adjacent edits without a conflict are written in the other order, the update is the same.
#[tactic(auto, using(crate::proofs::Lawful::traded))]
pub fn the_written_order_is_no_matter()
    ensures { (before after : List Edit) (d e : Edit) → conflicts d e ≡ false → in_order (before ++ d ∷ e ∷ after) ≡ in_order (before ++ e ∷ d ∷ after) }
{}

/// If no path begins or equals another one, removals may be made after all other edits.
pub fn removals_may_come_last()
    ensures { (edits : List Edit) (d : List Field) → has_conflict edits ≡ false → edited edits d ≡ edited_removals_last edits d }
{
    dv_path::laws::paths_that_part_are_independent();
}

/// If no path begins or equals another one, removals may be made before all other edits.
pub fn removals_may_come_first()
    ensures { (edits : List Edit) (d : List Field) → has_conflict edits ≡ false → edited edits d ≡ edited (other_edits edits) (remove_each d (removals edits)) }
{
    dv_path::laws::paths_that_part_are_independent();
}

/// `$set` of what is there changes nothing.
#[tactic(auto, using(crate::proofs::Lawful::set_again))]
pub fn setting_what_is_there_changes_nothing()
    ensures { (path : Path) (v : Tree) (d : List Field) → slot d path ≡ taken v → set_at path v d ≡ Ok d }
{}

/// The result of an update for a document begins with the document's `_id`, in the same encoding.
#[tactic(auto, using(crate::proofs::Lawful::id_stays))]
pub fn the_id_stays()
    ensures { (update : Update) (v : Tree) (others after : List Field) → applied update ((codes "_id", v) ∷ others) ≡ Ok after → IsFirst (codes "_id", v) after }
{}

/// The result of an update fits.
#[tactic(auto, using(crate::proofs::Lawful::fitting))]
pub fn what_comes_out_fits()
    ensures { (update : Update) (d after : List Field) → applied update d ≡ Ok after → Fits after }
{}

/// What fits and keeps its `_id` is the update's result; another `_id` is reported before size, and size before levels.
#[tactic(auto, using(crate::proofs::Lawful::kept, crate::proofs::Lawful::changed_first, crate::proofs::Lawful::size_next, crate::proofs::Lawful::depth_last))]
pub fn results_are_refused_in_order()
    ensures kept { (update : Update) (d after : List Field) → changed update d ≡ Ok after → have_same_id d after ≡ true → Fits after → applied update d ≡ Ok after }
    ensures another_id { (update : Update) (d after : List Field) → changed update d ≡ Ok after → have_same_id d after ≡ false → applied update d ≡ Err IdChanged }
    ensures too_large { (update : Update) (d after : List Field) → changed update d ≡ Ok after → have_same_id d after ≡ true → ExceedsSize after → applied update d ≡ Err TooLarge }
    ensures too_deep { (update : Update) (d after : List Field) → changed update d ≡ Ok after → have_same_id d after ≡ true → length (spelling after) ≤ 16777216 → ExceedsDepth after → applied update d ≡ Err TooDeep }
{}

/// The result of an update for a valid document is valid, if the update's own document is.
#[tactic(auto, using(crate::proofs::Sound::comes_out_valid))]
pub fn what_comes_out_is_valid()
    ensures { (fields d made : List Field) (form : Update) → AreFields (fields_of fields) → update_of fields ≡ Ok form → AreFields (fields_of d) → applied form d ≡ Ok made → AreFields (fields_of made) }
{}

/// `is_same` is true of two values exactly if they are equal, and `same_fields` of the fields of two documents.
#[tactic(auto, using(dv_order::specs::Inner::SameLaws::same_values, dv_order::specs::Inner::SameLaws::same_documents))]
pub fn sameness_is_equality()
    ensures values { (v w : Tree) → (is_same v w ≡ true) ↔ (v ≡ w) }
    ensures documents { (d e : List Field) → (same_fields (fields_of d) (fields_of e) ≡ true) ↔ (d ≡ e) }
{}

/// Updates of a document with an array.
#[tactic(auto, unfolding(crate::specs::Parsing::operator_named, dv_candidates::specs::Path::path_of, dv_candidates::specs::Path::index_of, dv_path::specs::Placing::put, dv_path::specs::Removing::remove, dv_path::specs::Slots::slot, dv_value::specs::Spelling::payload, dv_value::specs::Spelling::framed, dv_value::specs::Spelling::counted, dv_value::specs::Spelling::element_spelling))]
pub fn array_examples()
    ensures pull { outcome (one_edit (codes "$pull") (codes "a") (int 2)) start ≡ Ok (with_a (int 1 ∷ int 3 ∷ [])) }
    ensures push_each { outcome (push_each_to_a (int 4 ∷ int 5 ∷ [])) start ≡ Ok (with_a (int 1 ∷ int 2 ∷ long 2 ∷ int 3 ∷ int 4 ∷ int 5 ∷ [])) }
    ensures unset { outcome (one_edit (codes "$unset") (codes "a.1") (int 0)) start ≡ Ok (with_a (int 1 ∷ null ∷ long 2 ∷ int 3 ∷ [])) }
    ensures replaced { outcome ((codes "b", int 1) ∷ []) start ≡ Ok (id_and ((codes "b", int 1) ∷ [])) }
    ensures same_id { outcome (one_edit (codes "$set") (codes "_id") (int 1)) start ≡ Ok start }
    ensures conflict { outcome (set_each one_inside_the_other) start ≡ Err Conflict }
    ensures not_viable { outcome (one_edit (codes "$set") (codes "a.x") (int 1)) start ≡ Err NotViable }
    ensures another_id { outcome (one_edit (codes "$set") (codes "_id") (long 1)) start ≡ Err IdChanged }
    ensures replaced_with_another_id { outcome ((codes "_id", long 1) ∷ (codes "b", int 1) ∷ []) start ≡ Err IdChanged }
    ensures no_array { outcome (one_edit (codes "$push") (codes "_id") (int 1)) start ≡ Err NotArray }
    ensures null_is_no_array { outcome (one_edit (codes "$push") (codes "v") (int 1)) (with_v null) ≡ Err NotArray }
    ensures names_that_begin_alike { outcome (set_each v_and_vw) (id_and []) ≡ Ok (id_and v_and_vw) }
    ensures a_dollar_inside { outcome (one_edit (codes "$set") (codes "v$") (int 1)) (id_and []) ≡ Ok (id_and ((codes "v$", int 1) ∷ [])) }
    ensures a_dollar_below { outcome dollar_below_b (id_and []) ≡ Ok (id_and dollar_below_b) }
{}

/// An element of an array is removed if it passes a condition.
#[tactic(auto, unfolding(crate::specs::Parsing::operator_named, dv_match::specs::Parsing::test_in, dv_match::specs::Parsing::operators_in, dv_match::specs::Parsing::operator_named, dv_match::specs::Match::passes, dv_match::specs::Match::meets_all, dv_match::specs::Match::meets, dv_candidates::specs::Path::path_of, dv_candidates::specs::Path::index_of, dv_path::specs::Placing::put, dv_path::specs::Slots::slot, dv_value::specs::Spelling::payload, dv_value::specs::Spelling::framed, dv_value::specs::Spelling::counted, dv_value::specs::Spelling::element_spelling))]
pub fn condition_example()
    ensures { outcome (one_edit (codes "$pull") (codes "a") (doc ((codes "$gte", int 2) ∷ []))) start ≡ Ok (with_a (int 1 ∷ [])) }
{}

/// Sums at the ends of the widths, and what is no number.
#[tactic(auto, unfolding(crate::specs::Parsing::operator_named, dv_candidates::specs::Path::path_of, dv_candidates::specs::Path::index_of, dv_path::specs::Placing::put, dv_path::specs::Slots::slot, dv_value::specs::Spelling::payload, dv_value::specs::Spelling::framed, dv_value::specs::Spelling::counted, dv_value::specs::Spelling::element_spelling))]
pub fn sum_examples()
    ensures widened { outcome one_more_in_v (with_v (int 2147483647)) ≡ Ok (with_v (long 2147483648)) }
    ensures narrow { outcome one_more_in_v (with_v (int 2147483646)) ≡ Ok (with_v (int 2147483647)) }
    ensures too_great { outcome one_more_in_v (with_v (long 9223372036854775807)) ≡ Err Overflow }
    ensures no_number { outcome one_more_in_v ((codes "_id", int 3) ∷ (codes "v", list []) ∷ []) ≡ Err NotNumber }
{}

/// Paths are applied in their order, and nulls pad an array.
#[tactic(auto, unfolding(crate::specs::Parsing::operator_named, dv_candidates::specs::Path::path_of, dv_candidates::specs::Path::index_of, dv_path::specs::Placing::put, dv_path::specs::Slots::slot, dv_value::specs::Spelling::payload, dv_value::specs::Spelling::framed, dv_value::specs::Spelling::counted, dv_value::specs::Spelling::element_spelling))]
pub fn order_examples()
    ensures in_order { outcome (set_each out_of_order) (id_and []) ≡ Ok (id_and ((codes "b", int 3) ∷ (codes "x", doc ((codes "2", int 2) ∷ (codes "10", int 1) ∷ [])) ∷ [])) }
    ensures padded { outcome (one_edit (codes "$set") (codes "x.3") (int 1)) (with_x (int 0 ∷ [])) ≡ Ok (with_x (int 0 ∷ null ∷ null ∷ int 1 ∷ [])) }
{}

/// What is no update.
#[tactic(auto, unfolding(crate::specs::Parsing::operator_named, dv_candidates::specs::Path::path_of, dv_candidates::specs::Path::index_of, dv_match::specs::Parsing::test_in, dv_match::specs::Parsing::operators_in, dv_match::specs::Parsing::operator_named))]
pub fn fault_examples()
    ensures no_operator { outcome ((codes "$add", doc []) ∷ []) start ≡ Err UnknownOperator }
    ensures a_field_among_operators { outcome ((codes "$set", doc []) ∷ (codes "b", int 1) ∷ []) start ≡ Err UnknownOperator }
    ensures no_document { outcome ((codes "$set", int 1) ∷ []) start ≡ Err BadOperand }
    ensures empty_component { outcome (one_edit (codes "$set") (codes "a..b") (int 1)) start ≡ Err BadName }
    ensures dollar { outcome (one_edit (codes "$set") (codes "a.$") (int 1)) start ≡ Err BadName }
    ensures each_beside_another { outcome (push_to_a (doc ((codes "$each", list []) ∷ (codes "$slice", int 1) ∷ []))) start ≡ Err UnknownOperator }
    ensures each_of_no_array { outcome (push_to_a (doc ((codes "$each", int 1) ∷ []))) start ≡ Err BadOperand }
    ensures no_condition { outcome (one_edit (codes "$pull") (codes "a") (doc ((codes "$near", int 1) ∷ []))) start ≡ Err BadOperand }
    ensures each_behind_another { outcome (push_to_a (doc ((codes "$slice", int 1) ∷ (codes "$each", list []) ∷ []))) start ≡ Err UnknownOperator }
    ensures an_operand_before_a_conflict { outcome ((codes "$set", doc one_inside_the_other) ∷ (codes "$inc", doc ((codes "c", null) ∷ [])) ∷ []) start ≡ Err NotNumber }
    ensures a_path_before_its_operand { outcome (one_edit (codes "$inc") (codes "a..b") null) start ≡ Err BadName }
    ensures a_dot_in_a_replacement { outcome ((codes "b", doc ((codes "c.d", int 1) ∷ [])) ∷ []) start ≡ Err BadName }
{}
