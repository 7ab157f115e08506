//! What holds of indexes and of the finds that they answer, each the contract of a function that does nothing.

ghost use Rattle.std.specs.Prelude.{◌≡◌, ◌≤◌, ◌||◌, ◌++◌, ◌∷◌, [], ℕ, Bool, true, false, codes, filter as kept, length, List, IsSome, None, Ok, Some};
ghost use Rattle.std.specs.List.{flat_map};
ghost use Rattle.std.specs.List.Sorted.{IsStrictlySortedBy};
ghost use Rattle.std.specs.Ordering.{is_eq};
ghost use Rattle.std.specs.Str.{bytes_eq};
ghost use Rattle.dv_value.specs.Tree.{Field, null};
ghost use Rattle.dv_coll.specs.Collection.{IsAscending, found, id_key, inserted, removed, replaced};
ghost use Rattle.dv_value.specs.Short.{doc, int, list, long, one};
ghost use Rattle.dv_match.specs.Filter.{Members};
ghost use Rattle.dv_match.specs.Match.{matches};
ghost use Rattle.dv_order.specs.Key.{KeyTree, key_order};
ghost use Rattle.dv_keyed.specs.Choice.{chosen};
ghost use Rattle.dv_index.specs.Inner.Examples.{are_one_key, break_it, clash_beside_it, covered_by, index_for, replaced_clash, three_indexes};
ghost use Rattle.dv_keyed.specs.Index.{IndexForm, id_form};
ghost use Rattle.dv_keyed.specs.Inner.Index.{IndexTree};
ghost use Rattle.dv_index.specs.Indexed.{IndexedTree, documents_covered, without_index};
ghost use Rattle.dv_keyed.specs.Inner.Keys.{has_key};
ghost use Rattle.dv_keyed.specs.Inner.Pairs.{has_pair};
ghost use Rattle.dv_keyed.specs.Within.{has_within};
ghost use Rattle.dv_index.specs.Inner.Indexed.{AreUnbroken, BreaksNone, has_index_named, index_on};
ghost use Rattle.dv_index.specs.Inner.Search.{IsIndexOf};
ghost use Rattle.dv_index.specs.Unique.{are_broken};

pub use dv_keyed::laws::{
    a_closed_range_is_decided_by_its_ends, a_key_in_the_bounds_is_of_a_leaf_there,
    an_only_key_is_in_all_bounds, keys_are_in_the_bounds_of_their_values, keys_by_example,
    leaves_are_found_by_keys, one_condition_is_decided_by_its_bounds,
    what_matches_is_in_the_bounds,
};

/// A find covers all documents that match, and no more than there are.
#[tactic(auto, using(crate::proofs::Counted::at_most))]
pub fn a_find_covers_what_it_finds()
    ensures at_least { (filter : Members) (c : IndexedTree) → length (kept (matches filter) c.documents) ≤ documents_covered filter c }
    ensures at_most { (filter : Members) (c : IndexedTree) → documents_covered filter c ≤ length c.documents }
{
    what_matches_is_in_the_bounds();
}

/// In a list in ascending order, the documents whose `_id`s have one of some ascending keys are those of each key, one key after
/// the other.
pub fn documents_are_found_key_by_key()
    ensures { (keys : List KeyTree) (ds : List (List Field)) → IsStrictlySortedBy key_order keys → IsAscending ds → flat_map (λ k. kept (λ d. is_eq (key_order (id_key d) k)) ds) keys ≡ kept (λ d. has_key (id_key d) keys) ds }
{}

/// The contents of an index depend only on its path and on the documents: one that was kept through changes has the pairs of one
/// that is newly made.
#[tactic(auto, using(crate::proofs::Built::same_pairs))]
pub fn an_index_made_anew_is_the_same()
    ensures { (x y : IndexTree) (ds : List (List Field)) → x.path ≡ y.path → IsIndexOf x ds → IsIndexOf y ds → (k id : KeyTree) → has_pair k id x.pairs ≡ has_pair k id y.pairs }
{}

/// An index that is made and dropped leaves the others as they were, and the one on `_id` is never dropped. If others were made
/// after an index, dropping it removes it alone.
#[tactic(auto, using(crate::proofs::Built::none_dropped))]
pub fn indexes_come_and_go()
    ensures others { (name : List ℕ) (path : List (List ℕ)) (unique : Bool) (xs : List IndexForm) → bytes_eq name id_form.name ≡ false → has_index_named name xs ≡ false
        → without_index name (xs ++ index_on name path unique ∷ []) ≡ xs }
    ensures on_id { (xs : List IndexForm) → without_index id_form.name xs ≡ xs }
    ensures between { without_index (codes "a_1") three_indexes ≡ id_form ∷ index_on (codes "b_1") (codes "b" ∷ []) false ∷ [] }
{}

/// A document that is inserted without a clash breaks no unique index.
#[tactic(auto, using(crate::proofs::Apart::insert_breaks_nothing))]
pub fn an_insert_without_a_clash_breaks_nothing()
    ensures { (indexes : List IndexForm) (d : List Field) (ds : List (List Field)) → IsAscending ds → found (id_key d) ds ≡ None
        → BreaksNone indexes d ds (inserted d ds) }
{}

/// Nor does one that is put in place of another.
#[tactic(auto, using(crate::proofs::Apart::replacement_breaks_nothing))]
pub fn a_replacement_without_a_clash_breaks_nothing()
    ensures { (indexes : List IndexForm) (d : List Field) (ds : List (List Field)) → IsAscending ds → IsSome (found (id_key d) ds)
        → BreaksNone indexes d ds (replaced d ds) }
{}

/// A document that is removed breaks none.
pub fn a_removal_breaks_nothing()
    ensures { (indexes : List IndexForm) (k : KeyTree) (ds : List (List Field)) → AreUnbroken indexes ds → AreUnbroken indexes (removed k ds) }
{}

/// Without documents none is broken.
#[tactic(auto, using(crate::proofs::Apart::nothing_broken))]
pub fn nothing_is_broken_by_no_document()
    ensures { (indexes : List IndexForm) → AreUnbroken indexes [] }
{}

/// If none of a list of indexes is broken, none of some of them is.
#[tactic(auto, using(crate::proofs::Apart::fewer_break))]
pub fn fewer_indexes_break_no_more()
    ensures { (p : IndexForm → Bool) (indexes : List IndexForm) (ds : List (List Field)) → AreUnbroken indexes ds → AreUnbroken (kept p indexes) ds }
{}

/// Of two lists of indexes joined, one is broken exactly if one of the first list or one of the other is.
#[tactic(auto, using(crate::proofs::Apart::one_by_one))]
pub fn indexes_break_one_by_one()
    ensures { (xs ys : List IndexForm) (ds : List (List Field)) → are_broken (xs ++ ys) ds ≡ (are_broken xs ds || are_broken ys ds) }
{}

/// Which of three indexes answers a filter: an equality has precedence over a range, and otherwise the index that was made first.
#[tactic(auto, unfolding(dv_match::specs::Parsing::filter_in, dv_match::specs::Parsing::filters_in, dv_match::specs::Parsing::each_filter, dv_match::specs::Parsing::filter_of, dv_match::specs::Parsing::conditions_in, dv_match::specs::Parsing::operators_in, dv_match::specs::Parsing::member_named, dv_match::specs::Parsing::operator_named, dv_candidates::specs::Path::path_of, dv_keyed::specs::Choice::chosen, dv_keyed::specs::Choice::first_in, dv_keyed::specs::Choice::first_in_member, dv_keyed::specs::Choice::first_in_all))]
pub fn plans_by_example()
    ensures equality_before_range { index_for ((codes "a", doc (one (codes "$gt") (int 1))) ∷ (codes "b", int 1) ∷ []) ≡ Ok (Some (codes "b_1")) }
    ensures made_first { index_for ((codes "b", int 1) ∷ (codes "a", int 1) ∷ []) ≡ Ok (Some (codes "a_1")) }
    ensures made_first_of_ranges { index_for ((codes "b", doc (one (codes "$lt") (int 1))) ∷ (codes "a", doc (one (codes "$gte") (int 1))) ∷ []) ≡ Ok (Some (codes "a_1")) }
    ensures on_id { index_for ((codes "a", int 1) ∷ (codes "_id", int 1) ∷ []) ≡ Ok (Some (codes "_id_")) }
    ensures of_none { index_for (one (codes "a") (doc (one (codes "$in") (list [])))) ≡ Ok (Some (codes "a_1")) }
    ensures below_and { index_for (one (codes "$and") (list (doc (one (codes "$and") (list (doc (one (codes "b") (int 1)) ∷ []))) ∷ []))) ≡ Ok (Some (codes "b_1")) }
    ensures below_or { index_for (one (codes "$or") (list (doc (one (codes "a") (int 1)) ∷ []))) ≡ Ok None }
    ensures a_longer_path { index_for (one (codes "a.b") (int 1)) ≡ Ok None }
    ensures another_condition { index_for (one (codes "a") (doc (one (codes "$ne") (int 1)))) ≡ Ok None }
{}

/// Three documents with an array, 4 and 1 as `a`: only the first bound counts, and a document is covered once, whatever its
/// elements.
#[tactic(auto, unfolding(dv_match::specs::Parsing::filter_in, dv_match::specs::Parsing::filter_of, dv_match::specs::Parsing::conditions_in, dv_match::specs::Parsing::operators_in, dv_match::specs::Parsing::member_named, dv_match::specs::Parsing::operator_named, dv_candidates::specs::Path::path_of, dv_candidates::specs::Path::index_of, dv_candidates::specs::Candidates::whole, dv_candidates::specs::Candidates::leaves, dv_keyed::specs::Choice::chosen, dv_keyed::specs::Choice::first_in, dv_keyed::specs::Choice::first_in_member, dv_keyed::specs::Choice::first_in_all, crate::specs::Search::covered, dv_keyed::specs::Within::has_within))]
pub fn covered_by_example()
    ensures first_bound { covered_by three_indexes (one (codes "a") (doc ((codes "$gt", int 1) ∷ (codes "$lt", int 3) ∷ []))) ≡ Ok 2 }
    ensures other_bound_first { covered_by three_indexes (one (codes "a") (doc ((codes "$lt", int 3) ∷ (codes "$gt", int 4) ∷ []))) ≡ Ok 2 }
    ensures each_once { covered_by three_indexes (one (codes "a") (doc (one (codes "$gte") (int 0)))) ≡ Ok 3 }
    ensures missing_as_null { covered_by three_indexes (one (codes "b") null) ≡ Ok 3 }
    ensures on_id { covered_by three_indexes (one (codes "_id") (int 2)) ≡ Ok 1 }
    ensures range_of_ids { covered_by three_indexes (one (codes "_id") (doc (one (codes "$gt") (int 2)))) ≡ Ok 1 }
    ensures no_index { covered_by (id_form ∷ []) (one (codes "a") (int 7)) ≡ Ok 3 }
{}

/// Two documents break a unique index on `a` if they have one number in two widths, an element in common, or an array whole in the
/// one and as an element in the other, or if each has no `a` or null. Different numbers do not break it, and no document breaks it
/// by itself. If both get another number, the second may get the one that the first had, but not the one that the first gets.
#[tactic(auto, unfolding(dv_candidates::specs::Path::index_of, dv_candidates::specs::Candidates::whole, dv_candidates::specs::Candidates::leaves, dv_path::specs::LeafKeys::is_leaf_key, dv_path::specs::LeafKeys::leaf_values, crate::specs::Unique::share_key))]
pub fn unique_keys_by_example()
    ensures two_widths { are_one_key (int 5) (long 5) ≡ true }
    ensures other_number { are_one_key (int 5) (int 6) ≡ false }
    ensures element { are_one_key (list (int 1 ∷ int 2 ∷ [])) (int 2) ≡ true }
    ensures whole_array { are_one_key (list (list (int 1 ∷ []) ∷ [])) (list (int 1 ∷ [])) ≡ true }
    ensures other_elements { are_one_key (list (int 1 ∷ int 2 ∷ [])) (list (int 3 ∷ [])) ≡ false }
    ensures both_missing { break_it [] [] ≡ true }
    ensures missing_as_null { break_it [] (one (codes "a") null) ≡ true }
    ensures another_document { clash_beside_it 2 ≡ true }
    ensures itself { clash_beside_it 1 ≡ false }
    ensures in_turn { replaced_clash 7 5 ≡ false }
    ensures to_one_number { replaced_clash 7 7 ≡ true }
{}
