//! What holds of filters and of the documents that match them. Each law is the contract of a function that does nothing.

ghost use Rattle.std.specs.Prelude.{◌≡◌, ℕ, not, true, false, List, [], ◌∷◌, codes, Ok, Err};
ghost use Rattle.dv_value.specs.Tree.{Tree, Field, boolean, fields_of, null};
ghost use Rattle.dv_match.specs.declared.fault.FilterFault.TheVariants.{BadPath, EmptyList, UnknownOperator};
ghost use Rattle.dv_match.specs.Parsing.{filter_in};
ghost use Rattle.dv_candidates.specs.Candidates.{Candidate, whole, leaves};
ghost use Rattle.dv_candidates.specs.Inner.Examples.{b_alone, two_in_a_list};
ghost use Rattle.dv_match.specs.Inner.Examples.{a_alone, a_by, answer, document_in_a, number_in_a_list, some_element_above, some_element_with_b};
ghost use Rattle.dv_value.specs.Short.{one, doc, list, int};
ghost use Rattle.dv_match.specs.declared.range.Range.{Range};
ghost use Rattle.dv_match.specs.Filter.{Members, no_members, none_of, no_filters, more_filters, Conditions, equal, unequal, among, not_among, unmet};
ghost use Rattle.dv_match.specs.Laws.{MeetsNoArray, is_in_both, two_bounds, value_at_end};
ghost use Rattle.dv_match.specs.Match.{matches, matches_member, meets, meets_all};

/// `$ne`, `$nin` and `$not` match exactly what the operators that they deny do not match.
#[tactic(auto, unfolding(crate::specs::Match::meets))]
pub fn denials()
    ensures ne { (v : Tree) (wholes parts : List Candidate) → meets (unequal v) wholes parts ≡ not (meets (equal v) wholes parts) }
    ensures nin { (vs : List Tree) (wholes parts : List Candidate) → meets (not_among vs) wholes parts ≡ not (meets (among vs) wholes parts) }
    ensures negated { (cs : Conditions) (wholes parts : List Candidate) → meets (unmet cs) wholes parts ≡ not (meets_all cs wholes parts) }
{}

/// `$in` of one value is `$eq`, and `$in` of no values matches nothing.
#[tactic(auto, using(crate::proofs::Few::among_one, crate::proofs::Few::among_none))]
pub fn in_of_few()
    ensures one { (v : Tree) (wholes parts : List Candidate) → meets (among (v ∷ [])) wholes parts ≡ meets (equal v) wholes parts }
    ensures none { (wholes parts : List Candidate) → meets (among []) wholes parts ≡ false }
{}

/// `$nor` of one filter matches exactly what that filter does not match.
#[tactic(auto, using(crate::proofs::Few::nor_one))]
pub fn nor_of_one()
    ensures { (f : Members) (d : List Field) → matches_member (none_of (more_filters f no_filters)) d ≡ not (matches f d) }
{}

/// A filter without members matches every document.
#[tactic(auto, unfolding(crate::specs::Match::matches))]
pub fn no_member_matches_all()
    ensures { (d : List Field) → matches no_members d ≡ true }
{}

/// If a path leads to only one leaf, two bounds on it are an interval.
#[tactic(auto, using(crate::proofs::Few::interval))]
pub fn bounds_on_one_leaf()
    ensures { (r s : Range) (v w : Tree) (wholes : List Candidate) (c : Candidate) → meets_all (two_bounds r v s w) wholes (c ∷ []) ≡ is_in_both r v s w c }
{}

/// If there is no array on the way of a path nor at its end, two bounds on it are an interval.
pub fn bounds_without_arrays()
    ensures { (path : List (List ℕ)) (d : List Field) → MeetsNoArray path d → (r s : Range) (v w : Tree) → meets_all (two_bounds r v s w) (whole d path) (leaves d path) ≡ is_in_both r v s w (value_at_end path d) }
{}

/// On an array two bounds are no interval: each bound may be met by another element.
#[tactic(auto, using(crate::proofs::Few::bounds_apart))]
pub fn bounds_on_an_array()
    ensures { answer (one (codes "a") (doc ((codes "$gt", int 1) ∷ (codes "$lt", int 3) ∷ []))) (one (codes "a") (list (int 0 ∷ int 5 ∷ []))) ≡ Ok true }
{}

/// Filters over three documents: an array of documents, a document, and an array of a number.
#[tactic(auto, unfolding(crate::specs::Parsing::filter_in, crate::specs::Parsing::filters_in, crate::specs::Parsing::each_filter, crate::specs::Parsing::filter_of, crate::specs::Parsing::conditions_in, crate::specs::Parsing::operators_in, crate::specs::Parsing::negated_in, crate::specs::Parsing::test_in, crate::specs::Parsing::member_named, crate::specs::Parsing::operator_named, crate::specs::Match::matches, crate::specs::Match::matches_member, crate::specs::Match::meets_all, crate::specs::Match::meets, crate::specs::Match::passes, dv_candidates::specs::Path::path_of, dv_candidates::specs::Path::index_of, dv_candidates::specs::Candidates::whole, dv_candidates::specs::Candidates::leaves))]
pub fn worked_examples()
    ensures some_element_first { answer (one (codes "a.b") (int 2)) two_in_a_list ≡ Ok true }
    ensures some_element_second { answer (one (codes "a.b") (int 2)) document_in_a ≡ Ok true }
    ensures some_element_third { answer (one (codes "a.b") (int 2)) number_in_a_list ≡ Ok false }
    ensures an_element_by_its_place_first { answer (one (codes "a.0.b") (int 1)) two_in_a_list ≡ Ok true }
    ensures an_element_by_its_place_second { answer (one (codes "a.0.b") (int 1)) document_in_a ≡ Ok false }
    ensures an_element_by_its_place_third { answer (one (codes "a.0.b") (int 1)) number_in_a_list ≡ Ok false }
    ensures nothing_in_an_array_is_not_missing_first { answer (one (codes "a.b") null) two_in_a_list ≡ Ok false }
    ensures nothing_in_an_array_is_not_missing_second { answer (one (codes "a.b") null) document_in_a ≡ Ok false }
    ensures nothing_in_an_array_is_not_missing_third { answer (one (codes "a.b") null) number_in_a_list ≡ Ok false }
    ensures no_element_first { answer (one (codes "a.b") (doc ((codes "$ne", int 2) ∷ []))) two_in_a_list ≡ Ok false }
    ensures no_element_second { answer (one (codes "a.b") (doc ((codes "$ne", int 2) ∷ []))) document_in_a ≡ Ok false }
    ensures no_element_third { answer (one (codes "a.b") (doc ((codes "$ne", int 2) ∷ []))) number_in_a_list ≡ Ok true }
    ensures an_element_that_matches_first { answer some_element_with_b two_in_a_list ≡ Ok true }
    ensures an_element_that_matches_second { answer some_element_with_b document_in_a ≡ Ok false }
    ensures an_element_that_matches_third { answer some_element_with_b number_in_a_list ≡ Ok false }
    ensures an_element_that_meets_first { answer some_element_above two_in_a_list ≡ Ok false }
    ensures an_element_that_meets_second { answer some_element_above document_in_a ≡ Ok false }
    ensures an_element_that_meets_third { answer some_element_above number_in_a_list ≡ Ok true }
    ensures size_first { answer (a_by (codes "$size") (int 1)) two_in_a_list ≡ Ok false }
    ensures size_second { answer (a_by (codes "$size") (int 1)) document_in_a ≡ Ok false }
    ensures size_third { answer (a_by (codes "$size") (int 1)) number_in_a_list ≡ Ok true }
    ensures all_of_none_first { answer (a_by (codes "$all") (list [])) two_in_a_list ≡ Ok false }
    ensures all_of_none_second { answer (a_by (codes "$all") (list [])) document_in_a ≡ Ok false }
    ensures all_of_none_third { answer (a_by (codes "$all") (list [])) number_in_a_list ≡ Ok false }
    ensures a_candidate_beside_missing { answer (one (codes "a.b") (doc ((codes "$exists", boolean true) ∷ []))) (a_alone (list (b_alone 1 ∷ doc [] ∷ []))) ≡ Ok true }
    ensures size_of_an_element { answer (a_by (codes "$size") (int 1)) (a_alone (list (list (int 1 ∷ []) ∷ list [] ∷ []))) ≡ Ok false }
    ensures an_element_of_an_element { answer some_element_above (a_alone (list (list (int 5 ∷ []) ∷ []))) ≡ Ok false }
    ensures in_of_an_operator_list { answer (one (codes "a") (doc ((codes "$in", list (doc ((codes "$gt", int 1) ∷ []) ∷ [])) ∷ []))) [] ≡ Ok false }
    ensures a_bad_path_before_a_bad_condition { filter_in (fields_of (one (codes "a..b") (doc ((codes "$add", int 1) ∷ [])))) ≡ Err BadPath }
    ensures and_of_none { filter_in (fields_of (one (codes "$and") (list []))) ≡ Err EmptyList }
    ensures another_name_among_operators { filter_in (fields_of (one (codes "a") (doc ((codes "$gt", int 1) ∷ (codes "b", int 2) ∷ [])))) ≡ Err UnknownOperator }
{}

/// A missing field counts as null, an empty array doesn't.
#[tactic(auto, unfolding(crate::specs::Parsing::filter_in, crate::specs::Parsing::filters_in, crate::specs::Parsing::each_filter, crate::specs::Parsing::filter_of, crate::specs::Parsing::conditions_in, crate::specs::Parsing::operators_in, crate::specs::Parsing::negated_in, crate::specs::Parsing::test_in, crate::specs::Parsing::member_named, crate::specs::Parsing::operator_named, crate::specs::Match::matches, crate::specs::Match::matches_member, crate::specs::Match::meets_all, crate::specs::Match::meets, crate::specs::Match::passes, dv_candidates::specs::Path::path_of, dv_candidates::specs::Path::index_of, dv_candidates::specs::Candidates::whole, dv_candidates::specs::Candidates::leaves))]
pub fn null_examples()
    ensures missing { answer (one (codes "a") null) [] ≡ Ok true }
    ensures null_itself { answer (one (codes "a") null) (one (codes "a") null) ≡ Ok true }
    ensures an_empty_array { answer (one (codes "a") null) (one (codes "a") (list [])) ≡ Ok false }
    ensures an_array_of_null { answer (one (codes "a") null) (one (codes "a") (list (null ∷ []))) ≡ Ok true }
{}
