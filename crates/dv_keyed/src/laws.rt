//! What holds of keys, bounds and plans, each the contract of a function that does nothing.

ghost use Rattle.std.specs.Prelude.{◌≡◌, ◌↔◌, ◌∷◌, [], ℕ, pos, false, true, codes, List, Some};
ghost use Rattle.dv_value.specs.Short.{doc, int, list, one};
ghost use Rattle.dv_value.specs.Tree.{Field, Tree, int64, null};
ghost use Rattle.dv_match.specs.Filter.{Condition, Members};
ghost use Rattle.dv_match.specs.Match.{matches};
ghost use Rattle.dv_order.specs.Key.{KeyTree, value};
ghost use Rattle.dv_order.specs.Order.{canon};
ghost use Rattle.dv_candidates.specs.Candidates.{Candidate, or_null};
ghost use Rattle.dv_path.specs.LeafKeys.{is_leaf_key};
ghost use Rattle.dv_keyed.specs.Choice.{chosen};
ghost use Rattle.dv_keyed.specs.Inner.Decided.{HasOneKey, IsAnswered, IsClosed, IsDecided, IsOnlyLeaf, MatchesBetween, is_one_condition};
ghost use Rattle.dv_keyed.specs.Inner.Examples.{has_key_of};
ghost use Rattle.dv_keyed.specs.Inner.Interval.{is_in_all};
ghost use Rattle.dv_keyed.specs.declared.interval.Interval.{Interval};
ghost use Rattle.dv_keyed.specs.Within.{has_within, is_within};
ghost use Rattle.dv_keyed.specs.Inner.Within.{covers};

/// A filter is answered by an index that exists, and each document that matches has a leaf in the bounds: no index misses a
/// document.
#[tactic(auto, using(crate::proofs::Sound::planned))]
pub fn what_matches_is_in_the_bounds()
    ensures { (filter : Members) (paths : List (List (List ℕ))) (place : ℕ) (bounds : Condition) → chosen filter paths ≡ Some (place, bounds) → IsAnswered filter paths place bounds }
{}

/// Each document that matches is tried: if a document that matches a filter has only one key under a path, this key is in all
/// bounds that the filter's top conjunction sets under the path.
pub fn an_only_key_is_in_all_bounds()
    ensures { (filter : Members) (path : List (List ℕ)) (d : List Field) (v : Tree) → IsOnlyLeaf (value (canon v)) path d → matches filter d ≡ true → is_in_all (value (canon v)) path filter ≡ true }
{
    dv_order::laws::keys_stand_as_their_values();
    dv_order::laws::equal_is_same_but_for_widths();
}

/// A document has a leaf in the bounds exactly if it has a key in them.
pub fn leaves_are_found_by_keys()
    ensures { (bounds : Condition) (path : List (List ℕ)) (d : List Field) → (has_within bounds path d ≡ true) ↔ ((v : Tree) × (covers bounds (value (canon v)) ≡ true) × (is_leaf_key (value (canon v)) path d ≡ true)) }
{
    dv_order::laws::keys_stand_as_their_values();
    dv_order::laws::equal_is_same_but_for_widths();
}

/// A document that has a key in the bounds has a leaf in them.
pub fn a_key_in_the_bounds_is_of_a_leaf_there()
    ensures { (bounds : Condition) (path : List (List ℕ)) (d : List Field) (k : KeyTree) → covers bounds k ≡ true → is_leaf_key k path d ≡ true → has_within bounds path d ≡ true }
{
    dv_order::laws::keys_stand_as_their_values();
    dv_order::laws::equal_is_same_but_for_widths();
}

/// A filter that is one condition means the same as the bounds of the plan that is chosen for it: the documents that have a leaf in
/// them match, and no others.
#[tactic(auto, using(crate::proofs::Sound::decided))]
pub fn one_condition_is_decided_by_its_bounds()
    ensures { (filter : Members) (paths : List (List (List ℕ))) (place : ℕ) (bounds : Condition) (path : List (List ℕ)) (d : List Field) → is_one_condition filter ≡ true → IsDecided filter paths place bounds path d }
{}

/// A document that has only one key matches a range with two ends exactly if its key is between them; one without keys doesn't.
pub fn a_closed_range_is_decided_by_its_ends()
    ensures { (ends : Interval) (path : List (List ℕ)) (filter : Members) (d : List Field) → IsClosed ends path filter → HasOneKey path d
        → MatchesBetween ends path filter d }
{
    dv_order::laws::keys_stand_as_their_values();
    dv_order::laws::equal_is_same_but_for_widths();
}

/// A candidate is in the bounds exactly if its key is.
pub fn keys_are_in_the_bounds_of_their_values()
    ensures { (bounds : Condition) (c : Candidate) → covers bounds (value (canon (or_null c))) ≡ is_within bounds c }
{
    dv_order::laws::keys_stand_as_their_values();
}

/// The keys of a document: those of what a path leads to. An array has a key, and so has each of its elements; what is missing has
/// the key of null.
#[tactic(auto, unfolding(dv_candidates::specs::Path::index_of, dv_candidates::specs::Candidates::whole, dv_candidates::specs::Candidates::leaves, dv_path::specs::LeafKeys::is_leaf_key, dv_path::specs::LeafKeys::leaf_values))]
pub fn keys_by_example()
    ensures missing { has_key_of null (codes "a" ∷ []) [] ≡ true }
    ensures null_itself { has_key_of null (codes "a" ∷ []) (one (codes "a") null) ≡ true }
    ensures an_empty_array { has_key_of (list []) (codes "a" ∷ []) (one (codes "a") (list [])) ≡ true }
    ensures no_null_in_an_empty_array { has_key_of null (codes "a" ∷ []) (one (codes "a") (list [])) ≡ false }
    ensures an_element { has_key_of (int 2) (codes "a" ∷ []) (one (codes "a") (list (int 1 ∷ int 2 ∷ []))) ≡ true }
    ensures the_array { has_key_of (list (int 1 ∷ int 2 ∷ [])) (codes "a" ∷ []) (one (codes "a") (list (int 1 ∷ int 2 ∷ []))) ≡ true }
    ensures no_element_of_an_element { has_key_of (int 1) (codes "a" ∷ []) (one (codes "a") (list (list (int 1 ∷ []) ∷ []))) ≡ false }
    ensures another_width { has_key_of (int64 (pos 2)) (codes "a" ∷ []) (one (codes "a") (int 2)) ≡ true }
    ensures missing_in_one_of_several { has_key_of null (codes "a" ∷ codes "b" ∷ []) (one (codes "a") (list (doc (one (codes "b") (int 1)) ∷ doc [] ∷ []))) ≡ true }
    ensures nothing_under_a_number_in_an_array { has_key_of null (codes "a" ∷ codes "b" ∷ []) (one (codes "a") (list (int 5 ∷ []))) ≡ false }
{}
