//! What holds of paths and their candidates, each the contract of a function that does nothing.

ghost use Rattle.std.specs.Prelude.{◌≡◌, [], ◌∷◌, Some, None, codes};
ghost use Rattle.dv_value.specs.Tree.{null};
ghost use Rattle.dv_value.specs.Short.{int, one, doc, list};
ghost use Rattle.dv_candidates.specs.Candidates.{whole, leaves};
ghost use Rattle.dv_candidates.specs.Inner.Examples.{a_then_b, list_in_a_list, one_in_a_list, two_in_a_list};
ghost use Rattle.dv_candidates.specs.Path.{path_of, index_of};

/// What is a path, and what is a place in an array: at most ten digits, without a leading 0.
#[tactic(auto, unfolding(crate::specs::Path::path_of, crate::specs::Path::index_of))]
pub fn examples_of_paths()
    ensures two_components { path_of (codes "a.b") ≡ Some (codes "a" ∷ codes "b" ∷ []) }
    ensures nothing_behind_a_dot { path_of (codes "a.") ≡ None }
    ensures a_zero_byte { path_of (97 ∷ 0 ∷ []) ≡ None }
    ensures nought { index_of (codes "0") ≡ Some 0 }
    ensures ten_digits { index_of (codes "9876543210") ≡ Some 9876543210 }
    ensures eleven_digits { index_of (codes "10000000000") ≡ None }
{}

/// What paths find in arrays of documents, and what counts as null.
#[tactic(auto, unfolding(crate::specs::Path::index_of, crate::specs::Candidates::whole, crate::specs::Candidates::leaves))]
pub fn examples_of_finding()
    ensures each_is_entered { whole two_in_a_list a_then_b ≡ Some (int 1) ∷ Some (int 2) ∷ [] }
    ensures one_is_picked { whole two_in_a_list (codes "a" ∷ codes "0" ∷ codes "b" ∷ []) ≡ Some (int 1) ∷ None ∷ None ∷ [] }
    ensures a_number_gives_nothing { whole (one (codes "a") (list (int 5 ∷ []))) a_then_b ≡ [] }
    ensures a_missing_field { leaves [] (codes "a" ∷ []) ≡ None ∷ [] }
    ensures an_empty_array { leaves (one (codes "a") (list [])) (codes "a" ∷ []) ≡ Some (list []) ∷ [] }
    ensures an_array_of_null { leaves (one (codes "a") (list (null ∷ []))) (codes "a" ∷ []) ≡ Some (list (null ∷ [])) ∷ Some null ∷ [] }
    ensures an_array_in_an_array { whole (one (codes "a") (list (list (doc (one (codes "b") (int 1)) ∷ []) ∷ []))) a_then_b ≡ [] }
    ensures through_a_number { whole (one (codes "a") (int 5)) a_then_b ≡ None ∷ [] }
    ensures an_array_as_a_leaf { leaves list_in_a_list (codes "a" ∷ []) ≡ Some (list (one_in_a_list ∷ [])) ∷ Some one_in_a_list ∷ [] }
{}
