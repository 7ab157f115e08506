//! What holds of paths, each the contract of a function that does nothing.

ghost use Rattle.std.specs.Prelude.{◌≡◌, ◌≢◌, ℕ, List, [], ◌∷◌, Some, None, Ok, Err, codes};
ghost use Rattle.dv_value.specs.Tree.{Tree, Field, null};
ghost use Rattle.dv_path.specs.Apart.{AreApart};
ghost use Rattle.dv_candidates.specs.Candidates.{whole};
ghost use Rattle.dv_candidates.specs.declared.fault.PathFault.TheVariants.{NotViable, IndexTooLarge};
ghost use Rattle.dv_value.specs.Short.{int, one, doc, list};
ghost use Rattle.dv_order.specs.Key.{key_at};
ghost use Rattle.dv_path.specs.declared.direction.Direction.TheVariants.{Ascending, Descending};
ghost use Rattle.dv_path.specs.Expression.{expr};
ghost use Rattle.dv_candidates.specs.Inner.Examples.{a_then_b, b_alone};
ghost use Rattle.dv_path.specs.Inner.Examples.{a_list, id_alone, x_list};
ghost use Rattle.dv_path.specs.Laws.{CanPut, EntersNoArray, ForEachPath, ForEachPut, IsFirst, IsFirstName, SameUnder};
ghost use Rattle.dv_path.specs.SortKey.{sort_key};
ghost use Rattle.dv_path.specs.Placing.{put, result_map};
ghost use Rattle.dv_path.specs.Removing.{remove};
ghost use Rattle.dv_path.specs.Slots.{slot, taken, blocked};
ghost use Rattle.dv_candidates.specs.Path.{index_of};

/// What was put is found where its path leads.
#[tactic(auto, using(crate::proofs::Placed::slot_put, crate::proofs::Placed::whole_put))]
pub fn what_was_put_is_there()
    ensures there { ForEachPut (λ fields name path v after. put fields (name ∷ path) v ≡ Ok after → slot after (name ∷ path) ≡ taken v) }
    // If there is no array on the way, it is what a filter finds there, and the only candidate.
    ensures found { ForEachPut (λ fields name path v after. EntersNoArray (name ∷ path) fields → put fields (name ∷ path) v ≡ Ok after → whole after (name ∷ path) ≡ Some v ∷ []) }
{}

/// A value that is there can be replaced; no value is put through one that blocks the way.
pub fn slots_tell_what_is_put()
    ensures taken { ForEachPath (λ fields name path. (v there : Tree) → slot fields (name ∷ path) ≡ taken there → CanPut fields (name ∷ path) v) }
    ensures blocked { (fields : List Field) (path : List (List ℕ)) (v : Tree) → slot fields path ≡ blocked → put fields path v ≡ Err NotViable }
{}

/// If there is no value, nothing is taken away.
pub fn what_is_not_there_is_not_removed()
    ensures { (fields : List Field) (path : List (List ℕ)) → ((there : Tree) → slot fields path ≢ taken there) → remove fields path ≡ fields }
{}

/// The fields of other names stay.
pub fn other_fields_stay()
    ensures put { ForEachPut (λ fields name path v after. (other : List ℕ) → other ≢ name → put fields (name ∷ path) v ≡ Ok after → SameUnder other fields after) }
    ensures removed { ForEachPath (λ fields name path. (other : List ℕ) → other ≢ name → SameUnder other fields (remove fields (name ∷ path))) }
{}

/// If neither of two paths begins or equals the other, what is or is put where the one leads does not affect what is where the
/// other leads.
pub fn paths_that_part_are_independent()
    ensures slot { (fields : List Field) (p q : List (List ℕ)) → AreApart p q → slot (remove fields p) q ≡ slot fields q }
    ensures put { (fields : List Field) (p q : List (List ℕ)) (v : Tree) → AreApart p q → put (remove fields p) q v ≡ result_map (λ after. remove after p) (put fields q v) }
{}

/// The first field keeps its name and its place when a value is put, and stays as it is under a path that begins with another name.
pub fn the_first_field_stays_first()
    ensures named { (f : Field) → ForEachPut (λ fs name path v after. put (f ∷ fs) (name ∷ path) v ≡ Ok after → IsFirstName f.0 after) }
    ensures put { (f : Field) → ForEachPut (λ fs name path v after. name ≢ f.0 → put (f ∷ fs) (name ∷ path) v ≡ Ok after → IsFirst f after) }
    ensures removed { (f : Field) (fs : List Field) (name : List ℕ) (path : List (List ℕ)) → name ≢ f.0 → IsFirst f (remove (f ∷ fs) (name ∷ path)) }
{}

/// If there is no array on the way, an expression returns what a filter finds.
#[tactic(auto, using(crate::proofs::Placed::whole_expr))]
pub fn expressions_find_what_filters_do()
    ensures { (fields : List Field) (path : List (List ℕ)) → EntersNoArray path fields → whole fields path ≡ expr fields path ∷ [] }
{}

/// What an expression finds in an array: what its documents return.
#[tactic(auto, unfolding(crate::specs::Expression::expr))]
pub fn example_of_an_expression()
    ensures { expr (a_list (doc ((codes "b", int 1) ∷ (codes "c", int 2) ∷ []) ∷ int 7 ∷ list (b_alone 3 ∷ []) ∷ [])) a_then_b ≡ Some (list (int 1 ∷ [])) }
{}

/// Where values are put: new fields last, documents for what is missing, nulls beyond an array's end.
#[tactic(auto, unfolding(dv_candidates::specs::Path::index_of, crate::specs::Placing::put))]
pub fn examples_of_putting()
    ensures in_its_place { put ((codes "a", int 1) ∷ (codes "b", int 2) ∷ []) (codes "a" ∷ []) (int 3) ≡ Ok ((codes "a", int 3) ∷ (codes "b", int 2) ∷ []) }
    ensures a_new_field { put id_alone (codes "b" ∷ []) (int 3) ≡ Ok ((codes "_id", int 1) ∷ (codes "b", int 3) ∷ []) }
    ensures a_document { put id_alone (codes "x" ∷ codes "2" ∷ []) (int 2) ≡ Ok ((codes "_id", int 1) ∷ (codes "x", doc (one (codes "2") (int 2))) ∷ []) }
    ensures nulls { put (x_list (int 0 ∷ [])) (codes "x" ∷ codes "3" ∷ []) (int 1) ≡ Ok (x_list (int 0 ∷ null ∷ null ∷ int 1 ∷ [])) }
    ensures a_name_in_an_array { put (a_list []) (codes "a" ∷ codes "x" ∷ []) (int 1) ≡ Err NotViable }
    ensures a_zero_in_front { put (a_list []) (codes "a" ∷ codes "01" ∷ []) (int 1) ≡ Err NotViable }
    ensures through_a_number { put (one (codes "a") (int 1)) a_then_b (int 1) ≡ Err NotViable }
    ensures too_far { put (a_list []) (codes "a" ∷ codes "100001" ∷ []) (int 1) ≡ Err IndexTooLarge }
{}

/// What is taken away: a field, or an element, which becomes null.
#[tactic(auto, unfolding(dv_candidates::specs::Path::index_of, crate::specs::Removing::remove))]
pub fn examples_of_removing()
    ensures a_field { remove ((codes "a", int 1) ∷ (codes "b", int 2) ∷ []) (codes "a" ∷ []) ≡ one (codes "b") (int 2) }
    ensures an_element { remove (a_list (int 1 ∷ int 2 ∷ int 3 ∷ [])) (codes "a" ∷ codes "1" ∷ []) ≡ a_list (int 1 ∷ null ∷ int 3 ∷ []) }
    ensures a_name_in_an_array { remove (a_list (int 1 ∷ [])) (codes "a" ∷ codes "x" ∷ []) ≡ a_list (int 1 ∷ []) }
    ensures beyond_the_end { remove (a_list (int 1 ∷ [])) (codes "a" ∷ codes "1" ∷ []) ≡ a_list (int 1 ∷ []) }
    ensures the_last_element { remove (a_list (int 1 ∷ int 2 ∷ [])) (codes "a" ∷ codes "1" ∷ []) ≡ a_list (int 1 ∷ null ∷ []) }
    ensures a_null { remove (one (codes "a") null) (codes "a" ∷ []) ≡ [] }
    ensures the_only_field_of_a_document { remove (one (codes "a") (doc (one (codes "b") (int 1)))) a_then_b ≡ one (codes "a") (doc []) }
{}

/// Documents in order of `a`: an empty array first, then a missing field, an array by its least or its greatest.
#[tactic(auto, unfolding(dv_candidates::specs::Path::index_of, dv_candidates::specs::Candidates::whole, crate::specs::SortKey::sort_key))]
pub fn examples_of_sort_keys()
    ensures the_least { sort_key (a_list (int 3 ∷ int 1 ∷ [])) (codes "a" ∷ []) Ascending ≡ key_at (Some (int 1)) }
    ensures the_greatest { sort_key (a_list (int 3 ∷ int 1 ∷ [])) (codes "a" ∷ []) Descending ≡ key_at (Some (int 3)) }
    ensures missing { sort_key [] (codes "a" ∷ []) Ascending ≡ key_at (Some null) }
    ensures an_empty_array { sort_key (a_list []) (codes "a" ∷ []) Ascending ≡ key_at None }
    ensures missing_beside_a_number { sort_key (a_list (b_alone 1 ∷ doc [] ∷ [])) a_then_b Ascending ≡ key_at (Some null) }
    ensures an_empty_array_behind_a_number { sort_key (a_list (b_alone 1 ∷ doc (one (codes "b") (list [])) ∷ [])) a_then_b Ascending ≡ key_at None }
{}
