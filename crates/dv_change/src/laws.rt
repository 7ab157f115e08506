//! Laws of positions, changes and work. Each is the contract of a function that does nothing.

ghost use Rattle.std.specs.Prelude.{◌≡◌, ◌∷◌, [], ℕ, List};
ghost use Rattle.std.specs.declared.cmp.Ordering.TheVariants.{Equal, Less};
ghost use Rattle.std.specs.List.{AllByRecursion};
ghost use Rattle.dv_change.specs.declared.change.Change.{Change};
ghost use Rattle.dv_change.specs.declared.change.Change.TheVariants.{Gone, Put};
ghost use Rattle.dv_change.specs.declared.position.Part.TheVariants.{At, Down, Up};
ghost use Rattle.dv_change.specs.declared.input.Input.TheVariants.{Left, Named};
ghost use Rattle.dv_change.specs.Changes.{Positioned, at, with_change, with_changes};
ghost use Rattle.dv_change.specs.Inner.Changes.{IsExactChange, IsPositioned};
ghost use Rattle.dv_change.specs.Difference.{diff};
ghost use Rattle.dv_change.specs.Inner.Examples.{number_key, numbered_row, numbered_rows, place, three_stages, two_look_ups, two_stages, wide_number};
ghost use Rattle.dv_change.specs.Positions.{IsExact, PosTree, part_order, pos_order};
ghost use Rattle.dv_change.specs.Raised.{raised};
ghost use Rattle.dv_change.specs.Work.{pass_in, work_in};
ghost use Rattle.dv_order.specs.Key.{KeyTree};

/// Positions that are equal in the order are identical, if each of their keys is the key of some value, or the one key that no
/// value has.
#[tactic(auto, using(crate::proofs::Lawful::lawful))]
pub fn equal_positions_are_one()
    ensures { (p q : PosTree) → IsExact p → IsExact q → pos_order p q ≡ Equal → p ≡ q }
{}

/// Rows stay in the order of their positions.
pub fn changes_keep_rows_in_order()
    ensures { (rows : Positioned) (changes : List Change) → IsPositioned rows → AllByRecursion IsExactChange changes → IsPositioned (with_changes rows changes) }
{}

/// Two lists with the same row at each exact position are equal.
#[tactic(auto, using(crate::proofs::Lawful::lawful))]
pub fn rows_are_known_by_their_positions()
    ensures { (xs ys : Positioned) → IsPositioned xs → IsPositioned ys → ((q : PosTree) → IsExact q → at q xs ≡ at q ys) → xs ≡ ys }
{}

/// The difference of two lists of rows, applied to the old list, gives the new one.
#[tactic(auto, using(crate::proofs::Lawful::lawful))]
pub fn a_difference_leads_from_old_to_new()
    ensures { (old new : Positioned) → IsPositioned old → IsPositioned new → with_changes old (diff old new) ≡ new }
{}

/// Ascending parts are in the order of their keys, and descending parts in its reverse. An ascending part comes before a descending
/// one, and both come before a number, whatever they hold. A position comes before those that it begins.
pub fn positions_by_example()
    ensures rising { part_order (Up (number_key 1)) (Up (number_key 2)) ≡ Less }
    ensures falling { (k l : KeyTree) → part_order (Down k) (Down l) ≡ part_order (Up l) (Up k) }
    ensures rising_first { (k l : KeyTree) → part_order (Up k) (Down l) ≡ Less }
    ensures number_last { (k : KeyTree) (n : ℕ) → part_order (Down k) (At n) ≡ Less }
    ensures counted { part_order (At 1) (At 2) ≡ Less }
    ensures shorter_first { pos_order (At 1 ∷ []) (At 1 ∷ At 0 ∷ []) ≡ Less }
{}

/// Removals come first, and a row that stays as it is isn't in the difference.
pub fn examples_of_differences()
    ensures nothing { diff ((place 0, numbered_row 1) ∷ []) ((place 0, numbered_row 1) ∷ []) ≡ [] }
    ensures each_kind { diff (numbered_rows 0 (1 ∷ 2 ∷ 3 ∷ [])) (numbered_rows 1 (2 ∷ 4 ∷ 5 ∷ [])) ≡ Gone (place 0) ∷ Put (place 2) (numbered_row 4) ∷ Put (place 3) (numbered_row 5) ∷ [] }
    ensures in_order { diff (numbered_rows 0 (1 ∷ 2 ∷ 3 ∷ [])) (numbered_rows 1 (2 ∷ [])) ≡ Gone (place 0) ∷ Gone (place 2) ∷ [] }
    ensures another_width { diff ((place 0, numbered_row 1) ∷ []) ((place 0, wide_number 1) ∷ []) ≡ Put (place 0) (wide_number 1) ∷ [] }
{}

/// A count stays at its limit.
pub fn examples_of_counts()
    ensures below { raised 5 3 ≡ 8 }
    ensures at_the_limit { raised 9223372036854775806 5 ≡ 9223372036854775807 }
{}

/// Each change between two stages counts twice: when it is returned, and when it is taken in.
pub fn examples_of_work()
    ensures no_stage { pass_in Left (Gone (place 0)) [] [] ≡ Gone (place 0) ∷ [] }
    ensures no_work_without_a_stage { work_in Left (Gone (place 0)) [] [] ≡ 0 }
    ensures next_row { pass_in Left (Gone (place 0)) two_stages (numbered_rows 0 (1 ∷ 2 ∷ [])) ≡ Gone (place 0) ∷ Put (place 1) (numbered_row 2) ∷ [] }
    ensures work_for_next_row { work_in Left (Gone (place 0)) two_stages (numbered_rows 0 (1 ∷ 2 ∷ [])) ≡ 5 }
    ensures no_work_behind { work_in Left (Put (place 7) (numbered_row 9)) two_stages (numbered_rows 0 (1 ∷ 2 ∷ [])) ≡ 3 }
    ensures in_mid_chain { pass_in (Named 0) (Put (place 0) (numbered_row 3)) three_stages [] ≡ Put (place 0) (numbered_row 3) ∷ [] }
    ensures first_list { pass_in (Named 0) (Put (place 0) (numbered_row 3)) two_look_ups [] ≡ [] }
    ensures second_list { pass_in (Named 1) (Put (place 0) (numbered_row 3)) two_look_ups [] ≡ Put (place 0) (numbered_row 3) ∷ [] }
    ensures work_in_mid_chain { work_in (Named 0) (Put (place 0) (numbered_row 3)) three_stages [] ≡ 4 }
{}
