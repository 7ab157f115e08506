//! What holds of groups, sums and lookups. Each law is the contract of a function that does nothing.

ghost use Rattle.std.specs.Prelude.{◌≡◌, ◌++◌, ◌∷◌, ◌<◌, ◌^◌, ◌-ℤ◌, ℤ, pos, List, [], filter, length, map, Bool, true, Some, None, Ok, Err, codes};
ghost use Rattle.std.specs.List.{list_all};
ghost use Rattle.std.specs.List.Sorted.{IsStrictlySortedBy};
ghost use Rattle.std.specs.Ordering.{is_eq};
ghost use Rattle.std.specs.declared.cmp.Ordering.TheVariants.{Less, Greater};
ghost use Rattle.dv_value.specs.Tree.{Tree, int32, int64, array, boolean, no_elements};
ghost use Rattle.dv_value.specs.Spelling.{IsValue};
ghost use Rattle.dv_order.specs.Order.{order};
ghost use Rattle.dv_row.specs.declared.fault.PipelineFault.TheVariants.{BadSpec};
ghost use Rattle.dv_row.specs.Expressions.{Expression, constant, value_of};
ghost use Rattle.dv_row.specs.Row.{Row};
ghost use Rattle.dv_row.specs.Inner.Valid.{AreValid};
ghost use Rattle.dv_gather.specs.Inner.Counting.{is_number};
ghost use Rattle.dv_value.specs.Short as short;
ghost use Rattle.dv_gather.specs.Inner.Examples as examples;
ghost use Rattle.dv_gather.specs.GroupParsing.{group_in};
ghost use Rattle.dv_gather.specs.declared.lookup.Lookup as lookups;
ghost use Rattle.dv_gather.specs.Grouping.{Grouping, accumulated, group_row, grouped, keyed, values_over};
ghost use Rattle.dv_gather.specs.Groups.{Keyed, groups_of, group_keys};
ghost use Rattle.dv_gather.specs.Inner.Laws.{array_pushed, rows_with_key};
ghost use Rattle.dv_gather.specs.Inner.Leading.{IsLeader};
ghost use Rattle.dv_gather.specs.Lookups.{looked_up, lookup_in, set_field};
ghost use Rattle.dv_gather.specs.Sums.{sum_of};

use crate::accumulator::Accumulator;

/// The keys of the groups ascend and are distinct, and each row's key is exactly one of them: so it is in one group.
#[tactic(auto, using(crate::specs::Inner::GroupLaws::keys_ascend, crate::proofs::GatherLaws::one_key))]
pub fn each_row_is_in_one_group()
    ensures ascending { (rows : List Keyed) → IsStrictlySortedBy order (group_keys rows) }
    ensures one { (before after : List Keyed) (row : Keyed) → length (filter (λ k. is_eq (order row.0 k)) (group_keys (before ++ row ∷ after))) ≡ 1 }
{}

/// A group is made of the rows whose key compares equal to the group's, in their order, and a group's key is the key of a row.
#[tactic(auto, using(crate::proofs::Parted::groups_filter, crate::proofs::Parted::grouped_filter, crate::proofs::Parted::no_other_key))]
pub fn groups_are_parted_by_their_keys()
    ensures parted { (rows : List Keyed) → groups_of rows ≡ map (λ k. map (λ row. row.1) (filter (λ row. is_eq (order k row.0)) rows)) (group_keys rows) }
    ensures grouped { (group : Grouping) (rows : List Row) → grouped group rows ≡ map (λ k. group_row group (rows_with_key group k rows)) (group_keys (map (keyed group) rows)) }
    ensures no_other_key { (holds : Tree → Bool) (rows : List Keyed) → list_all (λ row. holds row.0) rows ≡ true → list_all holds (group_keys rows) ≡ true }
{}

/// A sum is that of the numbers among the values: no other value counts.
#[tactic(auto, using(crate::proofs::Parted::sum_numbers))]
pub fn only_numbers_count()
    ensures { (vs : List Tree) → accumulated Accumulator.Sum vs ≡ accumulated Accumulator.Sum (filter is_number vs) }
{}

/// `$push` puts the value of each row after those of the rows before it. A row without a value counts for no accumulator.
#[tactic(auto, using(crate::proofs::Parted::pushed_last, crate::proofs::Parted::missing_left_out))]
pub fn values_are_pushed_in_order()
    ensures pushed { (e : Expression) (rows : List Row) (row : Row) (v : Tree) → value_of e row ≡ Some v → array_pushed e (rows ++ row ∷ []) ≡ short.list (values_over e rows ++ v ∷ []) }
    ensures left_out { (e : Expression) (rows : List Row) (row : Row) → value_of e row ≡ None → values_over e (rows ++ row ∷ []) ≡ values_over e rows }
{}

/// Values of four classes, "x", 3, true and [5]: each class counts for the least and the greatest, and only numbers in a sum.
#[tactic(auto, using(crate::proofs::Worked::mixed_least, crate::proofs::Worked::mixed_greatest, crate::proofs::Worked::mixed_sum))]
pub fn values_of_four_classes()
    ensures least { accumulated Accumulator.Min examples.mixed ≡ short.int 3 }
    ensures greatest { accumulated Accumulator.Max examples.mixed ≡ boolean true }
    ensures sum { accumulated Accumulator.Sum examples.mixed ≡ short.int 3 }
{}

/// A `$group` without `_id` is refused, and so is a `$lookup` with a fifth member.
#[tactic(auto, using(crate::proofs::Worked::no_key, crate::proofs::Worked::a_fifth_option))]
pub fn forms_that_are_refused()
    ensures no_key { group_in (short.doc (examples.by (codes "n") (codes "$sum") (short.int 1) ∷ [])) ≡ Err BadSpec }
    ensures a_fifth_option { lookup_in examples.a_lookup_with_a_pipeline ≡ Err BadSpec }
{}

/// A sum of ones counts the rows.
#[tactic(auto, using(crate::proofs::GatherLaws::ones_count))]
pub fn a_sum_of_ones_counts()
    ensures { (rows : List Row) → length rows < 2 ^ 31 → accumulated Accumulator.Sum (values_over (constant (int32 (pos 1))) rows) ≡ int32 (pos (length rows)) }
{}

/// `$min` is the first of the least values and `$max` the first of the greatest, null left out. If all values are null, or there
/// are none, it is null.
#[tactic(auto, using(crate::proofs::Leaders::least_leads, crate::proofs::Leaders::greatest_leads))]
pub fn extremes_lead()
    ensures least { (vs : List Tree) → IsLeader Less vs (accumulated Accumulator.Min vs) }
    ensures greatest { (vs : List Tree) → IsLeader Greater vs (accumulated Accumulator.Max vs) }
{}

/// An int64 and its opposite sum up to an int64 zero.
#[tactic(auto, using(crate::proofs::GatherLaws::opposites))]
pub fn opposites_sum_up_to_zero()
    ensures { (n : ℤ) → sum_of (int64 n ∷ int64 (pos 0 -ℤ n) ∷ []) ≡ int64 (pos 0) }
{}

/// A lookup into nothing returns empty arrays.
#[tactic(auto, using(crate::proofs::GatherLaws::nothing_found))]
pub fn nothing_is_found_in_nothing()
    ensures { (lookup : lookups.Lookup) (rows : List Row) → looked_up lookup rows [] ≡ map (set_field lookup.target (array no_elements)) rows }
{}

/// What a group or a lookup returns for valid rows is valid, if it was read from a valid value.
#[tactic(auto, using(crate::proofs::GatherLaws::grouped_valid, crate::proofs::GatherLaws::looked_up_valid))]
pub fn what_comes_of_valid_rows_is_valid()
    ensures grouped { (v : Tree) (group : Grouping) (rows : List Row) → IsValue v → group_in v ≡ Ok group → AreValid rows → AreValid (grouped group rows) }
    ensures looked_up { (v : Tree) (lookup : lookups.Lookup) (rows others : List Row) → IsValue v → lookup_in v ≡ Ok lookup → AreValid rows → AreValid others → AreValid (looked_up lookup rows others) }
{}

/// Rows in three groups: two rows share a key, one has another key, and one has none.
#[tactic(auto, using(crate::proofs::Worked::rows_in_groups))]
pub fn rows_in_three_groups()
    ensures { examples.after_group examples.a_group examples.group_rows ≡ Ok examples.rows_of_three_groups }
{}

/// A row that lacks the field finds the document that lacks it, and a row with an array finds what its elements find, each
/// once, but not a document whose array holds the same array.
#[tactic(auto, using(crate::proofs::Worked::rows_looked_up))]
pub fn two_rows_looked_up()
    ensures { examples.after_lookup examples.a_lookup examples.rows_to_look_up examples.documents_to_find ≡ Ok examples.rows_with_what_they_find }
{}
