//! The laws of the order, each the contract of a function that does nothing.

ghost use Rattle.std.specs.Prelude.{◌≡◌, ◌↔◌, ◌<◌, ℕ, ℤ, pos, negsuc, Bool, false, true, List, [], ◌∷◌, Option, codes};
ghost use Rattle.std.specs.declared.cmp.Ordering.TheVariants.{Less, Equal};
ghost use Rattle.std.specs.Ordering.{ordering_reverse, is_ne};
ghost use Rattle.dv_value.specs.Tree.{Tree, int32, int64, string, document, array, boolean, binary, object_id, date, null, timestamp, min_key, max_key, fields_of, Fields, Elements, elements_of};
ghost use Rattle.dv_order.specs.Order.{canon, class, order, below};
ghost use Rattle.dv_value.specs.Tree.{Field};
ghost use Rattle.dv_order.specs.Key.{key_at, key_order, no_element, value};
ghost use Rattle.dv_order.specs.Same.{is_same, same_fields};

/// Any two values can be compared, and swapping them reverses the result.
#[tactic(auto, using(crate::specs::Inner::TotalOrder::order_total))]
pub fn order_is_total()
    ensures { (v w : Tree) → order v w ≡ ordering_reverse (order w v) }
{}

/// What comes before a value comes before all that come after that value.
#[tactic(auto, using(crate::specs::Inner::TotalOrder::order_total))]
pub fn below_is_transitive()
    ensures { (u v w : Tree) → below u v → below v w → below u w }
{}

/// Two values are equal in the order exactly if they differ at most in the width of integers.
#[tactic(auto, using(crate::specs::Inner::SameOrder::equal_is_canon))]
pub fn equal_is_same_but_for_widths()
    ensures { (v w : Tree) → (order v w ≡ Equal) ↔ (canon v ≡ canon w) }
{}

/// Keys are ordered as the values that they are made of.
#[tactic(auto, using(crate::specs::Inner::SameOrder::order_of_canon))]
pub fn keys_stand_as_their_values()
    ensures { (v w : Tree) → key_order (value (canon v)) (value (canon w)) ≡ order v w }
{}

/// Keys that are equal in the order are identical: a key has nothing but what the order sees.
#[tactic(auto, using(crate::specs::Inner::SameOrder::same_key))]
pub fn equal_keys_are_one()
    ensures { (v w : Option Tree) → key_order (key_at v) (key_at w) ≡ Equal → key_at v ≡ key_at w }
{}

/// Values are the same if each part is, and so are documents.
#[tactic(auto, using(crate::specs::Inner::SameLaws::same_values, crate::specs::Inner::SameLaws::same_documents))]
pub fn sameness_is_equality()
    ensures values { (v w : Tree) → (is_same v w ≡ true) ↔ (v ≡ w) }
    ensures documents { (d e : List Field) → (same_fields (fields_of d) (fields_of e) ≡ true) ↔ (d ≡ e) }
{}

/// A value of a lower class comes before each one of a higher class.
#[tactic(auto, using(crate::specs::Inner::SameOrder::lower_class))]
pub fn lower_classes_stand_first()
    ensures { (v w : Tree) → class v < class w → below v w }
{}

/// The key that no value has is not equal to the key of any value.
#[tactic(auto, using(crate::specs::Inner::KeyLaws::no_class))]
pub fn no_element_stands_beside_no_value()
    ensures { (v : Tree) → is_ne (key_order no_element (value v)) ≡ true }
{}

/// The classes from low to high, each with the next one.
pub fn classes_stand_in_a_row()
    ensures no_element_after_min_key { key_order (value min_key) no_element ≡ Less }
    ensures null_after_no_element { key_order no_element (value null) ≡ Less }
    ensures null_after_min_key { below min_key null }
    ensures int32s_after_null { (n : ℤ) → below null (int32 n) }
    ensures int64s_after_null { (n : ℤ) → below null (int64 n) }
    ensures strings_after_int32s { (n : ℤ) (s : List ℕ) → below (int32 n) (string s) }
    ensures strings_after_int64s { (n : ℤ) (s : List ℕ) → below (int64 n) (string s) }
    ensures documents_after_strings { (s : List ℕ) (fs : Fields) → below (string s) (document fs) }
    ensures arrays_after_documents { (fs : Fields) (vs : Elements) → below (document fs) (array vs) }
    ensures binaries_after_arrays { (vs : Elements) (subtype : ℕ) (bytes : List ℕ) → below (array vs) (binary subtype bytes) }
    ensures object_ids_after_binaries { (subtype : ℕ) (bytes id : List ℕ) → below (binary subtype bytes) (object_id id) }
    ensures booleans_after_object_ids { (id : List ℕ) (b : Bool) → below (object_id id) (boolean b) }
    ensures dates_after_booleans { (b : Bool) (n : ℤ) → below (boolean b) (date n) }
    ensures timestamps_after_dates { (m : ℤ) (n : ℕ) → below (date m) (timestamp n) }
    ensures max_key_after_timestamps { (n : ℕ) → below (timestamp n) max_key }
{}

/// Examples of two values of one class, the lower one first.
pub fn examples_within_a_class()
    ensures integers_by_number { below (int32 (negsuc 0)) (int64 (pos 0)) }
    ensures integers_of_each_width { order (int32 (pos 5)) (int64 (pos 5)) ≡ Equal }
    ensures strings_by_bytes { below (string (codes "B")) (string (codes "a")) }
    ensures a_string_before_a_longer_one { below (string (codes "a")) (string (codes "ab")) }
    ensures a_byte_before_a_length { below (string (codes "ab")) (string (codes "b")) }
    ensures a_class_before_a_name { below (document (fields_of ((codes "b", int32 (pos 1)) ∷ []))) (document (fields_of ((codes "a", string []) ∷ []))) }
    ensures a_name_before_a_value { below (document (fields_of ((codes "a", int32 (pos 2)) ∷ []))) (document (fields_of ((codes "b", int32 (pos 1)) ∷ []))) }
    ensures a_value_before_the_number_of_fields { below (document (fields_of ((codes "a", int32 (pos 1)) ∷ (codes "b", int32 (pos 2)) ∷ []))) (document (fields_of ((codes "a", int64 (pos 2)) ∷ []))) }
    ensures fewer_fields { below (document (fields_of [])) (document (fields_of ((codes "a", int32 (pos 1)) ∷ []))) }
    ensures an_element_before_the_number_of_elements { below (array (elements_of (int32 (pos 1) ∷ int32 (pos 1) ∷ []))) (array (elements_of (int64 (pos 2) ∷ []))) }
    ensures fewer_elements { below (array (elements_of (int32 (pos 1) ∷ []))) (array (elements_of (int64 (pos 1) ∷ int32 (pos 1) ∷ []))) }
    ensures fewer_bytes { below (binary 9 (255 ∷ [])) (binary 0 (0 ∷ 0 ∷ [])) }
    ensures a_subtype_before_bytes { below (binary 0 (255 ∷ [])) (binary 1 (0 ∷ [])) }
    ensures bytes_of_one_subtype { below (binary 0 (1 ∷ 2 ∷ [])) (binary 0 (2 ∷ 1 ∷ [])) }
    ensures object_ids_by_bytes { below (object_id (0 ∷ 255 ∷ [])) (object_id (1 ∷ 0 ∷ [])) }
    ensures false_before_true { below (boolean false) (boolean true) }
    ensures dates_before_1970 { below (date (negsuc 0)) (date (pos 0)) }
    ensures timestamps_without_sign { below (timestamp 1) (timestamp 18446744073709551615) }
    ensures one_null { order null null ≡ Equal }
    ensures one_min_key { order min_key min_key ≡ Equal }
    ensures one_max_key { order max_key max_key ≡ Equal }
{}
