//! The laws of collections, each the contract of a function that does nothing.

ghost use Rattle.std.specs.Prelude.{◌≡◌, ◌∷◌, ℕ, Bool, List, None, Some, codes, false, filter, if◌then◌else◌, take, true};
ghost use Rattle.std.specs.List.{AllByRecursion};
ghost use Rattle.std.specs.Option.{option_map};
ghost use Rattle.std.specs.Ordering.{is_eq};
ghost use Rattle.std.specs.Str.{bytes_eq};
ghost use Rattle.dv_value.specs.FieldChange.{with_field_changed};
ghost use Rattle.dv_value.specs.Tree.{Field};
ghost use Rattle.dv_value.specs.declared.field_change.FieldChange.{FieldChange};
ghost use Rattle.dv_order.specs.Key.{KeyTree, key_order};
ghost use Rattle.dv_coll.specs.Collection.{AreStanding, HasId, IsAscending, found, has_key, id_key, inserted, removed, replaced};

/// Documents ascend after one is inserted whose `_id` is new.
#[tactic(auto, using(crate::proofs::Inserted::inserted_ascending))]
pub fn inserted_documents_ascend()
    ensures { (d : List Field) (ds : List (List Field)) → IsAscending ds → found (id_key d) ds ≡ None → IsAscending (inserted d ds) }
{}

/// Documents that begin with an `_id` still do after another such document is inserted.
#[tactic(auto, using(crate::proofs::Places::places))]
pub fn inserted_documents_begin_with_ids()
    ensures { (d : List Field) (ds : List (List Field)) → HasId d → AllByRecursion HasId ds → AllByRecursion HasId (inserted d ds) }
{}

/// A document whose `_id` is new is found after it is inserted, and under each other key what was found before.
#[tactic(auto, using(crate::proofs::Inserted::found_inserted))]
pub fn inserted_document_is_found()
    ensures { (k : KeyTree) (d : List Field) (ds : List (List Field)) → found (id_key d) ds ≡ None → found k (inserted d ds) ≡ (if has_key k d then Some d else found k ds) }
{}

/// Documents ascend after one is removed.
#[tactic(auto, using(crate::proofs::Removed::removed_ascending))]
pub fn removed_documents_ascend()
    ensures { (k : KeyTree) (ds : List (List Field)) → IsAscending ds → IsAscending (removed k ds) }
{}

/// Documents that begin with an `_id` still do after one is removed.
#[tactic(auto, using(crate::proofs::Removed::identified_removed))]
pub fn removed_documents_begin_with_ids()
    ensures { (k : KeyTree) (ds : List (List Field)) → AllByRecursion HasId ds → AllByRecursion HasId (removed k ds) }
{}

/// Nothing is found under a key after its document is removed, and under each other key what was found before.
#[tactic(auto, using(crate::proofs::Removed::found_removed))]
pub fn removed_document_is_not_found()
    ensures { (k l : KeyTree) (ds : List (List Field)) → found l (removed k ds) ≡ (if is_eq (key_order k l) then None else found l ds) }
{}

/// Documents ascend after one is put in place of another.
#[tactic(auto, using(crate::proofs::Replaced::replaced_ascending))]
pub fn replaced_documents_ascend()
    ensures { (d : List Field) (ds : List (List Field)) → HasId d → AllByRecursion HasId ds → IsAscending ds → IsAscending (replaced d ds) }
{
    dv_order::laws::equal_keys_are_one();
}

/// Documents that begin with an `_id` still do after another such document is put in place of one.
#[tactic(auto, using(crate::proofs::Replaced::identified_replaced))]
pub fn replaced_documents_begin_with_ids()
    ensures { (d : List Field) (ds : List (List Field)) → HasId d → AllByRecursion HasId ds → AllByRecursion HasId (replaced d ds) }
{}

/// A document is found under its `_id` after it is put in place of one with an equal `_id`, and under each other key what was found
/// before. If there is no such document, nothing changes.
#[tactic(auto, using(crate::proofs::Replaced::found_replaced))]
pub fn replaced_document_is_found()
    ensures { (k : KeyTree) (d : List Field) (ds : List (List Field)) → found k (replaced d ds) ≡ (if has_key k d then option_map (λ e. d) (found k ds) else found k ds) }
{}

/// A change of another field leaves the `_id` as it is.
#[tactic(auto, using(crate::proofs::Changed::id_kept))]
pub fn a_change_of_another_field_leaves_the_id()
    ensures begins { (name : List ℕ) (c : FieldChange) (d : List Field) → bytes_eq name (codes "_id") ≡ false → HasId d → HasId (with_field_changed name c d) }
    ensures key { (name : List ℕ) (c : FieldChange) (d : List Field) → bytes_eq name (codes "_id") ≡ false → HasId d → id_key (with_field_changed name c d) ≡ id_key d }
{}

/// A document that is found under a key has it, and begins with an `_id` if all documents do.
#[tactic(auto, using(crate::proofs::Changed::found_with_key))]
pub fn what_is_found_has_the_key()
    ensures key { (k : KeyTree) (d : List Field) (ds : List (List Field)) → found k ds ≡ Some d → has_key k d ≡ true }
    ensures begins { (k : KeyTree) (d : List Field) (ds : List (List Field)) → AllByRecursion HasId ds → found k ds ≡ Some d → HasId d }
{}

/// Ascending documents are found under their `_id`s as they are; so are those of them that pass a test, and the first one; and so
/// are the others after a document with an equal `_id` is put in place of the first.
#[tactic(auto, using(crate::proofs::Standing::standing))]
pub fn documents_stand_where_they_are_found()
    ensures all { (ds : List (List Field)) → IsAscending ds → AreStanding ds ds }
    ensures passing { (p : List Field → Bool) (ds those : List (List Field)) → AreStanding ds those → AreStanding ds (filter p those) }
    ensures first { (ds those : List (List Field)) → AreStanding ds those → AreStanding ds (take 1 those) }
    ensures others { (d e : List Field) (ds those : List (List Field)) → AreStanding ds (e ∷ those) → id_key d ≡ id_key e → AreStanding (replaced d ds) those }
{}
