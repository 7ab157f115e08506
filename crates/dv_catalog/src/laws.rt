//! The laws of changes, each the contract of a function that does nothing.

ghost use Rattle.std.specs.Prelude.{◌≡◌, ◌<◌, ◌≤◌, ◌++◌, ◌∷◌, [], true, false, codes, length, take, List, Ok, Err};
ghost use Rattle.dv_value.specs.Tree.{Field};
ghost use Rattle.dv_catalog.specs.Changes.{Change, Effect, with_change};
ghost use Rattle.dv_catalog.specs.Effects.{update_chosen};
ghost use Rattle.dv_catalog.specs.IndexMaking.{with_index, within_limit, without_named};
ghost use Rattle.dv_catalog.specs.Inner.Examples.{beside_id};
ghost use Rattle.dv_catalog.specs.Inner.EffectView.{AreAble, BeginsWithId};
ghost use Rattle.dv_catalog.specs.Marks.{LiveReadNoStale, live, stale};
ghost use Rattle.dv_catalog.specs.State.{AreOrdered};
ghost use Rattle.dv_catalog.specs.Inner.Told.{AreToldAsMade};
ghost use Rattle.dv_catalog.specs.Scan.{matching};
ghost use Rattle.dv_catalog.specs.Views.{with_view};
ghost use Rattle.dv_catalog.specs.Inner.ViewParts.{IfUnread};
ghost use Rattle.dv_command.specs.Entries.{Updating};
ghost use Rattle.dv_index.specs.Inner.Indexed.{index_on};
ghost use Rattle.dv_keyed.specs.Index.{IndexForm, id_form};
ghost use Rattle.dv_refusal.specs.declared.refusal.Refusal.TheVariants.{BadValue, ConflictingUpdateOperators, IndexNotFound, LimitReached};
ghost use Rattle.dv_views.specs.Forms.{ViewForm, height_over, heights};
ghost use Rattle.dv_views.specs.Inner.Examples.{over_lists};

/// Documents stay in the order of their `_id`s after a change, if a document that is put begins with its `_id`.
pub fn changes_keep_the_order()
    ensures { (documents : List (List Field)) (change : Change) → AreOrdered documents → BeginsWithId change → AreOrdered (with_change documents change) }
{
    dv_coll::laws::inserted_documents_ascend();
    dv_coll::laws::inserted_documents_begin_with_ids();
    dv_coll::laws::removed_documents_ascend();
    dv_coll::laws::removed_documents_begin_with_ids();
    dv_coll::laws::replaced_documents_ascend();
    dv_coll::laws::replaced_documents_begin_with_ids();
}

/// Changes that can be made, as they are passed to views, are those that a collection makes.
pub(crate) fn told_changes_are_made()
    ensures { (documents : List (List Field)) (changes : List Change) → AreOrdered documents → AreAble documents changes
        → AreToldAsMade documents changes }
{
    changes_keep_the_order();
    dv_views::laws::a_put_is_the_collections();
    dv_views::laws::a_gone_is_the_collections();
    dv_views::laws::no_change_changes_nothing();
    dv_views::laws::changes_follow_on();
}

/// There may be a thousand views, of which none is higher than 8.
pub fn there_may_be_a_thousand_views()
    ensures room { (v : ViewForm) (views : List ViewForm) → length views ≡ 999
        → IfUnread v views (height_over (heights views) v.stages v.source ≤ 8 → with_view v views ≡ Ok (views ++ v ∷ [])) }
    ensures full { (v : ViewForm) (views : List ViewForm) → length views ≡ 1000 → IfUnread v views (with_view v views ≡ Err LimitReached) }
    ensures high { (v : ViewForm) (views : List ViewForm)
        → IfUnread v views (8 < height_over (heights views) v.stages v.source → with_view v views ≡ Err LimitReached) }
{}

/// A view `w` of a stale view `v` is not live.
#[tactic(auto, using(crate::proofs::Stale::live_over_stale))]
pub fn no_view_of_a_stale_one_is_live_by_example()
    ensures { LiveReadNoStale (over_lists (codes "v") (codes "c") ∷ over_lists (codes "w") (codes "v") ∷ []) (stale ∷ live 0 ∷ []) → ⊥ }
{}

/// A collection may have 64 indexes, and no 65th.
#[tactic(auto, using(crate::proofs::ByEntry::sixty_four, crate::proofs::ByEntry::one_more))]
pub fn there_may_be_sixty_four_indexes()
    ensures full { (indexes : List IndexForm) → length indexes ≡ 64 → within_limit indexes ≡ Ok indexes }
    ensures one_more { (indexes : List IndexForm) → length indexes ≡ 65 → within_limit indexes ≡ Err LimitReached }
{}

/// If there is an index `a_1` on `a`, an entry for the same index changes nothing, nor does one on `_id`. Another name for its path
/// is refused, another path under its name, and the same index as a unique one, or as one that isn't unique if the index is; an
/// index on another path is added after it. `dropIndexes` by its name leaves the one on `_id`, which cannot be dropped by its own
/// name; no other name is known.
pub fn indexes_by_example()
    ensures again { with_index (index_on (codes "a_1") (codes "a" ∷ []) false) beside_id ≡ Ok beside_id }
    ensures on_id { with_index (index_on (codes "i") (codes "_id" ∷ []) true) beside_id ≡ Ok beside_id }
    ensures other_name { with_index (index_on (codes "b_1") (codes "a" ∷ []) false) beside_id ≡ Err ConflictingUpdateOperators }
    ensures other_path { with_index (index_on (codes "a_1") (codes "b" ∷ []) false) beside_id ≡ Err ConflictingUpdateOperators }
    ensures as_unique { with_index (index_on (codes "a_1") (codes "a" ∷ []) true) beside_id ≡ Err ConflictingUpdateOperators }
    ensures as_no_unique { with_index (index_on (codes "a_1") (codes "a" ∷ []) false) (id_form ∷ index_on (codes "a_1") (codes "a" ∷ []) true ∷ []) ≡ Err ConflictingUpdateOperators }
    ensures another { with_index (index_on (codes "b_1") (codes "b" ∷ []) true) beside_id ≡ Ok (beside_id ++ index_on (codes "b_1") (codes "b" ∷ []) true ∷ []) }
    ensures dropped { without_named (codes "a_1") beside_id ≡ Ok (id_form ∷ []) }
    ensures id_stays { without_named (codes "_id_") beside_id ≡ Err BadValue }
    ensures unknown { without_named (codes "b_1") beside_id ≡ Err IndexNotFound }
    ensures all_dropped { without_named (codes "*") beside_id ≡ Ok (id_form ∷ []) }
{}

/// An update of all documents counts each document that matches, and an update of the first one counts that one, whether it changes
/// or not.
#[tactic(auto, using(crate::proofs::Counting::all_counted, crate::proofs::Counting::first_counted))]
pub fn an_update_counts_what_it_chooses()
    ensures all { (updating : Updating) (documents : List (List Field)) (effect : Effect) → updating.multi ≡ true
        → update_chosen updating documents ≡ Ok effect → effect.matched ≡ length (matching updating.filter documents) }
    ensures first { (updating : Updating) (documents : List (List Field)) (effect : Effect) → updating.multi ≡ false
        → update_chosen updating documents ≡ Ok effect → effect.matched ≡ length (take 1 (matching updating.filter documents)) }
{}
