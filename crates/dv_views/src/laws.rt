//! Laws about changes and views. Each is the contract of a function that does nothing.

ghost use Rattle.std.specs.Prelude.{◌≡◌, ◌≢◌, ◌≤◌, ◌++◌, ◌∷◌, [], ℕ, List, length, map, Some, None, true, false, codes, is_some, if◌then◌else◌};
ghost use Rattle.std.specs.List.{AllByRecursion, list_any};
ghost use Rattle.std.specs.Str.{bytes_eq};
ghost use Rattle.dv_coll.specs.Collection.{HasId, IsAscending, found, id_key, inserted, removed, replaced};
ghost use Rattle.dv_change.specs.declared.position.Part.TheVariants.{Up};
ghost use Rattle.dv_change.specs.declared.change.Change.{Change};
ghost use Rattle.dv_change.specs.declared.change.Change.TheVariants.{Put, Gone};
ghost use Rattle.dv_change.specs.Changes.{at, with_change};
ghost use Rattle.dv_change.specs.Inner.Changes.{HaveOneLength, IsPositioned};
ghost use Rattle.dv_order.specs.Key.{KeyTree};
ghost use Rattle.dv_pipe.specs.Sources.{Row};
ghost use Rattle.dv_pipe.specs.Stages.{Lists, is_read};
ghost use Rattle.dv_pipe.specs.declared.stage.Stage.{Stage};
ghost use Rattle.dv_views.specs.Changed.{documents_changed};
ghost use Rattle.dv_views.specs.Inner.Changed.{AreMade, AreMadeInTurn, IsMade};
ghost use Rattle.dv_views.specs.Inner.Copies.{AreKeptRight, KeptViews};
ghost use Rattle.dv_views.specs.Inner.Fault.{view_fault_number};
ghost use Rattle.dv_views.specs.Inner.Made.{AreFromScratch};
ghost use Rattle.dv_views.specs.Inner.Examples.{over_lists, seven_views};
ghost use Rattle.dv_views.specs.Flow.{nothing, shares};
ghost use Rattle.dv_views.specs.Forms.{ViewForm, fault_of_new, height_over, heights, is_name_among, is_read_by, names_read, needed, rows_over};
ghost use Rattle.dv_views.specs.Placed.{ListPlaces, own_position, positioned};
ghost use Rattle.dv_views.specs.Inner.Views.{AreNamedApart, AreRight, AreSameWhereRead, Views, view_form, reads_name, rows_shown, views_without};
ghost use Rattle.dv_views.specs.declared.fault.ViewFault.TheVariants.{Exists, LimitReached, NoMemory, ReadByView};

/// A document that is put at its own position replaces the document with an equal `_id`, if there is one. Otherwise it is inserted
/// at its place.
#[tactic(auto, using(crate::proofs::Made::put_made))]
pub fn a_put_is_the_collections()
    ensures { (d : Row) (ds : List Row) → IsAscending ds → documents_changed (Put (own_position d) d ∷ []) ds ≡ (if is_some (found (id_key d) ds) then replaced d ds else inserted d ds) }
{}

/// A removal at the position of a key removes the document that is found under the key.
#[tactic(auto, using(crate::proofs::Made::gone_made))]
pub fn a_gone_is_the_collections()
    ensures { (k : KeyTree) (ds : List Row) → IsAscending ds → documents_changed (Gone (Up k ∷ []) ∷ []) ds ≡ removed k ds }
{}

/// A pipeline reads its source and the lists of its `$lookup`s, and nothing else: the test by which creates and drops are refused, and
/// the names by which changes reach views, say the same.
#[tactic(auto, using(crate::proofs::Right::read_among))]
pub fn what_a_pipeline_reads_is_listed()
    ensures { (stages : List Stage) (source name : List ℕ) → is_read stages source name ≡ is_name_among name (names_read stages source) }
{}

/// Without a change nothing changes.
#[tactic(auto, using(crate::proofs::Made::forgotten))]
pub fn no_change_changes_nothing()
    ensures { (ds : List Row) → documents_changed [] ds ≡ ds }
{}

/// If a collection makes some changes and then others, it makes all of them, one after the other, with the same result.
#[tactic(auto, using(crate::proofs::Turns::changed_parts))]
pub fn changes_follow_on()
    ensures documents { (first second : List Change) (ds : List Row) → AllByRecursion HasId ds → AreMadeInTurn first ds → documents_changed (first ++ second) ds ≡ documents_changed second (documents_changed first ds) }
    ensures made { (first second : List Change) (ds : List Row) → AreMade first ds → AreMadeInTurn second (documents_changed first ds) → AreMade (first ++ second) ds }
{
    dv_order::laws::equal_keys_are_one();
}

/// At the position of a key is the document that is found under the key. After a change that a collection makes, its documents are
/// at their own positions.
#[tactic(auto, using(crate::proofs::Made::found_at))]
pub fn documents_stand_at_their_ids()
    ensures found { (k : KeyTree) (ds : List Row) → at (Up k ∷ []) (positioned ds) ≡ found k ds }
    ensures changed { (c : Change) (ds : List Row) → AllByRecursion HasId ds → IsMade c ds → with_change (positioned ds) c ≡ positioned (documents_changed (c ∷ []) ds) }
{
    dv_order::laws::equal_keys_are_one();
}

/// The rows that stages return at positions are, without the positions, the rows of the pipeline from scratch, if each name that
/// the stages read has the same rows with positions and without them. So a live view, whose rows are updated by changes, keeps what
/// it would have if it were recomputed.
pub fn kept_rows_are_those_from_scratch()
    ensures { (stages : List Stage) (source : List ℕ) (places : ListPlaces) (lists : Lists) → IsPositioned (places source) → HaveOneLength (places source)
        → AreFromScratch stages source places lists }
{
    dv_flow::laws::rows_without_positions_are_those_of_the_stage();
    dv_group::laws::grouped_rows_are_the_rows_of_groups();
    dv_join::laws::joined_rows_are_the_rows_looked_up();
}

/// Views that are right over some lists are right over others that are the same wherever a view reads.
#[tactic(auto, using(crate::proofs::Right::right_over_others))]
pub fn what_is_not_read_does_not_matter()
    ensures { (views : Views) (lists others : Lists) → AreSameWhereRead views lists others → AreRight lists views → AreRight others views }
{
    dv_pipe::laws::what_is_not_read_does_not_matter();
}

/// The same holds of views with the documents that are kept for them.
pub fn what_is_not_read_is_not_kept()
    ensures { (kept : KeptViews) (lists others : Lists) → AreSameWhereRead kept.views lists others → AreKeptRight lists kept → AreKeptRight others kept }
{
    what_is_not_read_does_not_matter();
}

/// Changes of what no view reads reach no view, so they count no work.
#[tactic(auto, using(crate::proofs::Unread::no_shares))]
pub fn what_is_not_read_is_not_counted()
    ensures { (namespace : List ℕ) (changes : List Change) (lists : Lists) (views : List ViewForm) → is_read_by views namespace ≡ false → shares namespace changes lists views ≡ map (λ v. nothing) views }
{}

/// Each view has one share of changes.
#[tactic(auto, using(crate::proofs::Unread::shares_length))]
pub fn each_view_has_its_share()
    ensures { (namespace : List ℕ) (changes : List Change) (lists : Lists) (views : List ViewForm) → length (shares namespace changes lists views) ≡ length views }
{}

/// Views stay right if a view is removed that no view reads.
#[tactic(auto, using(crate::proofs::Right::right_without))]
pub fn a_removed_view_leaves_views_right()
    ensures { (name : List ℕ) (lists : Lists) (views : Views) → reads_name views name ≡ false → AreRight lists views → AreRight lists (views_without name views) }
{
    dv_pipe::laws::what_is_not_read_does_not_matter();
}

/// The rows that a right view shows are the rows under its name. Under a name that is no view's are the documents of the list.
#[tactic(auto, using(crate::proofs::Shown::right_shown, crate::proofs::Shown::no_rows))]
pub fn what_is_shown_is_right()
    ensures rows { (name : List ℕ) (lists : Lists) (views : Views) (rows : List Row) → AreNamedApart views → AreRight lists views → rows_shown name views ≡ Some rows → rows ≡ rows_over (map view_form views) lists name }
    ensures none { (name : List ℕ) (lists : Lists) (views : List ViewForm) → list_any (λ v. bytes_eq name v.name) views ≡ false → rows_over views lists name ≡ lists name }
{}

/// Each requested name is needed, and if none is requested, none is needed.
#[tactic(auto, using(crate::proofs::Needed::asked, crate::proofs::Needed::none_needed))]
pub fn what_is_asked_for_is_needed()
    ensures asked { (views : List ViewForm) (names : List (List ℕ)) (name : List ℕ) → is_name_among name names ≡ true → is_name_among name (needed views names) ≡ true }
    ensures none { (views : List ViewForm) → needed views [] ≡ [] }
{}

/// If there is a view `v` over `c`, no other view can have its name, nor the name of what it reads, `c`. The latter is reported
/// before the limit. A view can't be over itself. Another view over `c` is allowed, and one over `v`, and eight views of which each
/// is over the one before, but no ninth.
pub fn refusals_by_example()
    ensures exists { fault_of_new (over_lists (codes "v") (codes "c") ∷ []) (codes "v") (codes "v") [] ≡ Some Exists }
    ensures read_by_view { fault_of_new (over_lists (codes "v") (codes "c") ∷ []) (codes "c") (codes "d") [] ≡ Some ReadByView }
    ensures itself { fault_of_new [] (codes "w") (codes "w") [] ≡ Some ReadByView }
    ensures beside { fault_of_new (over_lists (codes "v") (codes "c") ∷ []) (codes "w") (codes "c") [] ≡ None }
    ensures on_view { fault_of_new (over_lists (codes "v") (codes "c") ∷ []) (codes "w") (codes "v") [] ≡ None }
    ensures eighth { fault_of_new seven_views (codes "8") (codes "7") [] ≡ None }
    ensures ninth { fault_of_new (seven_views ++ over_lists (codes "8") (codes "7") ∷ []) (codes "9") (codes "8") [] ≡ Some LimitReached }
    ensures read_before_limit { fault_of_new (seven_views ++ over_lists (codes "8") (codes "7") ∷ []) (codes "c") (codes "8") [] ≡ Some ReadByView }
{}

/// The faults of a new view have these numbers.
pub fn faults_have_their_numbers()
    ensures { (view_fault_number Exists ≡ 1) × (view_fault_number ReadByView ≡ 2) × (view_fault_number LimitReached ≡ 4) × (view_fault_number NoMemory ≡ 5) }
{}

/// The thousandth view isn't one too many, and the next is.
#[tactic(auto, using(crate::proofs::Limit::thousandth, crate::proofs::Limit::one_more))]
pub fn there_are_a_thousand_views_at_most()
    ensures thousandth { (views : List ViewForm) (name source : List ℕ) (stages : List Stage) → length views ≡ 999 → height_over (heights views) stages source ≤ 8 → fault_of_new views name source stages ≢ Some LimitReached }
    ensures one_more { (views : List ViewForm) (name source : List ℕ) (stages : List Stage) → length views ≡ 1000 → fault_of_new views name source stages ≢ None }
{}
