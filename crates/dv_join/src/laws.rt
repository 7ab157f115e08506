//! Laws of look-ups at positions, each the contract of a function that does nothing: without the positions they are those of a
//! pipeline, and a change of either side changes few of the rows that they return.

ghost use Rattle.std.specs.Prelude.{◌≡◌};
ghost use Rattle.dv_change.specs.Changes.{Positioned, forget};
ghost use Rattle.dv_gather.specs.declared.lookup.Lookup.{Lookup};
ghost use Rattle.dv_gather.specs.Lookups.{looked_up};
ghost use Rattle.dv_join.specs.Inner.Bounds.{DocumentChangesWithin, RowChangesAtMost, rows_touched_by};
ghost use Rattle.dv_join.specs.Placed.{looked_up_at};

/// Without positions, the joined rows are those of a `$lookup` of the rows.
#[tactic(auto, using(crate::proofs::Lawful::lawful))]
pub fn joined_rows_are_the_rows_looked_up()
    ensures { (lookup : Lookup) (rows foreign : Positioned) → forget (looked_up_at lookup rows foreign) ≡ looked_up lookup (forget rows) (forget foreign) }
{}

/// A change of a row changes at most one of the joined rows.
#[tactic(auto, using(crate::proofs::Lawful::lawful))]
pub fn a_change_of_a_row_hands_on_one_change()
    ensures { (lookup : Lookup) → RowChangesAtMost 1 (looked_up_at lookup) }
{}

/// A change of a document changes at most as many rows as share a value with the document that was there or with the one that is
/// there now.
pub fn a_change_of_a_document_hands_on_the_rows_that_share_a_value()
    ensures { (lookup : Lookup) → DocumentChangesWithin (rows_touched_by lookup) (looked_up_at lookup) }
{}
