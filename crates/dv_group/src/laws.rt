//! Laws of the rows of groups at positions, each the contract of a function that does nothing: without the positions they are those
//! of `$group`, and a change of a row changes few of them.

ghost use Rattle.std.specs.Prelude.{◌≡◌};
ghost use Rattle.dv_change.specs.Changes.{Positioned, forget};
ghost use Rattle.dv_change.specs.Inner.Bounds.{ChangesAtMost};
ghost use Rattle.dv_gather.specs.Grouping.{Grouping, grouped};
ghost use Rattle.dv_group.specs.Placed.{grouped_at};

/// Without positions, the rows of groups are those of `$group`.
#[tactic(auto, using(crate::proofs::Lawful::lawful))]
pub fn grouped_rows_are_the_rows_of_groups()
    ensures { (group : Grouping) (rows : Positioned) → forget (grouped_at group rows) ≡ grouped group (forget rows) }
{}

/// A change of a row changes at most two of the rows of groups: that of the group from which it is removed, and that of the group
/// to which it is added.
#[tactic(auto, using(crate::proofs::Lawful::lawful))]
pub fn a_group_hands_on_two_changes()
    ensures { (group : Grouping) → ChangesAtMost 2 (grouped_at group) }
{}
