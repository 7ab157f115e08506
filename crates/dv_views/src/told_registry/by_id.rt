//! The rows of a view by their `_id`s.

ghost use Rattle.std.specs.Prelude.{◌≡◌, Some, IfSome};
ghost use Rattle.std.specs.List.{AllByRecursion};
ghost use Rattle.dv_change.specs.Changes.{forget};
ghost use Rattle.dv_coll.specs.Collection.{HasId};
ghost use Rattle.dv_pipe.specs.Stages.{Lists};
ghost use Rattle.dv_views.specs.Inner.ById.{AreAtIds};
ghost use Rattle.dv_views.specs.Inner.Views.{AreRight, rows_shown};

use crate::by_id::Standing;
use crate::older::place_before;
use crate::standing::base_at;
use crate::told_registry::ToldRegistry;

impl ToldRegistry {
    /// The rows that the view of this name keeps, with the namespace whose documents decide whether these rows are in the order of
    /// their `_id`s. The stages must keep this order, as `$match`, `$limit`, a `$project` that shows `_id`, and a `$lookup` that
    /// doesn't replace `_id` do; a `$group` returns rows in this order. None if there is no such view, if it is stale, or if its
    /// rows may be in another order. Takes no memory.
    pub fn standing(&self, name: &str) -> Option<Standing<'_>>
        ensures rows { IfSome result (λ standing. rows_shown name.now self.now ≡ Some (forget standing.1)) }
        ensures ids { IfSome result (λ standing. (lists : Lists) → AreRight lists self.now → AllByRecursion HasId (lists standing.0) → AreAtIds standing.1) }
    {
        let place = place_before(&self.views, self.views.len(), name)?;
        let base = base_at(&self.views, place)?;
        let live = self.views[place].live()?;
        Some(Standing::of(self.alloc, base, live))
    }
}
