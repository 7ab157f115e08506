//! A change of the documents under a namespace, which is passed to the views that it reaches, in creation order.

ghost use Rattle.std.specs.Prelude.{◌≡◌, ◌<◌, List, length, map};
ghost use Rattle.std.specs.List.{AllByRecursion};
ghost use Rattle.dv_change.specs.declared.taking.Taken.{Taken};
ghost use Rattle.dv_views.specs.Inner.Handing.{AreSilentBut, IsHandedOn, silenced};
ghost use Rattle.dv_views.specs.Inner.Readers.{readers_of};
ghost use Rattle.dv_views.specs.Inner.Seen.{AreSilent, entry_view};
ghost use Rattle.dv_views.specs.Inner.Views.{AreNamedApart, view_form};

use crate::passing::{lose_at, take_at};
use crate::view::View;
use dv_change::Taken;
use indexmap::IndexMap;
use std::alloc::Global;

/// Passes a change to the views at these places, in their order. These are all views that it reaches.
pub(crate) fn take_each(
    alloc: Global,
    views: &mut IndexMap<String, View>,
    places: &[usize],
    namespace: &str,
    all: &[Taken],
)
    requires places { places.now ≡ readers_of namespace.now (map view_form (map entry_view views.old.entries)) }
    requires apart { AreNamedApart (map entry_view views.old.entries) }
    requires silent { AreSilent views.old.entries }
    ensures { IsHandedOn namespace.now all.now views.old.entries views.new.entries }
{
    'views: for place in places {
        take_at(alloc, views, *place, namespace, all);
    }
    fall_silent(views, places);
}

/// Passes a change for which memory ran out to the views at these places. These are all views that it reaches. Takes no memory.
pub(crate) fn lose_each(
    alloc: Global,
    views: &mut IndexMap<String, View>,
    places: &[usize],
    namespace: &str,
)
    requires places { places.now ≡ readers_of namespace.now (map view_form (map entry_view views.old.entries)) }
    requires apart { AreNamedApart (map entry_view views.old.entries) }
    requires silent { AreSilent views.old.entries }
    ensures { (all : List Taken) → IsHandedOn namespace.now all views.old.entries views.new.entries }
{
    'views: for place in places {
        lose_at(alloc, views, *place, namespace);
    }
    fall_silent(views, places);
}

/// Drops the changes that the views at these places have passed on; the other views have none.
fn fall_silent(views: &mut IndexMap<String, View>, places: &[usize])
    requires places { AllByRecursion (λ place. place < length views.old.entries) places.now }
    requires others { AreSilentBut places.now 0 views.old.entries }
    ensures { views.new.entries ≡ map silenced views.old.entries }
{
    'views: for place in places {
        views[*place].leave();
    }
}
