//! A change of the documents under a namespace, which is passed on from view to view in creation order.

ghost use Rattle.std.specs.Prelude.{◌≡◌, ◌<◌, ◌∷◌, [], length, map, slice_get, is_some, Some, IfOk, IsTrue};
ghost use Rattle.std.specs.List.{AllByRecursion, list_any};
ghost use Rattle.std.specs.Map.{values_of};
ghost use Rattle.std.specs.Option.{option_map};
ghost use Rattle.dv_views.specs.Inner.Body.{Body};
ghost use Rattle.dv_views.specs.Inner.Ground.{IsLiveView};
ghost use Rattle.dv_views.specs.Inner.Keeping.{IsSoundLive, kept_seen};
ghost use Rattle.dv_views.specs.Inner.Older.{told_found};
ghost use Rattle.dv_views.specs.Inner.Passing.{IsLostAt, IsTakenAt, older_views, told_to};
ghost use Rattle.dv_views.specs.declared.passing.StaleCause.TheVariants.{NoMemory};
ghost use Rattle.dv_views.specs.Inner.Seen.{entry_view};
ghost use Rattle.dv_views.specs.Inner.Turned.{Turns, comes_to, coming_to_lists, coming_under};
ghost use Rattle.dv_views.specs.Inner.Views.{AreNamedApart, view_under};

use crate::keeping::taken_in_told;
use crate::older::older;
use crate::stage_operator::StageOperator;
use crate::view::View;
use dv_change::{Input, Taken, ToldRows};
use dv_value::{NoMemory, Str};
use indexmap::IndexMap;
use std::alloc::{AllocError, Global};

/// Why a view is left stale by a change.
#[derive(Debug, Drop)]
pub(crate) enum StaleCause {
    /// Memory ran out.
    NoMemory,
    /// A view that it reads is stale.
    StaleBelow,
}

impl From<AllocError> for StaleCause {
    ghost from_gives = { λ _ cause. cause ≡ NoMemory };

    fn from(_refused: AllocError) -> StaleCause {
        StaleCause::NoMemory
    }
}

/// A change of the documents under a namespace, as it reaches the view at a place: the views before the place already have the
/// changes of their rows.
#[derive(Drop)]
pub(crate) struct Passing<'a> {
    pub(crate) views: &'a IndexMap<String, View>,
    pub(crate) place: usize,
    pub(crate) namespace: &'a str,
    pub(crate) all: &'a [Taken],
}

impl<'a> Passing<'a> {
    /// The changes under a name. None if the change doesn't reach the name.
    fn told(&self, name: &str) -> Option<&'a [Taken]>
        ensures { option_map (λ all. all.now) result ≡ told_to self.now name.now }
    {
        match older(self.views, self.place, name) {
            Some(view) => view.told(),
            None if name == self.namespace => Some(self.all),
            None => None,
        }
    }

    /// Whether the change reaches the name.
    fn comes_to(&self, name: &str) -> bool
        ensures { result ≡ is_some (told_to self.now name.now) }
    {
        self.told(name).is_some()
    }

    /// Whether the change reaches one of these names.
    fn reaches(&self, names: &[Str]) -> bool
        ensures { result ≡ list_any (λ name. is_some (told_to self.now name)) names.now }
    {
        'names: for name in names {
            if self.comes_to(name.as_str()) {
                return true;
            }
        }
        false
    }

    /// Whether each older view with one of these names is live.
    fn are_live(&self, names: &[Str]) -> bool
        ensures { IsTrue result → AllByRecursion (λ name. IsLiveView (view_under name (older_views self.now))) names.now }
    {
        'names: for name in names {
            if !self.is_live(name.as_str()) {
                return false;
            }
        }
        true
    }

    /// Whether the older view of this name is live. True if there is none.
    fn is_live(&self, name: &str) -> bool
        ensures { IsTrue result → IsLiveView (view_under name.now (older_views self.now)) }
    {
        match older(self.views, self.place, name) {
            Some(view) => view.live().is_some(),
            None => true,
        }
    }

    /// Takes in the changes of the source and of each list that a stage reads by `$lookup`, and returns the rows and their changes.
    /// Fails when memory runs out, or if a view that is read is stale; then the rows are dropped.
    fn turned(
        &self,
        alloc: Global,
        live: ToldRows<StageOperator>,
        source: &str,
        lookups: &[Str],
    ) -> Result<(ToldRows<StageOperator>, Vec<Taken>), StaleCause>
        requires { IsSoundLive live }
        ensures sound { IfOk result (λ r. IsSoundLive r.0) }
        ensures turns { IfOk result (λ r. Turns (coming_under source.now lookups.now (told_to self.now)) (kept_seen live) [] (kept_seen r.0) r.1.items) }
        ensures live { IfOk result (λ _. AllByRecursion (λ name. IsLiveView (view_under name (older_views self.now))) (source.now ∷ lookups.now)) }
    {
        if !self.is_live(source) || !self.are_live(lookups) {
            return Err(StaleCause::StaleBelow);
        }
        let mut told = Vec::new(alloc);
        let come = self.told(source);
        let some = taken_in_told(live, Input::Left, come, &mut told)?;
        let rows = self.taken_by_lists(some, lookups, &mut told)?;
        Ok((rows, told))
    }

    /// Takes in the changes of each list.
    fn taken_by_lists(
        &self,
        live: ToldRows<StageOperator>,
        lookups: &[Str],
        told: &mut Vec<Taken>,
    ) -> Result<ToldRows<StageOperator>, NoMemory>
        requires { IsSoundLive live }
        ensures sound { IfOk result (λ after. IsSoundLive after) }
        ensures turns { IfOk result (λ after. Turns (coming_to_lists 0 lookups.now (told_to self.now)) (kept_seen live) told.old.items (kept_seen after) told.new.items) }
    {
        let mut live = live;
        'lists: for (place, name) in lookups.iter().enumerate() {
            let come = self.told(name.as_str());
            live = taken_in_told(live, Input::Named(place), come, told)?;
        }
        Ok(live)
    }
}

/// Passes a change to the view at a place. If the change reaches what the view reads, the view takes it in and passes on the
/// changes of its rows; if memory runs out for that, or if a view that it reads is stale, it drops what it keeps and becomes stale.
pub(crate) fn take_at(
    alloc: Global,
    views: &mut IndexMap<String, View>,
    place: usize,
    namespace: &str,
    all: &[Taken],
)
    requires place { place < length views.old.entries }
    requires apart { AreNamedApart (map entry_view views.old.entries) }
    ensures { IsTakenAt namespace.now all.now place views.old.entries views.new.entries }
{
    if !is_reached(views, place, namespace, all) {
        views[place].leave();
        return;
    }
    let Some(live) = views[place].take_out(Vec::new(alloc)) else {
        return;
    };
    let passing = Passing {
        views,
        place,
        namespace,
        all,
    };
    let view = &views[place];
    let turned = passing.turned(alloc, live, view.source(), view.lookups());
    views[place].settle(turned);
}

/// Passes a change for which memory ran out to the view at a place. If the change reaches what the view reads, the view drops what
/// it keeps and becomes stale. Takes no memory.
pub(crate) fn lose_at(
    alloc: Global,
    views: &mut IndexMap<String, View>,
    place: usize,
    namespace: &str,
)
    requires place { place < length views.old.entries }
    requires apart { AreNamedApart (map entry_view views.old.entries) }
    ensures { IsLostAt namespace.now place views.old.entries views.new.entries }
{
    if !is_reached(views, place, namespace, &[]) {
        views[place].leave();
        return;
    }
    let _ = views[place].take_out(Vec::new(alloc));
}

/// Whether the change reaches what the view at a place reads.
fn is_reached(views: &IndexMap<String, View>, place: usize, namespace: &str, all: &[Taken]) -> bool
    requires { place < length views.now.entries }
    ensures { (view : Body) → slice_get (values_of views.now.entries) place ≡ Some view → result ≡ comes_to view.stages view.source (told_found namespace.now all.now place views.now.entries) }
{
    let passing = Passing {
        views,
        place,
        namespace,
        all,
    };
    let view = &views[place];
    passing.comes_to(view.source()) || passing.reaches(view.lookups())
}
