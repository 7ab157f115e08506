//! The views by their names.

ghost use Rattle.std.specs.Prelude.{◌≡◌, ◌≢◌, ◌||◌, ◌<◌, [], false, true, length, map, slice_get, take, None, IfOk, OnOk, OnErr};
ghost use Rattle.std.specs.List.{AllByRecursion, list_any};
ghost use Rattle.std.specs.Option.{option_copied, option_map};
ghost use Rattle.dv_pipe.specs.Sources.{lists_of};
ghost use Rattle.dv_pipe.specs.Stages.{is_read};
ghost use Rattle.dv_change.specs.Inner.Told.{changes_told};
ghost use Rattle.dv_views.specs.Inner.Applied.{CountsWork, StaysRight};
ghost use Rattle.dv_views.specs.Forms as forms;
ghost use Rattle.dv_views.specs.Forms.{is_name_among, names_read};
ghost use Rattle.dv_views.specs.Inner.Made.{IsAdded, IsCreated, IsNoStale, IsRefreshedAt, StillHolds, needed_for};
ghost use Rattle.dv_views.specs.Inner.Seen.{IsSoundRegistry, view_seen};
ghost use Rattle.dv_views.specs.Inner.Turned.{HaveTaken, known_at};
ghost use Rattle.dv_views.specs.Inner.Views.{AreInOrder, AreNamedApart, ArePartlyRefreshed, AreRefreshed, AreRight, IsRefusedFor, view_form, has_view, is_stale, reads_name, mark_rows, rows_shown, state_of_mark, mark_ticks, view_under, views_without};

mod by_id;
mod gone;

use crate::fault::ViewFault;
use crate::handing::take_each;
use crate::laws;
use crate::lookups::{is_listed, lookups_of, names_read, push_names_read};
use crate::making::{Ground, made};
use crate::readers::Readers;
use crate::rows::ViewRows;
use crate::state::ViewState;
use crate::view::View;
use dv_change::Taken;
use dv_pipe::{Pipeline, Sources};
use dv_value::{NoMemory, Str};
use indexmap::IndexMap;
use std::alloc::Global;
use std::marker::Model;
use std::slice::from_ref;

/// How many views there are at most.
const MOST_VIEWS: usize = 1000;

/// The greatest height of a view. A view over collections alone has height 1, and any other view is one higher than the highest
/// view that it reads.
const MOST_HEIGHT: usize = 8;

/// Views in creation order, each under a name of its own. A view is found by its name in constant time, and so are the views that a
/// change of a namespace reaches. It receives each change with the document that was there before; a caller that doesn't know this
/// document uses a `Registry`.
#[derive(Debug, Drop)]
pub struct ToldRegistry {
    alloc: Global,
    views: IndexMap<String, View>,
    readers: Readers,
}

impl Model for ToldRegistry {
    ghost use Rattle.std.specs.Prelude.{map};
    ghost use Rattle.dv_views.specs.Inner.Code.{coded_views};
    ghost use Rattle.dv_views.specs.Inner.Views.{Views};

    ghost Value = { Views };

    ghost coded = { coded_views };

    ghost use Rattle.dv_views.specs.Inner.Readers.{listing_seen};
    ghost use Rattle.dv_views.specs.Inner.Seen.{AreSoundEntries, entry_view};

    ghost view = { λ r. map entry_view r.views.entries };

    ghost invariant = { λ r. AreSoundEntries r.views.entries (listing_seen r.readers.lists.entries) };
}

impl ToldRegistry {
    /// No view. Memory for views will be allocated by `alloc`.
    pub fn new(alloc: Global) -> Self
        ensures { result ≡ [] }
    {
        ToldRegistry {
            alloc,
            views: IndexMap::new(alloc),
            readers: Readers::new(alloc),
        }
    }

    /// How many views there are.
    pub fn len(&self) -> usize
        ensures count { result ≡ length self.now }
        ensures named_apart { AreNamedApart self.now }
    {
        self.views.len()
    }

    /// That no two views have one name, that each reads only older ones, and that a live view reads no stale one. Does nothing.
    pub fn law_sound(&self)
        ensures { IsSoundRegistry self.now }
    {
        let _views = &self.views;
    }

    /// Whether a view has the name. Takes no memory.
    pub fn has(&self, name: &str) -> bool
        ensures { result ≡ has_view name.now self.now }
    {
        self.views.contains_key(name)
    }

    /// The name of the view at a place in creation order, counted from 0, if there is one. Takes no memory.
    pub fn name(&self, place: usize) -> Option<&str>
        ensures { option_copied result ≡ option_map (λ v. v.name) (slice_get self.now place) }
    {
        let (name, _) = self.views.get_index(place)?;
        Some(name.as_str())
    }

    /// Whether the view of this name has its rows. None if there is no such view. Takes no memory.
    pub fn state(&self, name: &str) -> Option<ViewState>
        ensures { result ≡ option_map (λ v. state_of_mark v.mark) (view_under name.now self.now) }
    {
        let view = self.view(name)?;
        Some(view.state())
    }

    /// Whether some view is stale. Takes no memory.
    #[tactic(auto, using(crate::proofs::Entries::stale_seen))]
    pub fn has_stale(&self) -> bool
        ensures { result ≡ list_any (λ v. is_stale v.mark) self.now }
    {
        'views: for view in self.views.values() {
            if view.is_stale() {
                return true;
            }
        }
        false
    }

    /// The rows that the view of this name keeps, in order. None if there is no such view, or a stale one. Takes no memory.
    pub fn rows(&self, name: &str) -> Option<ViewRows<'_>>
        ensures { result ≡ rows_shown name.now self.now }
    {
        let view = self.view(name)?;
        view.rows()
    }

    /// How many rows the view of this name keeps: 0 if it is stale. None if there is no such view. Takes no memory.
    pub fn row_count(&self, name: &str) -> Option<usize>
        ensures { result ≡ option_map (λ v. mark_rows v.mark) (view_under name.now self.now) }
    {
        let view = self.view(name)?;
        Some(view.row_count())
    }

    /// The ticks of the view of this name: the work that the changes of what it reads took, since its rows were made or recomputed.
    /// Each of its stages counts 1 for each change that it took in, and 1 for each that it returned. The count stays at
    /// 9,223,372,036,854,775,807, and is 0 if the view is stale. None if there is no such view. Takes no memory.
    pub fn ticks(&self, name: &str) -> Option<u64>
        ensures { result ≡ option_map (λ v. mark_ticks v.mark) (view_under name.now self.now) }
    {
        let view = self.view(name)?;
        Some(view.ticks())
    }

    /// The view of this name, if there is one.
    fn view(&self, name: &str) -> Option<&View>
        ensures { option_map (λ view. view_seen name.now view.now) result ≡ view_under name.now self.now }
    {
        self.views.get(name)
    }

    /// Whether some view reads the namespace. Takes no memory.
    pub fn is_read(&self, namespace: &str) -> bool
        ensures { result ≡ reads_name self.now namespace.now }
    {
        !self.readers.under(namespace).is_empty()
    }

    /// The names that are needed to compute these: these names, and after them what each needed view reads. Fails with `NoMemory`
    /// when memory runs out.
    pub fn needed(&self, names: Vec<Str>) -> Result<Vec<Str>, NoMemory>
        ensures needed { IfOk result (λ all. all.items ≡ forms.needed (map view_form self.now) names.items) }
        ensures closed { IfOk result (λ all. forms.IsClosed all.items (map view_form self.now)) }
    {
        let mut needed = names;
        let mut place = self.views.len();
        'views: while place > 0 {
            place -= 1;
            if let Some((name, view)) = self.views.get_index(place) {
                if is_listed(&needed, name.as_str()) {
                    push_names_read(&mut needed, view)?;
                }
            }
        }
        Ok(needed)
    }

    /// Why a view with this name, source and pipeline is refused, if there is a reason other than memory: the first one that
    /// applies. Takes no memory.
    pub(crate) fn fault_of_new(
        &self,
        name: &str,
        source: &str,
        pipeline: &Pipeline,
    ) -> Option<ViewFault>
        ensures { result ≡ forms.fault_of_new (map view_form self.now) name.now source.now pipeline.now }
    {
        if self.has(name) {
            return Some(ViewFault::Exists);
        }
        if self.is_read(name) || pipeline.reads(source, name) {
            return Some(ViewFault::ReadByView);
        }
        if self.len() < MOST_VIEWS && self.height_over(source, pipeline) <= MOST_HEIGHT {
            return None;
        }
        Some(ViewFault::LimitReached)
    }

    /// Adds a view after the others, with the rows of its pipeline. The pipeline reads views, of which the needed stale ones are
    /// recomputed first, and `sources`, each in the order of its `_id`s. Refused with the first of `Exists`, `ReadByView` and
    /// `LimitReached` that applies, which takes no memory; then nothing is changed. If none applies, refused with `NoMemory` when
    /// memory runs out; then views that were recomputed before stay live. If refused, the pipeline is dropped.
    pub fn create(
        &mut self,
        name: &str,
        source: &str,
        pipeline: Pipeline,
        sources: &Sources<'_>,
    ) -> Result<(), ViewFault>
        requires { AllByRecursion (λ n. AreInOrder (lists_of sources.now n)) (needed_for self.old pipeline source.now) }
        ensures fault { IsRefusedFor (forms.fault_of_new (map view_form self.old) name.now source.now pipeline) result }
        ensures refused { forms.fault_of_new (map view_form self.old) name.now source.now pipeline ≢ None → self.new ≡ self.old }
        ensures ok { OnOk result (IsCreated name.now source.now pipeline self.old self.new) }
        ensures err { OnErr result (ArePartlyRefreshed (needed_for self.old pipeline source.now) self.old self.new) }
        ensures right { StillHolds AreRight (needed_for self.old pipeline source.now) (lists_of sources.now) self.old self.new }
    {
        if let Some(fault) = self.fault_of_new(name, source, &pipeline) {
            return Err(fault);
        }
        let names = names_read(self.alloc, source, &pipeline)?;
        let needed = self.needed(names)?;
        self.refresh(&needed, sources)?;
        Ok(self.add(name, source, pipeline, sources)?)
    }

    /// Adds a view under a new name after the others. No view that it reads is stale. Fails when memory runs out; then nothing is
    /// changed.
    fn add(
        &mut self,
        name: &str,
        source: &str,
        pipeline: Pipeline,
        sources: &Sources<'_>,
    ) -> Result<(), NoMemory>
        requires new { has_view name.now self.old ≡ false }
        requires unread { (forms.is_read_by (map view_form self.old) name.now || is_read pipeline source.now name.now) ≡ false }
        requires read { AllByRecursion (λ n. AreInOrder (lists_of sources.now n)) (names_read pipeline source.now) }
        requires live { AllByRecursion (λ n. IsNoStale (view_under n self.old)) (names_read pipeline source.now) }
        ensures ok { OnOk result (IsAdded name.now source.now pipeline self.old self.new) }
        ensures err { OnErr result (self.new ≡ self.old) }
        ensures right { StillHolds AreRight (names_read pipeline source.now) (lists_of sources.now) self.old self.new }
    {
        laws::kept_rows_are_those_from_scratch();
        dv_pipe::laws::what_is_not_read_does_not_matter();
        let height = self.height_over(source, &pipeline);
        let lookups = lookups_of(self.alloc, source, pipeline.stages())?;
        let ground = Ground {
            views: &self.views,
            place: self.views.len(),
            sources,
        };
        let rows = made(self.alloc, &ground, &pipeline, source, &lookups)?;
        let source = Str::of(String::from_str(self.alloc, source)?);
        let view = View::new(source, pipeline, lookups, height, rows);
        let readers = self.readers.with(self.alloc, &self.views, &view)?;
        let name = String::from_str(self.alloc, name)?;
        self.views.insert(name, view)?;
        self.readers = readers;
        Ok(())
    }

    /// Removes the view of this name, which no view reads, and returns whether there was one. The others keep their order. Takes no
    /// memory.
    pub fn remove(&mut self, name: &str) -> bool
        requires { reads_name self.old name.now ≡ false }
        ensures there { result ≡ has_view name.now self.old }
        ensures views { self.new ≡ views_without name.now self.old }
    {
        let Some((place, _, _)) = self.views.shift_remove_full(name) else {
            return false;
        };
        self.readers.take_out(place);
        true
    }

    /// Passes changes that were made to the documents under the namespace, each with the document that was there before, to the
    /// views that depend on it. Each change is passed to all these views, in creation order, before the next change. A view takes
    /// in the changes of its source first, and then those of each list that a stage reads by `$lookup`. The changes of a view's
    /// rows are passed to the views that read it, one after the other. A view counts the work that this takes. A view that runs out
    /// of memory drops what it keeps and becomes stale, which takes no memory; so does each view that reads a stale one.
    pub fn apply(&mut self, namespace: &str, all: &[Taken])
        ensures forms { map view_form self.new ≡ map view_form self.old }
        ensures right { StaysRight namespace.now (changes_told all.now) all.now self.old self.new }
        ensures counted { CountsWork namespace.now (changes_told all.now) all.now self.old self.new }
    {
        laws::kept_rows_are_those_from_scratch();
        dv_pipe::laws::what_is_not_read_does_not_matter();
        dv_order::laws::equal_keys_are_one();
        'changes: for taken in all {
            self.take(namespace, from_ref(taken));
        }
    }

    /// Passes a change to each view that it reaches, in creation order.
    pub(crate) fn take(&mut self, namespace: &str, all: &[Taken])
        ensures taken { HaveTaken (known_at namespace.now all.now) self.old self.new }
        ensures sound { IsSoundRegistry self.new }
    {
        let places = self.readers.under(namespace);
        take_each(self.alloc, &mut self.views, places, namespace, all);
    }

    /// Recomputes the stale views of these names, in creation order, over older views and `sources`, each in the order of its
    /// `_id`s. With each view, the names must include those that it reads, as the names do that `needed` returns. Fails with
    /// `NoMemory` when memory runs out; then views that were recomputed before stay live.
    pub fn refresh(&mut self, names: &[Str], sources: &Sources<'_>) -> Result<(), NoMemory>
        requires closed { forms.IsClosed names.now (map view_form self.old) }
        requires read { AllByRecursion (λ n. AreInOrder (lists_of sources.now n)) names.now }
        ensures ok { OnOk result (AreRefreshed names.now self.old self.new) }
        ensures err { OnErr result (ArePartlyRefreshed names.now self.old self.new) }
        ensures right { StillHolds AreRight names.now (lists_of sources.now) self.old self.new }
    {
        'views: for place in 0..self.views.len() {
            self.refresh_at(place, names, sources)?;
        }
        Ok(())
    }

    /// Recomputes the view at a place, if it is stale and its name is one of these. Fails when memory runs out; then nothing is
    /// changed.
    fn refresh_at(
        &mut self,
        place: usize,
        names: &[Str],
        sources: &Sources<'_>,
    ) -> Result<(), NoMemory>
        requires place { place < length self.old }
        requires closed { forms.IsClosed names.now (map view_form self.old) }
        requires read { AllByRecursion (λ n. AreInOrder (lists_of sources.now n)) names.now }
        requires fresh { AllByRecursion (λ v. is_name_among v.name names.now ≡ true → is_stale v.mark ≡ false) (take place self.old) }
        ensures ok { OnOk result (IsRefreshedAt place names.now self.old self.new) }
        ensures err { OnErr result (self.new ≡ self.old) }
        ensures right { StillHolds AreRight names.now (lists_of sources.now) self.old self.new }
    {
        laws::kept_rows_are_those_from_scratch();
        dv_pipe::laws::what_is_not_read_does_not_matter();
        let Some((name, view)) = self.views.get_index(place) else {
            unreachable!()
        };
        if !view.is_stale() || !is_listed(names, name.as_str()) {
            return Ok(());
        }
        let ground = Ground {
            views: &self.views,
            place,
            sources,
        };
        let rows = made(
            self.alloc,
            &ground,
            view.pipeline(),
            view.source(),
            view.lookups(),
        )?;
        let view = &mut self.views[place];
        view.keep(rows);
        Ok(())
    }

    /// The height that a view of the pipeline over `source` would have: one more than the greatest height of what it reads. Takes
    /// no memory.
    fn height_over(&self, source: &str, pipeline: &Pipeline) -> usize
        ensures { result ≡ forms.height_over (forms.heights (map view_form self.now)) pipeline.now source.now }
    {
        let mut highest = 0;
        'views: for (name, view) in &self.views {
            if pipeline.reads(source, name.as_str()) {
                highest = highest.max(view.height());
            }
        }
        highest + 1
    }
}
