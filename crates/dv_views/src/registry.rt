//! Views whose registry keeps the documents of the namespaces that they read.

ghost use Rattle.std.specs.Prelude.{◌≡◌, ◌≢◌, [], false, length, map, slice_get, None, OnOk, OnErr};
ghost use Rattle.std.specs.List.{AllByRecursion};
ghost use Rattle.std.specs.Option.{option_copied, option_map};
ghost use Rattle.dv_pipe.specs.Sources.{lists_of};
ghost use Rattle.dv_pipe.specs.Stages.{Lists};
ghost use Rattle.dv_views.specs.Inner.Copies.{AreCopies, AreKeptRight, CountKeptWork, HaveTakenChange, StayKeptRight};
ghost use Rattle.dv_views.specs.Forms as forms;
ghost use Rattle.dv_views.specs.Inner.Made.{IsCreated, StillHolds, needed_for};
ghost use Rattle.dv_views.specs.Inner.Views.{AreInOrder, AreNamedApart, ArePartlyRefreshed, AreRefreshed, AreRight, IsRefusedFor, has_view, mark_ticks, reads_name, rows_shown, state_of_mark, view_form, view_under, views_without};

use crate::copies::Copies;
use crate::fault::ViewFault;
use crate::laws;
use crate::lookups::names_read;
use crate::rows::ViewRows;
use crate::state::ViewState;
use crate::told_registry::ToldRegistry;
use dv_change::Change;
use dv_pipe::{Pipeline, Sources};
use dv_value::{NoMemory, Str};
use std::alloc::Global;
use std::marker::Model;
use std::slice::from_ref;

/// Views in creation order, for a caller that doesn't know which document was at the position of a change before. It keeps the
/// documents of each namespace that views read and that is no view: their memory is shared, and each takes an entry of a tree. A
/// caller that knows the document, because it stores the documents, uses a `ToldRegistry`, which needs no such entries.
#[derive(Debug, Drop)]
pub struct Registry {
    alloc: Global,
    views: ToldRegistry,
    copies: Copies,
}

impl Model for Registry {
    ghost use Rattle.dv_views.specs.Inner.CopiesCode.{coded_kept_views};
    ghost use Rattle.dv_views.specs.Inner.Copies.{KeptViews};

    ghost Value = { KeptViews };

    ghost coded = { coded_kept_views };

    ghost view = { λ r. record { views = r.views; copies = r.copies } };
}

impl Registry {
    /// No view. Memory for views will be allocated by `alloc`.
    pub fn new(alloc: Global) -> Self
        ensures views { result.views ≡ [] }
        ensures copies { result.copies ≡ [] }
    {
        Registry {
            alloc,
            views: ToldRegistry::new(alloc),
            copies: Copies::new(alloc),
        }
    }

    /// The views as a `ToldRegistry`, whose methods that change nothing can be called.
    pub fn views(&self) -> &ToldRegistry
        ensures { result.now ≡ self.now.views }
    {
        &self.views
    }

    /// How many views there are.
    pub fn len(&self) -> usize
        ensures count { result ≡ length self.now.views }
        ensures named_apart { AreNamedApart self.now.views }
    {
        self.views.len()
    }

    /// The name of the view at a place in creation order, counted from 0, if there is one. Takes no memory.
    pub fn name(&self, place: usize) -> Option<&str>
        ensures { option_copied result ≡ option_map (λ v. v.name) (slice_get self.now.views place) }
    {
        self.views.name(place)
    }

    /// Whether the view of this name has its rows. None if there is no such view. Takes no memory.
    pub fn state(&self, name: &str) -> Option<ViewState>
        ensures { result ≡ option_map (λ v. state_of_mark v.mark) (view_under name.now self.now.views) }
    {
        self.views.state(name)
    }

    /// The rows that the view of this name keeps, in order. None if there is no such view, or a stale one. Takes no memory.
    pub fn rows(&self, name: &str) -> Option<ViewRows<'_>>
        ensures { result ≡ rows_shown name.now self.now.views }
    {
        self.views.rows(name)
    }

    /// The ticks of the view of this name: the work that the changes of what it reads took, since its rows were made or recomputed.
    /// Each of its stages counts 1 for each change that it took in, and 1 for each that it returned. The count stays at
    /// 9,223,372,036,854,775,807, and is 0 if the view is stale. None if there is no such view. Takes no memory.
    pub fn ticks(&self, name: &str) -> Option<u64>
        ensures { result ≡ option_map (λ v. mark_ticks v.mark) (view_under name.now self.now.views) }
    {
        self.views.ticks(name)
    }

    /// Whether some view reads the namespace. Takes no memory.
    pub fn is_read(&self, namespace: &str) -> bool
        ensures { result ≡ reads_name self.now.views namespace.now }
    {
        self.views.is_read(namespace)
    }

    /// Adds a view after the others, with the rows of its pipeline. The pipeline reads views, of which the needed stale ones are
    /// recomputed first, and `sources`, each in the order of its `_id`s. Refused with the first of `Exists`, `ReadByView` and
    /// `LimitReached` that applies, which takes no memory; then nothing is changed. If none applies, refused with `NoMemory` when
    /// memory runs out; then views that were recomputed before stay live. If refused, the pipeline is dropped.
    pub fn create(
        &mut self,
        name: &str,
        source: &str,
        pipeline: Pipeline,
        sources: &Sources<'_>,
    ) -> Result<(), ViewFault>
        requires { AllByRecursion (λ n. AreInOrder (lists_of sources.now n)) (needed_for self.old.views pipeline source.now) }
        ensures fault { IsRefusedFor (forms.fault_of_new (map view_form self.old.views) name.now source.now pipeline) result }
        ensures refused { forms.fault_of_new (map view_form self.old.views) name.now source.now pipeline ≢ None → self.new ≡ self.old }
        ensures ok { OnOk result (IsCreated name.now source.now pipeline self.old.views self.new.views) }
        ensures err { OnErr result (ArePartlyRefreshed (needed_for self.old.views pipeline source.now) self.old.views self.new.views) }
        ensures right { StillHolds AreKeptRight (needed_for self.old.views pipeline source.now) (lists_of sources.now) self.old self.new }
    {
        if let Some(fault) = self.views.fault_of_new(name, source, &pipeline) {
            return Err(fault);
        }
        let created = self.keep_and_create(name, source, pipeline, sources);
        self.copies.keep_read(&self.views);
        created
    }

    /// Adds a view that can only be refused because memory runs out. The documents that it needs are kept first.
    fn keep_and_create(
        &mut self,
        name: &str,
        source: &str,
        pipeline: Pipeline,
        sources: &Sources<'_>,
    ) -> Result<(), ViewFault>
        requires read { AllByRecursion (λ n. AreInOrder (lists_of sources.now n)) (needed_for self.old.views pipeline source.now) }
        requires new { forms.fault_of_new (map view_form self.old.views) name.now source.now pipeline ≡ None }
        ensures fault { IsRefusedFor None result }
        ensures ok { OnOk result (IsCreated name.now source.now pipeline self.old.views self.new.views) }
        ensures err { OnErr result (ArePartlyRefreshed (needed_for self.old.views pipeline source.now) self.old.views self.new.views) }
        ensures right { StillHolds AreRight (needed_for self.old.views pipeline source.now) (lists_of sources.now) self.old.views self.new.views }
        ensures copies { StillHolds AreCopies (needed_for self.old.views pipeline source.now) (lists_of sources.now) self.old.copies self.new.copies }
    {
        let names = names_read(self.alloc, source, &pipeline)?;
        let needed = self.views.needed(names)?;
        self.copies
            .keep_all(self.alloc, &needed, &self.views, sources)?;
        self.views.create(name, source, pipeline, sources)
    }

    /// Removes the view of this name, which no view reads, and returns whether there was one. The others keep their order. Takes no
    /// memory.
    pub fn remove(&mut self, name: &str) -> bool
        requires { reads_name self.old.views name.now ≡ false }
        ensures there { result ≡ has_view name.now self.old.views }
        ensures views { self.new.views ≡ views_without name.now self.old.views }
        ensures right { (lists : Lists) → AreKeptRight lists self.old → AreKeptRight lists self.new }
    {
        laws::a_removed_view_leaves_views_right();
        let there = self.views.remove(name);
        self.copies.keep_read(&self.views);
        there
    }

    /// Passes changes that were made to the documents under the namespace to the views that depend on it. Each change is passed to
    /// all these views, in creation order, before the next change. A view takes in the changes of its source first, and then those
    /// of each list that a stage reads by `$lookup`. The changes of a view's rows are passed to the views that read it, one after
    /// the other. A view counts the work that this takes. A view that runs out of memory drops what it keeps and becomes stale,
    /// which takes no memory; so does each view that reads a stale one. If memory runs out for the namespace's own documents, each
    /// view that the change reaches becomes stale.
    pub fn apply(&mut self, namespace: &str, changes: &[Change])
        ensures forms { map view_form self.new.views ≡ map view_form self.old.views }
        ensures right { StayKeptRight namespace.now changes.now self.old self.new }
        ensures counted { CountKeptWork namespace.now changes.now self.old self.new }
    {
        laws::kept_rows_are_those_from_scratch();
        dv_pipe::laws::what_is_not_read_does_not_matter();
        dv_order::laws::equal_keys_are_one();
        'changes: for change in changes {
            self.take(namespace, change);
        }
    }

    /// Passes a change to each view that it reaches, in creation order.
    fn take(&mut self, namespace: &str, change: &Change)
        ensures { HaveTakenChange namespace.now change.now self.old self.new }
    {
        match self.copies.take(namespace, change) {
            Some(taken) => self.views.take(namespace, from_ref(&taken)),
            None => self.views.lose(namespace),
        }
    }

    /// Recomputes the stale views of these names, in creation order, over older views and `sources`, each in the order of its
    /// `_id`s. With each view, the names must include those that it reads, as the names do that `needed` returns. Fails with
    /// `NoMemory` when memory runs out; then views that were recomputed before stay live.
    pub fn refresh(&mut self, names: &[Str], sources: &Sources<'_>) -> Result<(), NoMemory>
        requires closed { forms.IsClosed names.now (map view_form self.old.views) }
        requires read { AllByRecursion (λ n. AreInOrder (lists_of sources.now n)) names.now }
        ensures ok { OnOk result (AreRefreshed names.now self.old.views self.new.views) }
        ensures err { OnErr result (ArePartlyRefreshed names.now self.old.views self.new.views) }
        ensures right { StillHolds AreKeptRight names.now (lists_of sources.now) self.old self.new }
    {
        let refreshed = self.keep_and_refresh(names, sources);
        self.copies.keep_read(&self.views);
        refreshed
    }

    /// Recomputes views as `refresh` does. The documents under the names are kept first.
    fn keep_and_refresh(&mut self, names: &[Str], sources: &Sources<'_>) -> Result<(), NoMemory>
        requires closed { forms.IsClosed names.now (map view_form self.old.views) }
        requires read { AllByRecursion (λ n. AreInOrder (lists_of sources.now n)) names.now }
        ensures ok { OnOk result (AreRefreshed names.now self.old.views self.new.views) }
        ensures err { OnErr result (ArePartlyRefreshed names.now self.old.views self.new.views) }
        ensures right { StillHolds AreRight names.now (lists_of sources.now) self.old.views self.new.views }
        ensures copies { StillHolds AreCopies names.now (lists_of sources.now) self.old.copies self.new.copies }
    {
        self.copies
            .keep_all(self.alloc, names, &self.views, sources)?;
        self.views.refresh(names, sources)
    }
}
