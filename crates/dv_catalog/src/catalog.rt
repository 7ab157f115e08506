//! Collections and views together.

ghost use Rattle.std.specs.Prelude.{◌≡◌};

mod deletes;

use crate::collections::Collections;
use crate::counts::{Counted, NOTHING};
use crate::effect::{Changes, Effect};
use crate::explained::{Explained, explained_in, explained_view};
use crate::failure::{Stopped, refusal_of};
use crate::front::rows_of_stages;
use crate::indexing::IndexCounts;
use crate::laws::{changes_keep_the_order, told_changes_are_made};
use crate::refresh::{law_shown, refresh_read, refresh_under};
use crate::scan::scan;
use crate::sources::documents_under;
use crate::standing::searched_in;
use crate::stats::{Stats, is_live};
use crate::update::updated_in;
use crate::view_changes::{one_told, told};
use dv_command::{Aggregate, Create, Find, Refusal, Updating, ViewOn};
use dv_index::NewIndex;
use dv_match::Filter;
use dv_value::{Document, NoMemory};
use dv_views::{ToldRegistry, names_read};
use std::alloc::Global;
use std::marker::Model;

/// Collections, and views over them and over older views, in the order in which they were made. Each view that isn't stale keeps
/// the rows of its pipeline over the current contents of what it reads, and counts the work that changes took.
#[derive(Debug, Drop)]
pub struct Catalog {
    alloc: Global,
    collections: Collections,
    views: ToldRegistry,
}

impl Model for Catalog {
    ghost use Rattle.dv_catalog.specs.Marks.{Marked};
    ghost use Rattle.dv_catalog.specs.Inner.StateCode.{coded_marked};
    ghost use Rattle.dv_catalog.specs.Inner.CatalogParts.{IsKept, marked_of};

    ghost Value = { Marked };

    ghost coded = { coded_marked };

    ghost view = { λ c. marked_of c.collections c.views };

    ghost invariant = { λ c. IsKept c.collections c.views };
}

impl Catalog {
    ghost use Rattle.std.specs.FinMap as finite;
    ghost use Rattle.std.specs.Option.{option_map};
    ghost use Rattle.std.specs.Prelude.{◌≡◌, ◌≤◌, ◌∷◌, [], true, false, map, take, Ok, Some, IfOk, OnErr, length};
    ghost use Rattle.dv_coll.specs.Collection.{HasId};
    ghost use Rattle.dv_command.specs.Inner.View.{aggregate_seen, create_seen, find_seen, updating_seen, view_on_seen};
    ghost use Rattle.dv_catalog.specs.Changes.{apply};
    ghost use Rattle.dv_catalog.specs.Effects as effects;
    ghost use Rattle.dv_catalog.specs.Inner.EffectView.{ArePlaced, StandsFor, changes_seen, effect_seen};
    ghost use Rattle.dv_catalog.specs.IndexMaking as indexing;
    ghost use Rattle.dv_catalog.specs.Inner.IndexParts.{explained_seen, index_counts};
    ghost use Rattle.dv_catalog.specs.Marks.{AreMarkedByDrop, LiveReadNoStale, all_gone, nothing_marked, stats_of, stored_of};
    ghost use Rattle.dv_catalog.specs.Inner.Parts.{AreMarkedFrom, Leaves, Makes, MakesCounted, MakesSo, Reads, StandBehind, StandBy, StandCreated, StandSo, one_changed};
    ghost use Rattle.dv_catalog.specs.Inner.StatsView.{stats_seen};
    ghost use Rattle.dv_catalog.specs.Scan as scans;
    ghost use Rattle.dv_catalog.specs.State.{AreOrdered, documents_of, indexes_of, is_collection, is_there, is_view, rows_of};
    ghost use Rattle.dv_keyed.specs.Inner.View.{form_of_new};
    ghost use Rattle.dv_views.specs.Forms as forms;
    ghost use Rattle.dv_catalog.specs.Views as making;

    /// No collections and no views.
    pub fn new(alloc: Global) -> Self
        ensures { result ≡ nothing_marked }
    {
        Catalog {
            alloc,
            collections: Collections::new(alloc),
            views: ToldRegistry::new(alloc),
        }
    }

    /// A law: no live view reads a stale one. Does nothing.
    pub fn law_live_read_no_stale(&self)
        ensures { LiveReadNoStale self.now.state.views self.now.marks }
    {
        self.views.law_sound();
    }

    /// Whether there is a view under the namespace. Takes no memory.
    pub fn is_view(&self, namespace: &str) -> bool
        ensures { result ≡ is_view namespace.now self.now.state.views }
    {
        self.views.has(namespace)
    }

    /// Puts a document into the collection of a namespace, which is made if it doesn't exist. Refused with `DuplicateKey` if
    /// another document has an equal `_id`, or has a key in common with this one in a unique index, and with `WantOfMemory`; then
    /// nothing is changed, and no collection is made. The namespace has no view.
    pub fn insert(&mut self, namespace: &str, document: Document) -> Result<(), Stopped>
        requires identified { HasId document }
        requires collection { is_view namespace.now self.old.state.views ≡ false }
        ensures made { Makes (λ _. one_changed) namespace.now (effects.put_new document) self.old.state.namespaces result self.new.state.namespaces }
        ensures views { self.new.state.views ≡ self.old.state.views }
        ensures marks { StandBehind namespace.now (effects.put_new document) self.old result self.new.marks }
    {
        // After the change nothing may run out of memory.
        let told = one_told(self.alloc, &self.views, namespace, &document)?;
        told_changes_are_made();
        dv_views::laws::what_is_not_read_does_not_matter();
        dv_views::laws::what_is_not_read_is_not_counted();
        self.collections.law_ordered(namespace);
        self.collections.insert(namespace, document)?;
        self.views.apply(namespace, &told);
        Ok(())
    }

    /// Updates the documents of a namespace that an updating selects. Refused as the first refused document is, then with
    /// `DuplicateKey` if one of the changes, made one after the other, would put a key of a unique index under two `_id`s; then
    /// nothing is changed. If memory runs out, only the first changes are made, or none, but never all. The namespace has no view.
    pub fn update(&mut self, namespace: &str, updating: &Updating) -> Result<Counted, Stopped>
        requires { is_view namespace.now self.old.state.views ≡ false }
        ensures made { MakesCounted namespace.now (effects.update_chosen (updating_seen updating.now)) self.old result self.new }
        ensures views { self.new.state.views ≡ self.old.state.views }
        ensures marks { StandBehind namespace.now (effects.update_chosen (updating_seen updating.now)) self.old result self.new.marks }
    {
        // Views share the documents that are passed to them.
        let whole = self.views.is_read(namespace);
        let effect = match self.collections.get(namespace) {
            Some(collection) => updated_in(self.alloc, collection, updating, whole)?,
            None => return Ok(NOTHING),
        };
        self.carry_out(namespace, effect)
    }

    /// Makes the changes of an effect, one after the other, passes them to the views, and returns the counts of the statement. If
    /// memory runs out, only the first changes are made, or none, but never all; only these are passed to the views.
    fn carry_out(&mut self, namespace: &str, effect: Effect) -> Result<Counted, Stopped>
        requires collection { is_view namespace.now self.old.state.views ≡ false }
        requires ordered { AreOrdered (documents_of namespace.now self.old.state.namespaces) }
        requires placed { ArePlaced (documents_of namespace.now self.old.state.namespaces) (changes_seen effect.changes) }
        requires standing { StandsFor (documents_of namespace.now self.old.state.namespaces) effect.changes }
        ensures made { MakesSo (λ counted. counted) namespace.now (Ok (effect_seen effect)) self.old.state.namespaces result self.new.state.namespaces }
        ensures views { self.new.state.views ≡ self.old.state.views }
        ensures marks { StandBy namespace.now (Ok (effect_seen effect)) self.old result self.new.marks }
    {
        let Effect { matched, changes } = effect;
        let changed = changes.len();
        let done = self.make(namespace, changes)?;
        if done < changed {
            return Err(Stopped {
                refusal: Refusal::WantOfMemory,
                done,
            });
        }
        Ok(Counted { matched, changed })
    }

    /// Makes changes, one after the other, until memory runs out, passes the changes that were made to the views, and returns their
    /// number. Fails when memory runs out before the first; then nothing is changed.
    fn make(&mut self, namespace: &str, changes: Changes) -> Result<usize, NoMemory>
        requires collection { is_view namespace.now self.old.state.views ≡ false }
        requires ordered { AreOrdered (documents_of namespace.now self.old.state.namespaces) }
        requires placed { ArePlaced (documents_of namespace.now self.old.state.namespaces) (changes_seen changes) }
        requires standing { StandsFor (documents_of namespace.now self.old.state.namespaces) changes }
        ensures count { IfOk result (λ done. done ≤ length (changes_seen changes)) }
        ensures made { IfOk result (λ done. self.new.state.namespaces ≡ apply namespace.now (take done (changes_seen changes)) self.old.state.namespaces) }
        ensures kept { OnErr result (self.new ≡ self.old) }
        ensures views { self.new.state.views ≡ self.old.state.views }
        ensures marks { IfOk result (λ done. AreMarkedFrom namespace.now (take done (changes_seen changes)) self.old self.new.marks) }
    {
        // After the first change, only another change may run out of memory.
        let mut told = told(
            self.alloc,
            &self.views,
            &self.collections,
            namespace,
            &changes,
        )?;
        told_changes_are_made();
        dv_views::laws::what_is_not_read_does_not_matter();
        dv_views::laws::what_is_not_read_is_not_counted();
        let done = self.collections.make(namespace, changes);
        told.truncate(done);
        self.views.apply(namespace, &told);
        Ok(done)
    }

    /// The rows that a find returns from a namespace, in its order. Stale views that it needs are recomputed first. Fails with
    /// `NoMemory` when memory runs out; then some of these may be recomputed.
    pub fn find(&mut self, find: &Find) -> Result<Vec<Document>, NoMemory>
        ensures rows { let asked = find_seen find.now in
            IfOk result (λ rows. rows.items ≡ scans.scan asked.filter asked.sort asked.skip asked.limit (rows_of asked.namespace self.old.state)) }
        ensures marks { Reads ((find_seen find.now).namespace ∷ []) self.old result self.new }
    {
        refresh_under(
            self.alloc,
            &self.collections,
            &mut self.views,
            &find.namespace,
        )?;
        law_shown(&self.views);
        scan(
            self.alloc,
            searched_in(&self.collections, &self.views, &find.namespace),
            find,
        )
    }

    /// How the rows under a namespace that match a filter are found, and how many the plan covers. Stale views that they need are
    /// recomputed first. Fails with `NoMemory` when memory runs out; then some of these may be recomputed.
    pub fn explain(&mut self, namespace: &str, filter: &Filter) -> Result<Explained, NoMemory>
        ensures explained { IfOk result (λ told. explained_seen told ≡ indexing.explained namespace.now filter.now self.old.state) }
        ensures marks { Reads (namespace.now ∷ []) self.old result self.new }
    {
        refresh_under(self.alloc, &self.collections, &mut self.views, namespace)?;
        law_shown(&self.views);
        if let Some(rows) = self.views.rows(namespace) {
            return Ok(explained_view(rows));
        }
        explained_in(self.alloc, &self.collections, namespace, filter)
    }

    /// The rows of a pipeline over what is under a namespace. Stale views that it needs are recomputed first. Fails with `NoMemory`
    /// when memory runs out; then some of these may be recomputed.
    pub fn aggregate(&mut self, aggregate: &Aggregate) -> Result<Vec<Document>, NoMemory>
        ensures rows { let asked = aggregate_seen aggregate.now in
            IfOk result (λ rows. rows.items ≡ making.aggregated asked.stages asked.namespace self.old.state) }
        ensures marks { let asked = aggregate_seen aggregate.now in
            Reads (forms.names_read asked.stages asked.namespace) self.old result self.new }
    {
        let Aggregate {
            namespace,
            pipeline,
            ..
        } = aggregate;
        refresh_read(
            self.alloc,
            &self.collections,
            &mut self.views,
            namespace,
            pipeline,
        )?;
        law_shown(&self.views);
        dv_pipe::laws::what_is_not_read_does_not_matter();
        rows_of_stages(
            self.alloc,
            &self.collections,
            &self.views,
            pipeline.stages(),
            namespace,
        )
    }

    /// The state of the view of a namespace; none if there is no view there. A stale view stays stale. Takes no memory.
    pub fn stats(&self, namespace: &str) -> Option<Stats>
        ensures { option_map stats_seen result ≡ stats_of namespace.now self.now }
    {
        law_shown(&self.views);
        let state = self.views.state(namespace)?;
        let rows = self.views.row_count(namespace)?;
        let ticks = self.views.ticks(namespace)?;
        Some(Stats {
            is_live: is_live(state),
            rows,
            ticks,
        })
    }

    /// The rows that the view of a namespace keeps, in their order: those of its pipeline over the current contents of what it
    /// reads. None if there is no view there, or a stale one. Takes no memory.
    pub fn stored_rows(&self, namespace: &str) -> Option<dv_views::ViewRows<'_>>
        ensures { result ≡ stored_of namespace.now self.now }
    {
        law_shown(&self.views);
        self.views.rows(namespace)
    }

    /// Makes a collection without documents, or a view, which has its rows from then on; stale views that it needs are recomputed.
    /// Refused with `NamespaceExists` if there is something under the namespace; then, for a view, with `ReadByView` if a view
    /// reads the namespace or it would read itself, and with `LimitReached` if there are 1,000 views, or its height would be over 8
    /// (a view over only collections has height 1, and any other is higher than all that it reads); and with `WantOfMemory`. Then
    /// nothing is changed, except that if memory runs out some of these stale views may be recomputed.
    pub fn create(&mut self, create: Create) -> Result<(), Refusal>
        ensures made { let asked = create_seen create in Leaves (making.created asked.namespace asked.view self.old.state) self.old.state result self.new.state }
        ensures marks { StandCreated (create_seen create).view self.old result self.new.marks }
    {
        let Create { namespace, view } = create;
        if self.collections.has(&namespace) || self.views.has(&namespace) {
            return Err(Refusal::NamespaceExists);
        }
        match view {
            None => {
                dv_views::laws::what_is_not_read_does_not_matter();
                Ok(self.collections.make_empty(&namespace)?)
            }
            Some(view) => self.create_view(&namespace, view),
        }
    }

    /// Makes a view under a namespace that doesn't exist, as `create` does.
    fn create_view(&mut self, namespace: &str, view: ViewOn) -> Result<(), Refusal>
        requires { is_there namespace.now self.old.state ≡ false }
        ensures made { Leaves (making.made namespace.now (Some (view_on_seen view)) self.old.state) self.old.state result self.new.state }
        ensures marks { StandCreated (Some (view_on_seen view)) self.old result self.new.marks }
    {
        let ViewOn { source, pipeline } = view;
        let names = names_read(self.alloc, &source, &pipeline)?;
        let needed = self.views.needed(names)?;
        let sources = documents_under(self.alloc, &self.collections, &needed)?;
        match self.views.create(namespace, &source, pipeline, &sources) {
            Ok(()) => Ok(()),
            Err(fault) => Err(refusal_of(fault)),
        }
    }

    /// Removes what is under a namespace: a collection, which is then empty for the views that read it, or a view. Refused with
    /// `NamespaceNotFound` if there is nothing, and with `ReadByView` if a view reads the view that is there; then nothing is
    /// changed. If memory runs out when a change is passed to a view, that view is stale.
    pub fn remove(&mut self, namespace: &str) -> Result<(), Refusal>
        ensures made { Leaves (making.dropped namespace.now self.old.state) self.old.state result self.new.state }
        ensures marks { StandSo (AreMarkedByDrop namespace.now self.old.state self.old.marks) self.old.marks result self.new.marks }
    {
        if self.collections.has(namespace) {
            self.remove_collection(namespace);
            return Ok(());
        }
        if !self.views.has(namespace) {
            return Err(Refusal::NamespaceNotFound);
        }
        if self.views.is_read(namespace) {
            return Err(Refusal::ReadByView);
        }
        dv_views::laws::a_removed_view_leaves_views_right();
        self.views.remove(namespace);
        Ok(())
    }

    /// Removes the collection of a namespace, which exists.
    fn remove_collection(&mut self, namespace: &str)
        requires { is_collection namespace.now self.old.state.namespaces ≡ true }
        ensures state { self.new.state ≡ record self.old.state { namespaces = finite.remove self.old.state.namespaces namespace.now } }
        ensures marks { AreMarkedFrom namespace.now (all_gone (documents_of namespace.now self.old.state.namespaces)) self.old self.new.marks }
    {
        told_changes_are_made();
        dv_views::laws::what_is_not_read_does_not_matter();
        dv_views::laws::what_is_not_read_is_not_counted();
        changes_keep_the_order();
        dv_views::laws::documents_stand_at_their_ids();
        dv_coll::laws::removed_document_is_not_found();
        dv_coll::laws::documents_stand_where_they_are_found();
        self.collections.law_ordered(namespace);
        let Some(collection) = self.collections.get(namespace) else {
            unreachable!()
        };
        self.views.apply_gone(namespace, collection.iter());
        self.collections.remove(namespace);
    }

    /// Makes the indexes of these entries under a namespace, in their order, except those that exist; the collection is made if it
    /// doesn't exist. Refused with `OnView` on a view; then with `ConflictingUpdateOperators` if an existing index or one of an
    /// earlier entry has the name or the path of an entry, but isn't the same index; then with `LimitReached` if there would be
    /// more than 64; then with `DuplicateKey` if a key of a unique one is in two documents; and with `WantOfMemory`. Then nothing
    /// is changed.
    pub fn create_indexes(
        &mut self,
        namespace: &str,
        entries: Vec<NewIndex>,
    ) -> Result<IndexCounts, Refusal>
        ensures made { Leaves (indexing.indexes_created namespace.now (map form_of_new entries.items) self.old.state) self.old.state result self.new.state }
        ensures marks { self.new.marks ≡ self.old.marks }
        ensures counts { IfOk result (λ counts. counts ≡ index_counts namespace.now self.old.state.namespaces self.new.state.namespaces) }
    {
        if self.views.has(namespace) {
            return Err(Refusal::OnView);
        }
        dv_views::laws::what_is_not_read_does_not_matter();
        self.collections.create_indexes(namespace, entries)
    }

    /// Drops the index of a name under a namespace, or with `*` all except that on `_id`, and returns how many there were. Refused
    /// with `OnView` on a view, with `NamespaceNotFound` if there is nothing, with `BadValue` for the index on `_id`, and with
    /// `IndexNotFound` if there is none of the name; then nothing is changed. Takes no memory.
    pub fn drop_indexes(&mut self, namespace: &str, name: &str) -> Result<usize, Refusal>
        ensures made { Leaves (indexing.indexes_dropped namespace.now name.now self.old.state) self.old.state result self.new.state }
        ensures marks { self.new.marks ≡ self.old.marks }
        ensures count { IfOk result (λ count. count ≡ length (indexes_of namespace.now self.old.state.namespaces)) }
    {
        if self.views.has(namespace) {
            return Err(Refusal::OnView);
        }
        dv_views::laws::what_is_not_read_does_not_matter();
        self.collections.drop_indexes(namespace, name)
    }
}
