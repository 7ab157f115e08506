//! The commands, carried out one by one.

use crate::answers::{batch_or_refusal, hello, outcome_of, ping, refuse, told};
use crate::find::{First, body_of, first_batch, rows_needed};
use crate::indexing::{explained, new_indexes};
use crate::loading::namespace_in;
use crate::more::{kill_all, next_batch};
use crate::outcome::{Batch, Outcome, Told};
use crate::reserve::Reserve;
use crate::storable::storable;
use crate::writes::write_all;
use dv_catalog::Catalog;
use dv_command::replies::{
    create_indexes_reply, drop_indexes_reply, drop_reply, reply_of, view_stats_reply,
};
use dv_command::{
    Aggregate, Asked, Command, Create, CreateIndexes, DropIndexes, DropNamespace, Explain, Find,
    GetMore, KillCursors, Refusal, ReplyNames, ViewStats, Write, parse,
};
use dv_cursor::Cursors;
use dv_value::{Document, NoMemory};
use dv_views::ViewRows;
use dv_views::laws::what_is_shown_is_right;
use std::alloc::Global;
use std::marker::Model;

/// All that commands read and change. `Store` says what is true of it at every moment.
#[derive(Debug, Drop)]
pub(crate) struct Machine {
    alloc: Global,
    catalog: Catalog,
    cursors: Cursors,
    /// Replies share these.
    names: ReplyNames,
}

impl Model for Machine {
    ghost use Rattle.dv_core.specs.State.{State};
    ghost use Rattle.dv_core.specs.Inner.StateCode.{coded_store_state};

    ghost Value = { State };

    ghost coded = { coded_store_state };

    ghost view = { λ s. record { catalog = s.catalog.state; cursors = s.cursors; marks = s.catalog.marks } };
}

impl Machine {
    ghost use Rattle.std.specs.Prelude.{◌≡◌, ◌<◌, ◌^◌, Ok, IfErr, IfOk, OnErr, OnOk};
    ghost use Rattle.dv_value.specs.declared.fault.BsonFault.TheVariants.{NoMemory};
    ghost use Rattle.dv_catalog.specs.Marks.{AreMarkedByDrop, LiveReadNoStale, stored_of};
    ghost use Rattle.dv_catalog.specs.Inner.Parts.{StandCreated, StandSo};
    ghost use Rattle.dv_command.specs.declared.command.Command.TheVariants.{Invalid};
    ghost use Rattle.dv_refusal.specs.Refusals.{UnlessWanting};
    ghost use Rattle.dv_command.specs.Asked as asking;
    ghost use Rattle.dv_command.specs.Inner.View.{aggregate_seen, create_indexes_seen, create_seen, drop_indexes_seen, drop_seen, explain_seen, find_seen, get_more_seen, kill_cursors_seen, view_stats_seen, write_seen};
    ghost use Rattle.dv_core.specs.Find as finding;
    ghost use Rattle.dv_core.specs.Indexes as indexing;
    ghost use Rattle.dv_core.specs.More as more;
    ghost use Rattle.dv_core.specs.Load as loading;
    ghost use Rattle.dv_core.specs.Sound.{AreWithinLimits};
    ghost use Rattle.dv_core.specs.State.{empty_store_state, marked, standing};
    ghost use Rattle.dv_core.specs.Stats as telling;
    ghost use Rattle.dv_core.specs.Step.{MemoryStep, TellsOfWant, end_session};
    ghost use Rattle.dv_core.specs.Inner.StepParts.{AreAnsweredAlike, Ends, GivesAndLeaves, GivesBatch, LoadsOne, StandRead, reply_to_create, reply_to_drop};
    ghost use Rattle.dv_core.specs.Told.{HasLongId, batch_told, outcome_told};
    ghost use Rattle.dv_core.specs.Inner.WriteParts.{WritesOn};
    ghost use Rattle.dv_core.specs.Writes.{write_by};

    /// A machine without any collection.
    pub(crate) fn new(alloc: Global) -> Self
        ensures { result ≡ empty_store_state }
    {
        Machine {
            alloc,
            catalog: Catalog::new(alloc),
            cursors: Cursors::new(alloc),
            names: ReplyNames::new(alloc),
        }
    }

    /// Carries out one command of a session. If memory runs out, the reserve is given back for the reply.
    pub(crate) fn carry_out(
        &mut self,
        session: u32,
        command: &Command,
        reserve: &mut Reserve,
    ) -> Told
        requires { AreWithinLimits self.old }
        ensures step { MemoryStep self.old session command.now (outcome_told result) self.new }
        ensures id { HasLongId result }
        ensures unread { command.now ≡ Invalid NoMemory → TellsOfWant (outcome_told result) }
    {
        match parse(self.alloc, command) {
            Ok(Asked::Hello) => Told::Outcome(outcome_of(self.alloc, reserve, hello(self.alloc))),
            Ok(Asked::Ping) => Told::Outcome(outcome_of(self.alloc, reserve, ping(self.alloc))),
            Ok(Asked::Write(write)) => Told::Outcome(self.write(write, reserve)),
            Ok(Asked::Find(find)) => {
                batch_or_refusal(self.alloc, reserve, self.find(session, find))
            }
            Ok(Asked::Aggregate(aggregate)) => {
                batch_or_refusal(self.alloc, reserve, self.aggregate(session, aggregate))
            }
            Ok(Asked::GetMore(asked)) => {
                batch_or_refusal(self.alloc, reserve, self.get_more(session, asked))
            }
            Ok(Asked::KillCursors(asked)) => {
                Told::Outcome(self.kill_cursors(session, asked, reserve))
            }
            Ok(Asked::Create(create)) => {
                Told::Outcome(outcome_of(self.alloc, reserve, self.create(create)))
            }
            Ok(Asked::Drop(drop)) => {
                Told::Outcome(outcome_of(self.alloc, reserve, self.drop_namespace(drop)))
            }
            Ok(Asked::CreateIndexes(asked)) => Told::Outcome(self.create_indexes(asked, reserve)),
            Ok(Asked::DropIndexes(asked)) => Told::Outcome(self.drop_indexes(asked, reserve)),
            Ok(Asked::Explain(asked)) => {
                Told::Outcome(outcome_of(self.alloc, reserve, self.explain(asked)))
            }
            Ok(Asked::ViewStats(asked)) => {
                Told::Outcome(outcome_of(self.alloc, reserve, self.view_stats(asked)))
            }
            Err(refusal) => Told::Outcome(refuse(self.alloc, reserve, refusal)),
        }
    }

    /// The body of the reply with a batch. Fails when memory runs out.
    pub(crate) fn body_of(&mut self, batch: Batch) -> Result<Document, NoMemory>
        requires { batch.id < 2 ^ 63 }
        ensures body { IfOk result (λ body. body ≡ batch_told batch) }
        ensures state { self.new ≡ self.old }
    {
        self.names.prepare(self.alloc);
        body_of(self.alloc, &self.names, batch)
    }

    /// Carries out a write. The changes of a statement are made one after the other. If one of them would put a key of a unique
    /// index under a second `_id`, the statement is refused before its first change.
    fn write(&mut self, write: Write<'_>, reserve: &mut Reserve) -> Outcome
        ensures { WritesOn (write_by (write_seen write.entry)) self.old result self.new }
    {
        if self.catalog.is_view(&write.namespace) {
            return refuse(self.alloc, reserve, Refusal::OnView);
        }
        self.names.prepare(self.alloc);
        write_all(self.alloc, reserve, &self.names, &mut self.catalog, write)
    }

    fn find(&mut self, session: u32, find: Find) -> Result<Batch, Refusal>
        requires { AreWithinLimits self.old }
        ensures catalog { self.new.catalog ≡ self.old.catalog }
        ensures reply { GivesBatch (finding.reply_to_find session (find_seen find) self.old.catalog) self.old.cursors result self.new.cursors }
        ensures id { IfOk result (λ batch. batch.id < 2 ^ 63) }
        ensures marks { StandRead (asking.find (find_seen find)) self.old result self.new.marks }
    {
        let find = self.with_rows_needed(find);
        let rows = self.catalog.find(&find)?;
        let Find {
            namespace,
            batch_size,
            single_batch,
            ..
        } = find;
        let first = First {
            session,
            namespace,
            count: batch_size,
            single: single_batch,
        };
        first_batch(self.alloc, &mut self.cursors, first, rows)
    }

    /// The find. If its first batch is the only one and it reads a collection, its limit is lowered to what that batch may have. No
    /// document of a collection is over the limits, so the find can't be refused for a document that is left out.
    fn with_rows_needed(&self, mut find: Find) -> Find
        requires { AreWithinLimits self.now }
        ensures reply { AreAnsweredAlike (find_seen result) (find_seen find) self.now.catalog }
        ensures namespace { (find_seen result).namespace ≡ (find_seen find).namespace }
    {
        if find.single_batch && !self.catalog.is_view(&find.namespace) {
            what_is_shown_is_right();
            find.limit = rows_needed(find.limit, find.batch_size);
        }
        find
    }

    fn aggregate(&mut self, session: u32, aggregate: Aggregate) -> Result<Batch, Refusal>
        ensures catalog { self.new.catalog ≡ self.old.catalog }
        ensures reply { GivesBatch (finding.reply_to_aggregate session (aggregate_seen aggregate) self.old.catalog) self.old.cursors result self.new.cursors }
        ensures id { IfOk result (λ batch. batch.id < 2 ^ 63) }
        ensures marks { StandRead (asking.aggregate (aggregate_seen aggregate)) self.old result self.new.marks }
    {
        let rows = self.catalog.aggregate(&aggregate)?;
        let Aggregate {
            namespace,
            batch_size,
            ..
        } = aggregate;
        let first = First {
            session,
            namespace,
            count: batch_size,
            single: false,
        };
        first_batch(self.alloc, &mut self.cursors, first, rows)
    }

    fn get_more(&mut self, session: u32, asked: GetMore) -> Result<Batch, Refusal>
        ensures catalog { self.new.catalog ≡ self.old.catalog }
        ensures reply { GivesBatch (more.next_batch session (get_more_seen asked)) self.old.cursors result self.new.cursors }
        ensures id { IfOk result (λ batch. batch.id < 2 ^ 63) }
        ensures marks { self.new.marks ≡ self.old.marks }
    {
        next_batch(&mut self.cursors, session, asked)
    }

    fn kill_cursors(&mut self, session: u32, asked: KillCursors, reserve: &mut Reserve) -> Outcome
        ensures catalog { self.new.catalog ≡ self.old.catalog }
        ensures reply { Ends (Ok (more.killed session (kill_cursors_seen asked) self.old.cursors)) self.old.cursors result self.new.cursors }
        ensures marks { self.new.marks ≡ self.old.marks }
    {
        kill_all(self.alloc, reserve, &mut self.cursors, session, asked)
    }

    fn create(&mut self, create: Create) -> Result<Document, Refusal>
        ensures cursors { self.new.cursors ≡ self.old.cursors }
        ensures reply { GivesAndLeaves (reply_to_create (create_seen create) self.old.catalog) self.old.catalog result self.new.catalog }
        ensures marks { StandCreated (create_seen create).view (marked self.old) result self.new.marks }
    {
        // After the change nothing may run out of memory.
        let reply = reply_of(Document::new(self.alloc))?;
        self.catalog.create(create)?;
        Ok(reply)
    }

    fn drop_namespace(&mut self, drop: DropNamespace) -> Result<Document, Refusal>
        ensures cursors { self.new.cursors ≡ self.old.cursors }
        ensures reply { GivesAndLeaves (reply_to_drop (drop_seen drop) self.old.catalog) self.old.catalog result self.new.catalog }
        ensures marks { StandSo (AreMarkedByDrop (drop_seen drop).namespace self.old.catalog self.old.marks) self.old.marks result self.new.marks }
    {
        let DropNamespace { namespace } = drop;
        // After the change nothing may run out of memory.
        let told = String::from_str(self.alloc, &namespace)?;
        let reply = drop_reply(self.alloc, told)?;
        self.catalog.remove(&namespace)?;
        Ok(reply)
    }

    fn create_indexes(&mut self, asked: CreateIndexes, reserve: &mut Reserve) -> Outcome
        ensures cursors { self.new.cursors ≡ self.old.cursors }
        ensures reply { Ends (indexing.indexed (create_indexes_seen asked) self.old.catalog) self.old.catalog result self.new.catalog }
        ensures marks { self.new.marks ≡ self.old.marks }
    {
        let CreateIndexes { namespace, indexes } = asked;
        let Ok(entries) = new_indexes(self.alloc, indexes) else {
            return refuse(self.alloc, reserve, Refusal::WantOfMemory);
        };
        match self.catalog.create_indexes(&namespace, entries) {
            Ok(counts) => {
                reserve.give_back();
                told(create_indexes_reply(self.alloc, counts.before, counts.after))
            }
            Err(refusal) => refuse(self.alloc, reserve, refusal),
        }
    }

    fn drop_indexes(&mut self, asked: DropIndexes, reserve: &mut Reserve) -> Outcome
        ensures cursors { self.new.cursors ≡ self.old.cursors }
        ensures reply { Ends (indexing.unindexed (drop_indexes_seen asked) self.old.catalog) self.old.catalog result self.new.catalog }
        ensures marks { self.new.marks ≡ self.old.marks }
    {
        let DropIndexes { namespace, index } = asked;
        match self.catalog.drop_indexes(&namespace, &index) {
            Ok(count) => told(drop_indexes_reply(self.alloc, count)),
            Err(refusal) => refuse(self.alloc, reserve, refusal),
        }
    }

    fn explain(&mut self, asked: Explain) -> Result<Document, Refusal>
        ensures same { standing self.old.marks self.new ≡ self.old }
        ensures reply { UnlessWanting (λ reply. reply) (Ok (indexing.find_explained (explain_seen asked) self.old.catalog)) result }
        ensures marks { StandRead (asking.explain (explain_seen asked)) self.old result self.new.marks }
    {
        let Explain { find } = asked;
        let told = self.catalog.explain(&find.namespace, &find.filter)?;
        explained(self.alloc, told)
    }

    fn view_stats(&self, asked: ViewStats) -> Result<Document, Refusal>
        ensures { UnlessWanting (λ reply. reply) (telling.view_told (view_stats_seen asked) (marked self.now)) result }
    {
        let Some(stats) = self.catalog.stats(&asked.namespace) else {
            return Err(Refusal::NamespaceNotFound);
        };
        let reply = view_stats_reply(self.alloc, stats.is_live, stats.rows, stats.ticks)?;
        Ok(reply)
    }

    /// Loads a document into the collection of a namespace, outside any session.
    pub(crate) fn load(&mut self, namespace: &str, document: Document) -> Result<(), i32>
        ensures loaded { OnOk result (loading.IsLoaded namespace.now document self.old self.new) }
        ensures code { IfErr result (λ code. loading.IsCodeOf (loading.loaded namespace.now document self.old) code) }
        ensures kept { OnErr result (self.new ≡ self.old) }
    {
        match self.insert_alone(namespace, &document) {
            Ok(()) => Ok(()),
            Err(refusal) => Err(refusal.code()),
        }
    }

    /// Inserts a document into the collection of the namespace that a text names. Refused for the same reasons as a load; then
    /// nothing is changed.
    fn insert_alone(&mut self, text: &str, document: &Document) -> Result<(), Refusal>
        ensures { LoadsOne text.now document.now self.old result self.new }
    {
        let namespace = namespace_in(self.alloc, text)?;
        if self.catalog.is_view(&namespace) {
            return Err(Refusal::OnView);
        }
        let stored = storable(self.alloc, document)?;
        if let Err(stopped) = self.catalog.insert(&namespace, stored) {
            return Err(stopped.refusal);
        }
        Ok(())
    }

    /// That no live view reads a stale one. Does nothing.
    pub(crate) fn law_live_read_no_stale(&self)
        ensures { LiveReadNoStale self.now.catalog.views self.now.marks }
    {
        self.catalog.law_live_read_no_stale();
    }

    /// The rows that the view of a namespace keeps, in their order. None if there is no view there, or a stale one.
    pub(crate) fn stored_rows(&self, namespace: &str) -> Option<ViewRows<'_>>
        ensures { result ≡ stored_of namespace.now (marked self.now) }
    {
        self.catalog.stored_rows(namespace)
    }

    /// Ends the cursors of a session.
    pub(crate) fn end_session(&mut self, session: u32)
        ensures { self.new ≡ end_session session self.old }
    {
        self.cursors.end_session(session);
    }
}
