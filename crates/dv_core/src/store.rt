//! The store: the machine, and what is true of it at every moment.

use crate::answers::{refuse, told};
use crate::laws::states_stay_orderly;
use crate::machine::Machine;
use crate::outcome::{Outcome, Told};
use crate::reserve::Reserve;
use dv_command::{Command, Refusal};
use dv_value::Document;
use dv_views::ViewRows;
use std::alloc::Global;
use std::marker::Model;

/// All that commands read and change: collections, and views, each of which keeps at every moment the rows of its pipeline over
/// documents of collections and rows of older views, or none if it is stale. And the cursors of all sessions, with the rows that
/// they have not returned yet. The documents of a collection are in the order of their `_id`s, no two of which are equal, and no
/// key of a unique index is in two of them.
#[derive(Debug, Drop)]
pub struct Store {
    alloc: Global,
    machine: Machine,
    reserve: Reserve,
}

impl Model for Store {
    ghost use Rattle.dv_core.specs.State.{State};
    ghost use Rattle.dv_core.specs.Inner.StateCode.{coded_store_state};
    ghost use Rattle.dv_core.specs.Sound.{IsOrderly};

    ghost Value = { State };

    ghost coded = { coded_store_state };

    ghost view = { λ s. s.machine };

    ghost invariant = { λ s. IsOrderly s.machine };
}

impl Store {
    ghost use Rattle.std.specs.Prelude.{◌≡◌, IfErr, OnErr, OnOk};
    ghost use Rattle.dv_value.specs.declared.fault.BsonFault.TheVariants.{NoMemory};
    ghost use Rattle.dv_catalog.specs.Marks.{LiveReadNoStale, stored_of};
    ghost use Rattle.dv_command.specs.declared.command.Command.TheVariants.{Invalid};
    ghost use Rattle.dv_core.specs.Load as loading;
    ghost use Rattle.dv_core.specs.State.{empty_store_state, marked};
    ghost use Rattle.dv_core.specs.Step.{MemoryStep, TellsOfWant, end_session};
    ghost use Rattle.dv_core.specs.Inner.StepParts.{IsMadeOf};
    ghost use Rattle.dv_core.specs.Told.{HasLongId, outcome_told};

    /// A store without any collection.
    pub fn new(alloc: Global) -> Self
        ensures { result ≡ empty_store_state }
    {
        states_stay_orderly();
        Store {
            alloc,
            machine: Machine::new(alloc),
            reserve: Reserve::new(alloc),
        }
    }

    /// Carries out one command of a session: one step of the machine. A command that is refused changes nothing, and its reply says
    /// why. If memory runs out, the command is refused for that, or a write ends at the statement that ran out of memory; and after
    /// any of these there may be no reply. 1,048,576 bytes are kept from the start for commands that store nothing and for replies
    /// that report that memory ran out. While these can't be reserved again, a command that stores something is refused.
    pub fn execute(&mut self, session: u32, command: &Command) -> Outcome
        ensures step { MemoryStep self.old session command.now result self.new }
        // If memory ran out when the command was read, the outcome reports that, or there is no reply.
        ensures unread { command.now ≡ Invalid NoMemory → TellsOfWant result }
    {
        let told = self.carry_out(session, command);
        self.made_of(told)
    }

    /// Carries out one command of a session as `execute` does. For a reply with rows it returns what the reply is made of, and
    /// takes no memory for its document.
    pub fn carry_out(&mut self, session: u32, command: &Command) -> Told
        ensures step { MemoryStep self.old session command.now (outcome_told result) self.new }
        ensures unread { command.now ≡ Invalid NoMemory → TellsOfWant (outcome_told result) }
        // The id of a batch is below 2^63.
        ensures id { HasLongId result }
    {
        states_stay_orderly();
        if !self.reserve.prepare(command) {
            return Told::Outcome(refuse(self.alloc, &mut self.reserve, Refusal::WantOfMemory));
        }
        self.machine.carry_out(session, command, &mut self.reserve)
    }

    /// The outcome of a command; for a batch, the reply with its body. For this body the reserve is given back, unless enough other
    /// memory is free. If memory runs out even so, there is no reply.
    fn made_of(&mut self, outcome: Told) -> Outcome
        requires { HasLongId outcome }
        ensures made { IsMadeOf outcome result }
        ensures state { self.new ≡ self.old }
    {
        match outcome {
            Told::Batch(batch) => {
                self.reserve.make_room();
                told(self.machine.body_of(batch))
            }
            Told::Outcome(outcome) => outcome,
        }
    }

    /// Frees the memory that is kept, until the next command that stores something: for the bytes of a message, or of its reply,
    /// for which there was no memory.
    pub fn give_back(&mut self)
        ensures { self.new ≡ self.old }
    {
        self.reserve.give_back();
    }

    /// Loads a document into the collection of a namespace, which is made if it doesn't exist: what an insert of only that document
    /// does, outside any session. Refused with a code, the first of these that holds: 2 if the text is no namespace, which is the
    /// name of a database, a dot and the name of a collection, at most 120 bytes in all; 902 if there is a view; 2 if the document
    /// can't be stored because of its names or its `_id`; 901 if it is over 16,777,216 bytes or 100 levels; 11000 if a document has
    /// an equal `_id`, or one has a key of it under the path of a unique index; and 900 if memory runs out. Then nothing is
    /// changed.
    pub fn load(&mut self, namespace: &str, document: Document) -> Result<(), i32>
        ensures loaded { OnOk result (loading.IsLoaded namespace.now document self.old self.new) }
        ensures code { IfErr result (λ code. loading.IsCodeOf (loading.loaded namespace.now document self.old) code) }
        ensures kept { OnErr result (self.new ≡ self.old) }
    {
        states_stay_orderly();
        self.machine.load(namespace, document)
    }

    /// The rows that the view of a namespace keeps, in their order: at every moment those of its pipeline, run from scratch over
    /// what it reads. None if there is no view there, or a stale one. Takes no memory.
    pub fn stored_rows(&self, namespace: &str) -> Option<ViewRows<'_>>
        ensures { result ≡ stored_of namespace.now (marked self.now) }
    {
        self.machine.stored_rows(namespace)
    }

    /// That no live view reads a stale one, at every moment: a view that reads one that becomes stale becomes stale too. Does
    /// nothing.
    pub fn law_live_read_no_stale(&self)
        ensures { LiveReadNoStale self.now.catalog.views self.now.marks }
    {
        self.machine.law_live_read_no_stale();
    }

    /// Ends the cursors of a session. Takes no memory, and time in proportion to the number of its cursors.
    pub fn end_session(&mut self, session: u32)
        ensures { self.new ≡ end_session session self.old }
    {
        states_stay_orderly();
        self.machine.end_session(session);
    }
}
