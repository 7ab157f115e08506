//! The sessions, and the bytes that come from them.

ghost use Rattle.std.specs.Prelude.{◌≡◌, ◌==◌, ℕ, IfOk, map, suc};
ghost use Rattle.std.specs.List.{position_from};
ghost use Rattle.dv_wire.specs.Sound.{AreNumbered};
ghost use Rattle.dv_wire.specs.View.{session_seen};

use crate::events::{Event, Said};
use crate::fault::HubFault;
use crate::session::{Conversation, Counts, Session};
use dv_core::Store;
use dv_message::{CloseFault, Shapes};
use dv_value::{Bytes, NoMemory};
use std::alloc::Global;
use std::marker::Model;

/// The number of a session, from 0 in the order in which they were opened.
#[derive(Clone, Copy, Debug, PartialEq, Eq)]
pub struct SessionId {
    pub number: u32,
}

/// What a session is after a piece of its bytes.
#[derive(Clone, Copy, Debug, PartialEq, Eq)]
pub enum Fed {
    /// It goes on.
    Open,
    /// It is closed, and takes no more bytes.
    Closed(CloseFault),
    /// It was never opened, or has ended.
    Unknown,
}

/// How many sessions may be opened and not ended.
const SESSION_LIMIT: usize = 1000;

/// How many numbers there are for sessions.
const NUMBER_LIMIT: u64 = 4_294_967_296;

/// A store and the sessions that speak to it.
#[derive(Debug, Drop)]
pub struct Hub {
    alloc: Global,
    store: Store,
    /// The number of the next session, at most 2^32.
    next: u64,
    /// In the order of their numbers.
    sessions: Vec<Session>,
}

impl Model for Hub {
    ghost use Rattle.std.specs.Prelude.{map};
    ghost use Rattle.dv_wire.specs.Schedule.{World};
    ghost use Rattle.dv_wire.specs.Inner.WorldCode.{coded_world};

    ghost Value = { World };

    ghost coded = { coded_world };

    ghost use Rattle.dv_wire.specs.View.{session_seen};

    ghost view = { λ h. record { state = h.store; next = h.next; sessions = map session_seen h.sessions.items } };

    ghost use Rattle.dv_wire.specs.Sound.{AreNumbered};

    ghost invariant = { λ h. AreNumbered 0 (map session_seen h.sessions.items) h.next };
}

impl Hub {
    ghost use Rattle.std.specs.Prelude.{◌<◌, ◌≤◌, ◌++◌, [], List, OnErr, OnOk, Some, length};
    ghost use Rattle.dv_core.specs.Step.{end_session};
    ghost use Rattle.dv_wire.specs.Schedule.{world_of, conversation_of, Opens, Comes, Feeds, Appends, unfinished_in, whole_front, end as end_of};
    ghost use Rattle.dv_message.specs.Message.{reading};
    ghost use Rattle.dv_wire.specs.Inner.View.{Answered};
    ghost use Rattle.dv_wire.specs.Playing.{Happens, Plays};
    ghost use Rattle.dv_wire.specs.declared.events.Said as heard;

    /// A store without any session. Sessions and their bytes are allocated by `alloc`.
    pub fn new(alloc: Global, store: Store) -> Self
        ensures { result ≡ world_of store }
    {
        Hub {
            alloc,
            store,
            next: 0,
            sessions: Vec::new(alloc),
        }
    }

    /// Opens a session, and returns its number. Refused with `TooManySessions` if 1,000 sessions, closed ones among them,
    /// haven't ended, or no number is left; and with `NoMemory` when memory runs out. Then nothing is changed.
    pub fn open(&mut self) -> Result<SessionId, HubFault>
        ensures opened { Opens self.old result self.new }
        ensures state { self.new.state ≡ self.old.state }
        ensures numbers { IfOk result (λ session. (session.number ≡ self.old.next) × (self.new.next ≡ suc self.old.next)) }
        ensures there { IfOk result (λ session. conversation_of session.number self.new.sessions ≡ Some (reading [])) }
    {
        if self.sessions.len() >= SESSION_LIMIT || self.next >= NUMBER_LIMIT {
            return Err(HubFault::TooManySessions);
        }
        let number = self.next as u32;
        let session = Session {
            number,
            conversation: Conversation::Reading(Vec::new(self.alloc)),
            shapes: Shapes::new(self.alloc),
        };
        self.sessions.push(session)?;
        self.next += 1;
        Ok(SessionId { number })
    }

    /// Takes the next piece of a session's bytes: carries out the messages that are whole now, in order, and appends their replies
    /// to `out`, each of them whole. A fault in the bytes closes the session as soon as they show it. Running out of memory also
    /// closes it: for the bytes, for a reply, or for a command whose reply moreToCome leaves out. A closed session takes no more
    /// bytes.
    pub fn feed(&mut self, session: SessionId, piece: &[u8], out: &mut Vec<u8>) -> Fed
        ensures fed { Appends out.old.items out.new.items (λ bytes. Feeds self.old session.number piece.now bytes result self.new) }
        ensures numbers { self.new.next ≡ self.old.next }
    {
        self.feed_counted(session, piece, out, &mut Counts::none())
    }

    /// How many bytes of a session's next piece belong to its next message, as far as its length is known. They complete at most
    /// one message, so its reply can be sent before the next one is made. At least 1, and at most all of the piece; all if the
    /// session takes no bytes.
    pub fn whole_front(&self, session: SessionId, piece: &[u8]) -> usize
        requires { 0 < length piece.now }
        ensures front { result ≡ whole_front (conversation_of session.number self.now.sessions) piece.now }
        ensures some { 0 < result }
        ensures within { result ≤ length piece.now }
    {
        match place_of(&self.sessions, session.number) {
            Some(place) => self.sessions[place].conversation.whole_front(piece),
            None => piece.len(),
        }
    }

    /// The same as `feed`, and counts the messages that are carried out and the replies.
    pub(crate) fn feed_counted(
        &mut self,
        session: SessionId,
        piece: &[u8],
        out: &mut Vec<u8>,
        counts: &mut Counts,
    ) -> Fed
        ensures { Answered out.old.items out.new.items counts.old counts.new (λ answers. Comes self.old session.number piece.now answers result self.new) }
    {
        let Some(place) = place_of(&self.sessions, session.number) else {
            return Fed::Unknown;
        };
        let session = &mut self.sessions[place];
        session.hear(self.alloc, &mut self.store, piece, out, counts)
    }

    /// How many bytes of an unfinished message a session keeps; none if it was never opened, has ended or is closed.
    pub fn unfinished(&self, session: SessionId) -> usize
        ensures { result ≡ unfinished_in (conversation_of session.number self.now.sessions) }
    {
        match place_of(&self.sessions, session.number) {
            Some(place) => self.sessions[place].conversation.unfinished_len(),
            None => 0,
        }
    }

    /// Ends a session and its cursors, and returns how many bytes of an unfinished message are dropped with it. A session that was
    /// never opened, or has ended, has none of these. Takes no memory.
    pub fn end(&mut self, session: SessionId) -> usize
        ensures unfinished { result ≡ unfinished_in (conversation_of session.number self.old.sessions) }
        ensures ended { self.new ≡ end_of session.number self.old }
        ensures state { self.new.state ≡ end_session session.number self.old.state }
        ensures numbers { self.new.next ≡ self.old.next }
    {
        self.store.end_session(session.number);
        let Some(place) = place_of(&self.sessions, session.number) else {
            return 0;
        };
        let session = self.sessions.remove(place);
        session.conversation.unfinished_len()
    }

    /// Carries out events in order, as `open`, `feed` and `end` do, and appends what is reported of each to `out`. Fails with
    /// `NoMemory` when memory runs out for that many reports; then nothing happens. If memory runs out for a reply's bytes, its
    /// session is closed, as in `feed`.
    pub fn play(&mut self, events: &[Event], out: &mut Vec<Said>) -> Result<(), NoMemory>
        ensures played { OnOk result ((said : List heard.Said) × (out.new.items ≡ out.old.items ++ said) × Plays self.old events.now said self.new) }
        ensures refused { OnErr result ((out.new.items ≡ out.old.items) × (self.new ≡ self.old)) }
    {
        out.reserve(events.len())?;
        'events: for event in events {
            let said = self.happen(event);
            // There is room for it.
            out.push(said)?;
        }
        Ok(())
    }

    fn happen(&mut self, event: &Event) -> Said
        ensures { Happens self.old event.now result self.new }
    {
        match event {
            Event::Open => Said::Opened(self.open()),
            Event::Piece(session, piece) => {
                let mut replies = Vec::new(self.alloc);
                let fed = self.feed(*session, piece.as_slice(), &mut replies);
                Said::Fed(fed, Bytes::of(replies))
            }
            Event::End(session) => Said::Ended(self.end(*session)),
        }
    }
}

/// The place of the session with the number, if there is one, among sessions in the order of their numbers.
fn place_of(sessions: &[Session], number: u32) -> Option<usize>
    requires { (next : ℕ) × AreNumbered 0 (map session_seen sessions.now) next }
    ensures { result ≡ position_from (λ s. s.number == number) 0 sessions.now }
{
    sessions
        .binary_search_by_key(&number, |session| session.number)
        .ok()
}
