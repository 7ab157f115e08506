//! What a connection does in its turns.

ghost use Rattle.std.specs.Prelude.{◌≡◌, ◌≤◌, ◌<◌, ◌+◌, ◌++◌, [], None, true, length, vec_capacity, vec_len, IfErr};
ghost use Rattle.dv_host.specs.Schedule.{PlaysBy, HappensBy, closed_by};
ghost use Rattle.dv_host.specs.Inner.Links.{pending_of, seen_by, unsent_of};
ghost use Rattle.dv_host.specs.Inner.Moving.{Fills, Gives, SettlesIn};
ghost use Rattle.dv_host.specs.Inner.Serving.{LinkMoves, opened_link};

use crate::channel::{Channel, Taken, give_on};
use crate::link::{Fate, Link, Told};
use crate::sessions::{Fed, Sessions};
use std::alloc::Global;

/// While at least this many bytes of replies are unsent, no more bytes are fed.
const ENOUGH: usize = 65_536;

/// The greatest room that is kept for later replies.
const ROOM_KEPT: usize = 4_096;

/// How much of an unfinished message each connection may keep, whatever the others keep.
pub(crate) const SHARE: usize = 262_144;

impl<C: Channel> Link<C> {
    /// A connection whose session was just opened.
    pub(crate) fn new(alloc: Global, number: u64, session: u32, channel: C) -> Self
        ensures { seen_by C.remaining C.contents result ≡ opened_link session (C.remaining channel) (C.contents channel) }
    {
        Link {
            number,
            session,
            channel,
            out: Vec::new(alloc),
            sent: 0,
            rest: Vec::new(alloc),
            heard: 0,
            closing: None,
            unfinished: 0,
            filled: false,
        }
    }

    /// One turn: sends what is unsent. If all is sent, it goes on with the bytes that it has, or reads a piece if it has none;
    /// feeds them to the session message by message, until enough replies are unsent; and sends these. If `over_budget`, it reads
    /// no more of a message of which the session keeps more than its share.
    pub(crate) fn turn<S: Sessions>(
        &mut self,
        sessions: &mut S,
        piece: &mut [u8],
        over_budget: bool,
    ) -> Told
        requires { length piece.old ≡ 65536 }
        ensures moves { LinkMoves (PlaysBy (HappensBy S.opens S.feeds S.ends)) C.remaining C.contents sessions.old sessions.new self.old self.new }
        ensures settles { SettlesIn result (seen_by C.remaining C.contents self.new) }
        ensures next { S.next sessions.new ≡ S.next sessions.old }
    {
        let told = self.settle(Told::Again);
        if told != Told::Again {
            return told;
        }
        match self.fill(piece, over_budget) {
            Err(told) => told,
            Ok(more) => {
                self.hear(sessions);
                let told = self.told_next(more);
                self.settle(told)
            }
        }
    }

    /// Sends what is unsent, and returns the state of the connection: `more` if all is sent and its session isn't closed.
    fn settle(&mut self, more: Told) -> Told
        requires { (fate : _) → more ≡ Told.Over fate → ⊥ }
        ensures gives { Gives (seen_by C.remaining C.contents self.old) (seen_by C.remaining C.contents self.new) }
        ensures settles { SettlesIn result (seen_by C.remaining C.contents self.new) }
        ensures given { result ≡ Told.Again → unsent_of self.new ≡ [] }
        ensures open { result ≡ Told.Again → self.new.closing ≡ None }
    {
        if self.flush() {
            return Told::Over(Fate::Failed);
        }
        if !self.is_given() {
            return Told::Waits;
        }
        self.drop_given();
        match self.closing {
            Some(fault) => Told::Over(Fate::Closed(fault)),
            None => more,
        }
    }

    /// Sends what is unsent, until all is sent or no more can be sent now, and returns whether the connection failed.
    fn flush(&mut self) -> bool
        ensures { Gives (seen_by C.remaining C.contents self.old) (seen_by C.remaining C.contents self.new) }
    {
        let given = give_on(&mut self.channel, &self.out[self.sent..]);
        self.sent += given.count;
        given.failed
    }

    /// Whether all replies were sent.
    fn is_given(&self) -> bool
        ensures { result ≡ true → unsent_of self.now ≡ [] }
    {
        self.sent == self.out.len()
    }

    /// Whether all bytes that were read were fed.
    fn is_heard(&self) -> bool
        ensures { result ≡ true → pending_of self.now ≡ [] }
    {
        self.heard == self.rest.len()
    }

    /// Reads a piece if all bytes are fed. Returns whether there may be more; or the state of the connection if nothing was read.
    fn fill(&mut self, piece: &mut [u8], over_budget: bool) -> Result<bool, Told>
        requires room { length piece.old ≡ 65536 }
        requires given { unsent_of self.old ≡ [] }
        requires open { self.old.closing ≡ None }
        ensures fills { Fills (seen_by C.remaining C.contents self.old) (seen_by C.remaining C.contents self.new) }
        ensures settles { IfErr result (λ told. SettlesIn told (seen_by C.remaining C.contents self.new)) }
    {
        if !self.drop_heard() {
            return Ok(true);
        }
        if over_budget && self.unfinished > SHARE {
            return Err(Told::Over(Fate::Full));
        }
        if !self.make_room(piece.len()) {
            return Err(Told::Over(Fate::Full));
        }
        match self.channel.take(piece) {
            Err(_) => Err(Told::Over(Fate::Failed)),
            Ok(Taken::End) => Err(Told::Over(Fate::Ended)),
            Ok(Taken::Later) => {
                self.drop_heard();
                Err(Told::Waits)
            }
            Ok(Taken::Bytes(count)) => {
                self.keep(&piece[..count]);
                let more = self.filled;
                self.filled = count == piece.len();
                Ok(more || self.filled)
            }
        }
    }

    /// Makes room for so many more bytes, and returns whether there is memory for them.
    fn make_room(&mut self, size: usize) -> bool
        ensures same { seen_by C.remaining C.contents self.new ≡ seen_by C.remaining C.contents self.old }
        ensures len { vec_len self.new.rest ≡ vec_len self.old.rest }
        ensures room { result ≡ true → vec_len self.new.rest + size ≤ vec_capacity self.new.rest }
    {
        self.rest.reserve(size).is_ok()
    }

    /// Appends bytes to those that were read.
    fn keep(&mut self, bytes: &[u8])
        requires room { vec_len self.old.rest + length bytes.now ≤ vec_capacity self.old.rest }
        requires few { vec_len self.old.rest + length bytes.now ≤ 65536 }
        ensures { seen_by C.remaining C.contents self.new ≡ record (seen_by C.remaining C.contents self.old) { pending = pending_of self.old ++ bytes.now } }
    {
        // There is room for them.
        let _ = self.rest.extend_from_slice(bytes);
    }

    /// Drops the replies, which were all sent.
    fn drop_given(&mut self)
        requires { unsent_of self.old ≡ [] }
        ensures { seen_by C.remaining C.contents self.new ≡ seen_by C.remaining C.contents self.old }
    {
        self.sent = 0;
        self.out.clear();
        self.out.shrink_to(ROOM_KEPT);
    }

    /// If all bytes were fed, drops them and their room. Returns whether all were fed.
    fn drop_heard(&mut self) -> bool
        ensures same { seen_by C.remaining C.contents self.new ≡ seen_by C.remaining C.contents self.old }
        ensures heard { result ≡ true → vec_len self.new.rest ≡ 0 }
    {
        if !self.is_heard() {
            return false;
        }
        self.heard = 0;
        self.rest.clear();
        self.rest.shrink_to(0);
        true
    }

    /// Feeds the bytes that were read, message by message, until all are fed, the session is closed, or enough replies are unsent.
    fn hear<S: Sessions>(&mut self, sessions: &mut S)
        requires given { unsent_of self.old ≡ [] }
        ensures moves { LinkMoves (PlaysBy (HappensBy S.opens S.feeds S.ends)) C.remaining C.contents sessions.old sessions.new self.old self.new }
        ensures next { S.next sessions.new ≡ S.next sessions.old }
    {
        self.drop_given();
        'messages: while self.has_more() {
            self.hear_front(sessions);
        }
        self.drop_heard();
        self.unfinished = sessions.unfinished(self.session);
    }

    /// Whether some bytes are to be fed now.
    fn has_more(&self) -> bool
        ensures some { result ≡ true → 0 < length (pending_of self.now) }
        ensures few { result ≡ true → length (unsent_of self.now) < 65536 }
    {
        self.closing.is_none()
            && self.heard < self.rest.len()
            && self.out.len() - self.sent < ENOUGH
    }

    /// Feeds the bytes up to the end of the next message.
    fn hear_front<S: Sessions>(&mut self, sessions: &mut S)
        requires some { 0 < length (pending_of self.old) }
        requires few { length (unsent_of self.old) < 65536 }
        ensures moves { LinkMoves (PlaysBy (HappensBy S.opens S.feeds S.ends)) C.remaining C.contents sessions.old sessions.new self.old self.new }
        ensures next { S.next sessions.new ≡ S.next sessions.old }
        ensures less { length (pending_of self.new) < length (pending_of self.old) }
    {
        let rest = &self.rest[self.heard..];
        let count = sessions.whole_front(self.session, rest);
        let fed = sessions.feed(self.session, &rest[..count], &mut self.out);
        self.heard += count;
        self.closing = closing_by(fed, self.closing);
    }

    /// The result of the turn if all is sent; `more` says whether the connection may have more bytes.
    fn told_next(&self, more: bool) -> Told
        ensures { (fate : _) → result ≡ Told.Over fate → ⊥ }
    {
        if more || !self.is_heard() {
            Told::Again
        } else {
            Told::Waits
        }
    }
}

/// The fault that closed a session, after a piece with this report.
fn closing_by(fed: Fed, before: Option<u8>) -> Option<u8>
    ensures { result ≡ closed_by fed before }
{
    match fed {
        Fed::Closed(fault) => Some(fault),
        Fed::Open | Fed::Unknown => before,
    }
}
