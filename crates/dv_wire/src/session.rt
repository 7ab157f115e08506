//! One session: its bytes, and its messages one after the other.

ghost use Rattle.std.specs.Prelude.{◌≡◌, ◌≤◌, ◌⊎◌, [], ◌∷◌, ◌++◌, IfOk, OnErr, OnOk, length, drop, vec_len};
ghost use Rattle.dv_value.specs.Spelling.{spelling};
ghost use Rattle.dv_command.specs.Inner.Needed.{needed};
ghost use Rattle.dv_message.specs.Commands.{command_of};
ghost use Rattle.dv_wire.specs.Schedule.{TakesSplit, bytes_to};
ghost use Rattle.dv_core.specs.Step.{MemoryStep};
ghost use Rattle.dv_core.specs.Told.{outcome_told};
ghost use Rattle.dv_message.specs.Message.{message_spelling, split, stream_front};
ghost use Rattle.dv_message.specs.Inner.View.{front_seen, message_seen};
ghost use Rattle.dv_wire.specs.Inner.View.{Answered, Carries, RunAnswered, body_seen, bytes_seen, kept_or_closed, left_or_closed};

use crate::hub::Fed;
use crate::reply::Body;
use dv_core::{Command, Outcome, Store, Told};
use dv_message::{CloseFault, Front, Message, Shapes, command_in, front_length, front_of, laws};
use dv_value::{BsonFault, NoMemory};
use std::alloc::{AllocError, Global};

/// The most room that is kept for bytes to come, once a session's messages are done and its replies written.
pub(crate) const ROOM_KEPT: usize = 262_144;

/// The longest unfinished message for which the store's reserve is given back.
const SHORT_MESSAGE: usize = 65_536;

/// How many messages were carried out and how many replies were sent, each at most `u64::MAX`.
#[derive(Clone, Copy)]
pub(crate) struct Counts {
    pub(crate) messages: u64,
    pub(crate) replies: u64,
}

impl Counts {
    pub(crate) fn none() -> Self
        ensures messages { result.messages ≡ 0 }
        ensures replies { result.replies ≡ 0 }
    {
        Counts {
            messages: 0,
            replies: 0,
        }
    }
}

/// The state of a session.
#[derive(Debug, Drop)]
pub(crate) enum Conversation {
    /// The session is open, with the bytes of a message that isn't whole.
    Reading(Vec<u8>),
    Closed(CloseFault),
}

impl Conversation {
    ghost use Rattle.std.specs.Prelude.{◌<◌, Some};
    ghost use Rattle.dv_wire.specs.Schedule.{unfinished_in, fed_of, whole_front};
    ghost use Rattle.dv_wire.specs.View.{conversation_seen};

    /// What is reported of the session.
    fn answer(&self) -> Fed
        ensures { result ≡ fed_of (conversation_seen self.now) }
    {
        match self {
            Conversation::Reading(_) => Fed::Open,
            Conversation::Closed(fault) => Fed::Closed(*fault),
        }
    }

    /// How many bytes of the next piece belong to the next message, as far as its length is known; all if the session is closed.
    pub(crate) fn whole_front(&self, piece: &[u8]) -> usize
        requires { 0 < length piece.now }
        ensures { result ≡ whole_front (Some (conversation_seen self.now)) piece.now }
    {
        match self {
            Conversation::Reading(kept) => front_length(kept, piece),
            Conversation::Closed(_) => piece.len(),
        }
    }

    /// How many bytes of an unfinished message are kept.
    pub(crate) fn unfinished_len(&self) -> usize
        ensures { result ≡ unfinished_in (Some (conversation_seen self.now)) }
    {
        match self {
            Conversation::Reading(kept) => kept.len(),
            Conversation::Closed(_) => 0,
        }
    }
}

/// A session that was opened and has not ended.
#[derive(Debug, Drop)]
pub(crate) struct Session {
    pub(crate) number: u32,
    pub(crate) conversation: Conversation,
    pub(crate) shapes: Shapes,
}

impl Session {
    ghost use Rattle.dv_wire.specs.Schedule.{Hears, fed_of};
    ghost use Rattle.dv_wire.specs.View.{conversation_seen};
    ghost use Rattle.dv_wire.specs.Inner.View.{RunAnswered};

    /// Takes the next piece of the session's bytes. A closed session takes none.
    pub(crate) fn hear(
        &mut self,
        alloc: Global,
        store: &mut Store,
        piece: &[u8],
        out: &mut Vec<u8>,
        counts: &mut Counts,
    ) -> Fed
        ensures heard { RunAnswered out.old.items out.new.items counts.old counts.new store.new (conversation_seen self.new.conversation)
            (Hears self.old.number store.old (conversation_seen self.old.conversation) piece.now) }
        ensures answer { result ≡ fed_of (conversation_seen self.new.conversation) }
        ensures number { self.new.number ≡ self.old.number }
    {
        if let Conversation::Reading(kept) = &mut self.conversation {
            let shapes = &mut self.shapes;
            if let Err(fault) = take_in(
                alloc,
                store,
                self.number,
                shapes,
                kept,
                piece,
                out,
                counts,
            ) {
                self.conversation = Conversation::Closed(fault);
            }
        }
        self.conversation.answer()
    }
}

/// Appends a piece to the bytes that a session keeps, carries out the messages that are whole then, and keeps what
/// follows them.
fn take_in(
    alloc: Global,
    store: &mut Store,
    session: u32,
    shapes: &mut Shapes,
    kept: &mut Vec<u8>,
    piece: &[u8],
    out: &mut Vec<u8>,
    counts: &mut Counts,
) -> Result<(), CloseFault>
    ensures { RunAnswered out.old.items out.new.items counts.old counts.new store.new (kept_or_closed result kept.new.items)
        (TakesSplit session store.old (split (kept.old.items ++ piece.now))) }
{
    if kept.is_empty() {
        return take_straight(alloc, store, session, shapes, kept, piece, out, counts);
    }
    keep(store, kept, piece)?;
    let taken = carry_out_all(alloc, store, session, shapes, kept, out, counts)?;
    drop_front(kept, taken);
    Ok(())
}

/// The same if no bytes are kept: the messages that are whole in the piece are carried out without copying them.
fn take_straight(
    alloc: Global,
    store: &mut Store,
    session: u32,
    shapes: &mut Shapes,
    kept: &mut Vec<u8>,
    piece: &[u8],
    out: &mut Vec<u8>,
    counts: &mut Counts,
) -> Result<(), CloseFault>
    requires { kept.old.items ≡ [] }
    ensures { RunAnswered out.old.items out.new.items counts.old counts.new store.new (kept_or_closed result kept.new.items)
        (TakesSplit session store.old (split piece.now)) }
{
    let taken = carry_out_all(alloc, store, session, shapes, piece, out, counts)?;
    keep(store, kept, &piece[taken..])?;
    Ok(())
}

/// Appends a piece to the bytes that a session keeps. If memory runs out, the store's reserve is given back for them, unless they
/// are many. Fails if memory still runs out.
fn keep(store: &mut Store, kept: &mut Vec<u8>, piece: &[u8]) -> Result<(), NoMemory>
    ensures kept { OnOk result (kept.new.items ≡ kept.old.items ++ piece.now) }
    ensures store { store.new ≡ store.old }
{
    if kept.extend_from_slice(piece).is_ok() {
        return Ok(());
    }
    if kept.len().saturating_add(piece.len()) <= SHORT_MESSAGE {
        store.give_back();
    }
    kept.extend_from_slice(piece)
}

/// Drops the first bytes, and moves the others only if some are dropped. Then the room that a large message took is given back.
fn drop_front(bytes: &mut Vec<u8>, count: usize)
    requires { count ≤ vec_len bytes.old }
    ensures { bytes.new.items ≡ drop count bytes.old.items }
{
    if count > 0 {
        bytes.drain(..count);
        bytes.shrink_to(ROOM_KEPT);
    }
}

/// Carries out the whole messages that a stream begins with, in order, and appends their replies. Returns how many bytes these
/// messages have.
fn carry_out_all(
    alloc: Global,
    store: &mut Store,
    session: u32,
    shapes: &mut Shapes,
    stream: &[u8],
    out: &mut Vec<u8>,
    counts: &mut Counts,
) -> Result<usize, CloseFault>
    ensures taken { IfOk result (λ taken. taken ≤ length stream.now) }
    ensures carried { RunAnswered out.old.items out.new.items counts.old counts.new store.new (left_or_closed result stream.now)
        (TakesSplit session store.old (split stream.now)) }
{
    laws::streams_split_by_their_fronts();
    let mut rest = stream;
    'messages: while !rest.is_empty() {
        match front(alloc, store, rest) {
            Front::Unfinished => return Ok(stream.len() - rest.len()),
            Front::Closing(fault) => return Err(fault),
            Front::Whole {
                message,
                rest: behind,
            } => {
                carry_out(alloc, store, session, shapes, &message, out, counts)?;
                rest = behind;
            }
        }
    }
    Ok(stream.len())
}

/// Reads the front of a stream. If memory runs out, the store's reserve is given back for that.
fn front<'a>(alloc: Global, store: &mut Store, stream: &'a [u8]) -> Front<'a>
    ensures front { (front_seen result ≡ stream_front stream.now) ⊎ (result ≡ Front.Closing CloseFault.NoMemory) }
    ensures store { store.new ≡ store.old }
{
    let seen = front_of(alloc, stream);
    if !matches!(seen, Front::Closing(CloseFault::NoMemory)) {
        return seen;
    }
    store.give_back();
    front_of(alloc, stream)
}

/// Carries out a message, appends its reply, and counts them. An error says that memory ran out for the reply, or that a reply that
/// reports that memory ran out isn't to be sent.
fn carry_out(
    alloc: Global,
    store: &mut Store,
    session: u32,
    shapes: &mut Shapes,
    message: &Message<'_>,
    out: &mut Vec<u8>,
    counts: &mut Counts,
) -> Result<(), NoMemory>
    ensures { Answered out.old.items out.new.items counts.old counts.new
        (λ answers. Carries session store.old (message_seen message.now) answers store.new result) }
{
    let outcome = step(alloc, store, session, shapes, message);
    counts.messages = counts.messages.saturating_add(1);
    if let Some(reply) = reply_to(message, outcome)? {
        send(store, message.request_id, &reply, out)?;
        counts.replies = counts.replies.saturating_add(1);
    }
    Ok(())
}

/// The body of the reply that is to be sent to a message, or none if moreToCome leaves it out. An error says that the session is to
/// be closed: there is no reply, or moreToCome would leave out one that reports that memory ran out.
fn reply_to(message: &Message<'_>, told: Told) -> Result<Option<Body>, NoMemory>
    ensures { bytes_seen (message_seen message.now) result ≡ bytes_to (message_seen message.now) (outcome_told told) }
{
    match told {
        Told::Batch(_) if message.more_to_come => Ok(None),
        Told::Batch(batch) => Ok(Some(Body::Batch(batch))),
        Told::Outcome(outcome) => other_reply_to(message, outcome),
    }
}

/// The same for an outcome that isn't a reply with rows.
fn other_reply_to(message: &Message<'_>, outcome: Outcome) -> Result<Option<Body>, NoMemory>
    ensures { bytes_seen (message_seen message.now) result ≡ bytes_to (message_seen message.now) outcome }
{
    match outcome {
        Outcome::Reply(_) if message.more_to_come => Ok(None),
        // A client that waits for no reply learns from the end of the session that memory ran out.
        Outcome::Wanting(_) if message.more_to_come => Err(AllocError),
        Outcome::Reply(reply) | Outcome::Wanting(reply) => Ok(Some(Body::Whole(reply))),
        Outcome::NoReply => Err(AllocError),
    }
}

/// Appends the reply to a request. If memory runs out, the store's reserve is given back for it; if memory still runs out, nothing
/// is appended.
fn send(store: &mut Store, request_id: u32, reply: &Body, out: &mut Vec<u8>) -> Result<(), NoMemory>
    ensures ok { OnOk result (out.new.items ≡ out.old.items ++ message_spelling 0 request_id 0 (0 ∷ spelling (body_seen reply.now))) }
    ensures err { OnErr result (out.new.items ≡ out.old.items) }
    ensures store { store.new ≡ store.old }
{
    if reply.append(request_id, out).is_ok() {
        return Ok(());
    }
    store.give_back();
    reply.append(request_id, out)
}

/// The command in a message's sections, with no more of its lists than it needs; or that memory ran out while it was read, also
/// with the store's reserve.
fn read(alloc: Global, store: &mut Store, shapes: &mut Shapes, message: &Message<'_>) -> Command
    ensures command { (needed (command_of (message_seen message.now)) ≡ result) ⊎ (result ≡ Command.Invalid BsonFault.NoMemory) }
    ensures store { store.new ≡ store.old }
{
    let command = command_in(alloc, message.sections.as_slice(), shapes);
    if !matches!(command, Command::Invalid(BsonFault::NoMemory)) {
        return command;
    }
    store.give_back();
    command_in(alloc, message.sections.as_slice(), shapes)
}

/// Carries out the command in a message's sections.
fn step(
    alloc: Global,
    store: &mut Store,
    session: u32,
    shapes: &mut Shapes,
    message: &Message<'_>,
) -> Told
    ensures { MemoryStep store.old session (command_of (message_seen message.now)) (outcome_told result) store.new }
{
    dv_command::laws::a_command_needs_no_more();
    let command = read(alloc, store, shapes, message);
    store.carry_out(session, &command)
}
