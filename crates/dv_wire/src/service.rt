//! A whole session over a reader and a writer.

ghost use Rattle.std.specs.Prelude.{◌≡◌, ◌<◌, ℕ, true, List, [], length, IfOk, OnErr, OnOk, Some};
ghost use Rattle.dv_message.specs.Message.{reading};
ghost use Rattle.dv_wire.specs.Schedule.{conversation_of};
ghost use Rattle.dv_wire.specs.Service.{AsksInRun, ComesTo, failures_read_in, failures_written_in};
ghost use Rattle.dv_streams.specs.Stream.{once_more};
ghost use Rattle.dv_wire.specs.Inner.View.{AnswersRead, Came, Counted, TalksTo, Writes, closing_fed};

use crate::fault::RunFault;
use crate::hub::{Fed, Hub, SessionId};
use crate::session::{Counts, ROOM_KEPT};
use dv_message::{CloseFault, laws};
use dv_streams::{ByteIn, ByteOut, Failed, give_all};
use dv_value::NoMemory;
use std::alloc::Global;

/// The most reads that a session takes.
const MOST_READS: u64 = 4_294_967_296;

/// The most bytes that one read takes.
const PIECE: usize = 65_536;

/// How many bytes of replies are enough to be written before the next message is carried out.
const REPLIES_WRITTEN_AT: usize = 65_536;

/// What is reported of a session that ended.
#[derive(Clone, Copy, Debug, PartialEq, Eq)]
pub struct Done {
    /// How many messages were carried out.
    pub messages: u64,
    /// How many replies were written.
    pub replies: u64,
    /// What closed the session, if it was closed before the end of input.
    pub closing: Option<CloseFault>,
    /// How many bytes of an unfinished message were dropped.
    pub unfinished: usize,
}

/// Carries out a whole session: opens it, reads to the end of input in pieces of at most 65,536 bytes, feeds each to it, writes its
/// replies, and ends it. Many messages of one read are answered by one write, if the writer takes that much; else the rest is given
/// to it. Replies are written as soon as they are 65,536 bytes or more, before the next message is carried out. So fewer than
/// 65,536 bytes and one reply are held at most. At a closing fault it stops reading. Returns only then and at the end of input.
///
/// Fails with `Read` or `Write` if the reader or the writer does (one that takes 0 bytes has failed), with `TooManyReads` after
/// 4,294,967,296 reads, and with `Hub` if no session is opened or memory runs out for a piece; in the last case nothing is changed
/// or read. The session has ended then too; what its messages changed stays changed. What was read is carried out, whether its
/// replies are written or not.
pub fn run<R: ByteIn, W: ByteOut>(
    alloc: Global,
    hub: &mut Hub,
    reader: &mut R,
    writer: &mut W,
) -> Result<Done, RunFault>
    ensures ran { ComesTo result hub.old hub.new (R.remaining reader.old) (R.remaining reader.new) (W.contents writer.old) (W.contents writer.new) }
    ensures reader { R.failures reader.new ≡ failures_read_in result (R.failures reader.old) }
    ensures writer { W.failures writer.new ≡ failures_written_in result (W.failures writer.old) }
    ensures reads { AsksInRun result (R.reads reader.old) (R.reads reader.new) }
{
    let mut piece = room(alloc, PIECE)?;
    let session = hub.open()?;
    let served = serve(alloc, hub, session, &mut piece, reader, writer);
    let unfinished = hub.end(session);
    let (counts, closing) = served?;
    Ok(Done {
        messages: counts.messages,
        replies: counts.replies,
        closing,
        unfinished,
    })
}

/// Reads to the end of input or to a closing fault, feeds each piece to the session, and writes the replies. Returns how many
/// messages and replies there were, and the closing fault.
fn serve<R: ByteIn, W: ByteOut>(
    alloc: Global,
    hub: &mut Hub,
    session: SessionId,
    piece: &mut [u8],
    reader: &mut R,
    writer: &mut W,
) -> Result<(Counts, Option<CloseFault>), RunFault>
    requires room { length piece.old ≡ 65536 }
    requires there { conversation_of session.number hub.old.sessions ≡ Some (reading []) }
    ensures talked { TalksTo result session.number hub.old hub.new
        (R.remaining reader.old) (R.remaining reader.new) (W.contents writer.old) (W.contents writer.new) }
    ensures reader { R.failures reader.new ≡ failures_read_in result (R.failures reader.old) }
    ensures writer { W.failures writer.new ≡ failures_written_in result (W.failures writer.old) }
    ensures reads { AsksInRun result (R.reads reader.old) (R.reads reader.new) }
{
    laws::splitting_goes_on();
    laws::messages_are_no_more_than_bytes();
    let mut replies = Vec::new(alloc);
    let mut counts = Counts::none();
    'reads: for _ in 0..MOST_READS {
        let Ok(count) = reader.take(piece) else {
            return Err(RunFault::Read);
        };
        if count == 0 {
            return Ok((counts, None));
        }
        let read = &piece[..count];
        let Ok(fed) = answer(hub, session, read, &mut replies, &mut counts, writer) else {
            return Err(RunFault::Write);
        };
        let closing = closing_in(fed);
        if closing.is_some() {
            return Ok((counts, closing));
        }
    }
    Err(RunFault::TooManyReads)
}

/// Feeds what was read to the session, message by message, and writes the replies. Returns what the session is then. Fails if the
/// writer does; then the rest was carried out too.
fn answer<W: ByteOut>(
    hub: &mut Hub,
    session: SessionId,
    read: &[u8],
    replies: &mut Vec<u8>,
    counts: &mut Counts,
    writer: &mut W,
) -> Result<Fed, Failed>
    requires some { 0 < length read.now }
    requires none { replies.old.items ≡ [] }
    ensures answered { AnswersRead result hub.old session.number read.now counts.old counts.new hub.new (W.contents writer.old) (W.contents writer.new) }
    ensures none { OnOk result (replies.new.items ≡ []) }
    ensures written { OnOk result (W.failures writer.new ≡ W.failures writer.old) }
    ensures failed { OnErr result (W.failures writer.new ≡ once_more (W.failures writer.old)) }
{
    laws::splitting_goes_on();
    let mut rest = read;
    let mut fed = Fed::Open;
    'messages: while !rest.is_empty() {
        let (front, behind) = rest.split_at(hub.whole_front(session, rest));
        fed = hub.feed_counted(session, front, replies, counts);
        rest = behind;
        if write_enough(writer, replies, rest.is_empty()).is_err() {
            hear_out(hub, session, rest, replies, counts);
            return Err(Failed);
        }
    }
    Ok(fed)
}

/// Writes the replies and drops them, if they have enough bytes or `all` are to be written.
fn write_enough<W: ByteOut>(writer: &mut W, replies: &mut Vec<u8>, all: bool) -> Result<(), Failed>
    ensures some { OnOk result (Writes replies.old.items replies.new.items (W.contents writer.old) (W.contents writer.new)) }
    ensures all { OnOk result (all ≡ true → replies.new.items ≡ []) }
    ensures part { OnErr result ((unwritten : List ℕ) × Writes replies.old.items unwritten (W.contents writer.old) (W.contents writer.new)) }
    ensures written { OnOk result (W.failures writer.new ≡ W.failures writer.old) }
    ensures failed { OnErr result (W.failures writer.new ≡ once_more (W.failures writer.old)) }
{
    if !all && replies.len() < REPLIES_WRITTEN_AT {
        return Ok(());
    }
    give_all(writer, replies)?;
    replies.clear();
    replies.shrink_to(ROOM_KEPT);
    Ok(())
}

/// Feeds the rest of the bytes that were read to the session, message by message, and drops the replies.
fn hear_out(
    hub: &mut Hub,
    session: SessionId,
    others: &[u8],
    replies: &mut Vec<u8>,
    counts: &mut Counts,
)
    ensures { (answers : List (List ℕ)) × (told : Fed) × Came hub.old session.number others.now answers told hub.new × Counted counts.old answers counts.new }
{
    laws::splitting_goes_on();
    let mut rest = others;
    'messages: while !rest.is_empty() {
        replies.clear();
        replies.shrink_to(ROOM_KEPT);
        let (front, behind) = rest.split_at(hub.whole_front(session, rest));
        hub.feed_counted(session, front, replies, counts);
        rest = behind;
    }
}

/// What closed the session of which this is reported, if it is closed.
fn closing_in(fed: Fed) -> Option<CloseFault>
    ensures { result ≡ closing_fed fed }
{
    match fed {
        Fed::Closed(fault) => Some(fault),
        Fed::Open | Fed::Unknown => None,
    }
}

/// Room for `size` bytes. This is a function of its own, for any size, so that no proof writes all of the bytes out.
fn room(alloc: Global, size: usize) -> Result<Vec<u8>, NoMemory>
    ensures { IfOk result (λ piece. length piece.items ≡ size) }
{
    vec![in alloc; 0u8; size]
}
