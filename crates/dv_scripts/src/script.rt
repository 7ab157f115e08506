//! Scripts: lines that bring bytes to the sessions of a hub.

ghost use Rattle.std.specs.Prelude.{◌≡◌, ◌<◌, ◌+◌, ◌^◌, ◌↔◌, ◌⊎◌, ◌++◌, ◌∷◌, ℕ, [], length, replicate, string_bytes, suc, IfErr, IfOk, IsTrue, MatchOption, OnOk};
ghost use Rattle.std.specs.Io.KnownBytes.{Keeps};
ghost use Rattle.dv_scripts.specs.Script.{DoesOneLine, DoesLine, Finds, HasNoLf, no_sessions, open_fault, standing_of};
ghost use Rattle.dv_scripts.specs.Stops.{AsksForScript, EndsAt, FailsWriting, OfScript, RunsTo, StopsBy, script_read_failed, script_write_failed};
ghost use Rattle.dv_streams.specs.Failures.{failures_behind, failures_told};
ghost use Rattle.dv_scripts.specs.Inner.Lines.{OpensNone, StopsLine};
ghost use Rattle.dv_scripts.specs.Inner.Pieces.{DoesRead, EndsAtRead, RunsOn, StopsOn, TakesOn};

use crate::output::{end_text, fed_text};
use crate::sessions::{Session, Sessions};
use dv_streams::{ByteIn, TextOut, give_all, piece};
use dv_wire::{Fed, Hub, HubFault};
pub use dv_words::fault::ScriptFault;
use dv_words::line::{LONGEST_LINE, line};
use dv_words::said::{Line, LineFault};
use std::alloc::Global;

/// The most reads that a script takes.
const MOST_READS: u64 = 4_294_967_296;

/// Reads a script to its end and carries out each line as it comes. A number's session is opened at the number's first line, and
/// again after its end. Each reply is written as the number, a space and the reply's bytes in lower case; a session that is closed
/// as `N closed F`, once, with the fault's number; an end as `N end R`, with the bytes of an unfinished message. Bytes for a closed
/// session are dropped. What is written is flushed before each read, and at the end.
///
/// The first fault ends the script; what was written before stays written. The hub keeps the sessions that the script hasn't ended.
/// Lines count from 1, those that are skipped too. After `BadLine` and `Sessions` the lines before that one are done and answered,
/// and nothing of that line is done. The same holds after `NoMemory`, but that line may be done too, and not answered; after
/// `Write` its answer may be written in part. After `Read` and `TooManyReads` each line that was read to its LF is done and
/// answered.
pub fn script<R: ByteIn, W: TextOut>(
    alloc: Global,
    hub: &mut Hub,
    reader: &mut R,
    writer: &mut W,
) -> Result<(), ScriptFault>
    ensures done { OnOk result (OfScript (λ script text. RunsTo (no_sessions hub.old) script text hub.new)
        (R.remaining reader.old) (W.contents writer.old) (W.contents writer.new)) }
    ensures stopped { IfErr result (λ fault. StopsBy fault (no_sessions hub.old) (R.remaining reader.old) (R.remaining reader.new)
        (W.contents writer.old) (W.contents writer.new) hub.new) }
    ensures reader { R.failures reader.new ≡ failures_told script_read_failed result (R.failures reader.old) }
    ensures writer { FailsWriting result (W.failures writer.old) (W.failures writer.new) }
    ensures reads { AsksForScript result (R.reads reader.old) (R.reads reader.new) }
{
    let mut progress = Progress::new(alloc);
    match progress.read(hub, reader, writer) {
        Ok(()) => flush(writer),
        Err(fault) => {
            if is_of_writer(fault) {
                return Err(fault);
            }
            // The first fault is the one that is reported.
            let _ = flush(writer);
            Err(fault)
        }
    }
}

fn is_of_writer(fault: ScriptFault) -> bool
    ensures { IsTrue result ↔ fault ≡ ScriptFault.Write }
{
    matches!(fault, ScriptFault::Write)
}

/// The progress of a script.
#[derive(Drop)]
struct Progress {
    alloc: Global,
    sessions: Sessions,
    /// The number of the line that is being read, from 1.
    number: u64,
    /// The bytes of that line so far.
    line: Vec<u8>,
}

impl Progress {
    fn new(alloc: Global) -> Self
        ensures none { result.sessions.places ≡ replicate 1000 None }
        ensures line { result.line.items ≡ [] }
        ensures first { result.number ≡ 1 }
    {
        Progress {
            alloc,
            sessions: Sessions::new(),
            number: 1,
            line: Vec::new(alloc),
        }
    }

    fn read<R: ByteIn, W: TextOut>(
        &mut self,
        hub: &mut Hub,
        reader: &mut R,
        writer: &mut W,
    ) -> Result<(), ScriptFault>
        requires line { self.old.line.items ≡ [] }
        requires first { self.old.number ≡ 1 }
        ensures done { OnOk result (OfScript (λ script text. RunsOn self.old hub.old script text self.new hub.new)
            (R.remaining reader.old) (W.contents writer.old) (W.contents writer.new)) }
        ensures stopped { IfErr result (λ fault. StopsBy fault (standing_of self.old.sessions hub.old) (R.remaining reader.old) (R.remaining reader.new)
            (W.contents writer.old) (W.contents writer.new) hub.new) }
        ensures reader { R.failures reader.new ≡ failures_told script_read_failed result (R.failures reader.old) }
        ensures writer { W.failures writer.new ≡ failures_told script_write_failed result (W.failures writer.old) }
        ensures reads { AsksForScript result (R.reads reader.old) (R.reads reader.new) }
    {
        let mut piece = piece(self.alloc)?;
        'reads: for _ in 0..MOST_READS {
            // The next read may wait for someone who waits for these replies.
            flush(writer)?;
            let Ok(count) = reader.take(&mut piece) else {
                return Err(ScriptFault::Read);
            };
            if count == 0 {
                self.finish_line(hub, writer)?;
                return Ok(());
            }
            self.take(hub, &piece[..count], writer)?;
        }
        Err(ScriptFault::TooManyReads)
    }

    /// Takes the next piece of the script, which may end any number of lines.
    fn take<W: TextOut>(
        &mut self,
        hub: &mut Hub,
        piece: &[u8],
        writer: &mut W,
    ) -> Result<(), ScriptFault>
        requires line { HasNoLf self.old.line.items }
        requires numbers { self.old.number + length piece.now < 2 ^ 64 }
        ensures line { OnOk result (HasNoLf self.new.line.items) }
        ensures done { OnOk result (TakesOn (W.contents writer.old) (W.contents writer.new) self.old hub.old piece.now self.new hub.new) }
        ensures stopped { IfErr result (λ fault. StopsOn fault (W.contents writer.old) (W.contents writer.new) self.old hub.old piece.now hub.new) }
        ensures reader { (n : ℕ) → failures_told script_read_failed result n ≡ n }
        ensures writer { W.failures writer.new ≡ failures_told script_write_failed result (W.failures writer.old) }
    {
        let mut rest = piece;
        'lines: while let Some((end, behind)) = line_end(rest) {
            self.keep(end)?;
            self.finish_line(hub, writer)?;
            rest = behind;
        }
        self.keep(rest)?;
        Ok(())
    }

    /// Keeps the next bytes of the line, unless the line gets too long.
    fn keep(&mut self, part: &[u8]) -> Result<(), ScriptFault>
        ensures kept { self.new ≡ record self.old { line = self.new.line } }
        ensures line { OnOk result (self.new.line.items ≡ self.old.line.items ++ part.now) }
        ensures limit { (result ≡ Err (ScriptFault.BadLine self.old.number)) ↔ (131200 < length self.old.line.items + length part.now) }
        ensures faults { IfErr result (λ fault. (fault ≡ ScriptFault.BadLine self.old.number) ⊎ (fault ≡ ScriptFault.NoMemory)) }
    {
        if self.line.len().saturating_add(part.len()) > LONGEST_LINE {
            return Err(self.bad_line());
        }
        self.line.extend_from_slice(part)?;
        Ok(())
    }

    fn bad_line(&self) -> ScriptFault
        ensures { result ≡ ScriptFault.BadLine self.now.number }
    {
        ScriptFault::BadLine { line: self.number }
    }

    /// Carries out the line that was read. At the script's end this is an empty one if the last line has its LF.
    fn finish_line<W: TextOut>(&mut self, hub: &mut Hub, writer: &mut W) -> Result<(), ScriptFault>
        requires { suc self.old.number < 2 ^ 64 }
        ensures next { OnOk result ((self.new.line.items ≡ []) × (self.new.number ≡ suc self.old.number)) }
        ensures done { OnOk result (DoesRead (W.contents writer.old) (W.contents writer.new) self.old hub.old self.new hub.new) }
        ensures stopped { IfErr result (λ fault. EndsAtRead fault (W.contents writer.old) (W.contents writer.new) self.old hub.old hub.new) }
        ensures reader { (n : ℕ) → failures_told script_read_failed result n ≡ n }
        ensures writer { W.failures writer.new ≡ failures_told script_write_failed result (W.failures writer.old) }
    {
        let text = self.do_line(hub)?;
        give_all(writer, text.as_bytes()).map_err(|_| ScriptFault::Write)?;
        self.line.clear();
        self.number += 1;
        Ok(())
    }

    /// Carries out the line that was read, and returns what is to be written for it.
    fn do_line(&mut self, hub: &mut Hub) -> Result<String, ScriptFault>
        ensures kept { self.new ≡ record self.old { sessions = self.new.sessions } }
        ensures done { IfOk result (λ text.
            DoesLine (standing_of self.old.sessions hub.old) self.old.line.items (string_bytes text) (standing_of self.new.sessions hub.new)) }
        ensures stopped { IfErr result (λ fault. EndsAt fault (standing_of self.old.sessions hub.old) self.old.number self.old.line.items [] hub.new) }
        ensures streams { (n : ℕ) → (failures_told script_read_failed result n ≡ n) × (failures_told script_write_failed result n ≡ n) }
    {
        match line(self.alloc, self.line.as_slice()) {
            Ok(Line::Skip) => Ok(String::new(self.alloc)),
            Ok(Line::Bytes(number, bytes)) => self.feed(hub, number, bytes.as_slice()),
            Ok(Line::End(number)) => self.end(hub, number),
            Err(LineFault::BadLine) => Err(self.bad_line()),
            Err(LineFault::NoMemory) => Err(ScriptFault::NoMemory),
        }
    }

    fn feed(&mut self, hub: &mut Hub, number: u32, bytes: &[u8]) -> Result<String, ScriptFault>
        requires { number < 1000 }
        ensures kept { self.new ≡ record self.old { sessions = self.new.sessions } }
        ensures done { IfOk result (λ text.
            DoesOneLine (standing_of self.old.sessions hub.old) (Line.Bytes number bytes.now) (string_bytes text) (standing_of self.new.sessions hub.new)) }
        ensures stopped { IfErr result (λ fault. StopsLine fault (standing_of self.old.sessions hub.old) (Line.Bytes number bytes.now) hub.new) }
    {
        let session = self.session(hub, number)?;
        if session.is_closed {
            return Ok(String::new(self.alloc));
        }
        let mut replies = Vec::new(self.alloc);
        let fed = hub.feed(session.id, bytes, &mut replies);
        let is_closed = matches!(fed, Fed::Closed(_));
        self.sessions.set(
            number,
            Some(Session {
                id: session.id,
                is_closed,
            }),
        );
        Ok(fed_text(self.alloc, number, replies.as_slice(), fed)?)
    }

    fn end(&mut self, hub: &mut Hub, number: u32) -> Result<String, ScriptFault>
        requires { number < 1000 }
        ensures kept { self.new ≡ record self.old { sessions = self.new.sessions } }
        ensures done { IfOk result (λ text.
            DoesOneLine (standing_of self.old.sessions hub.old) (Line.End number) (string_bytes text) (standing_of self.new.sessions hub.new)) }
        ensures stopped { IfErr result (λ fault. StopsLine fault (standing_of self.old.sessions hub.old) (Line.End number) hub.new) }
    {
        let session = self.session(hub, number)?;
        let unfinished = hub.end(session.id);
        self.sessions.set(number, None);
        Ok(end_text(self.alloc, number, unfinished)?)
    }

    /// The session of a number, which is opened if it isn't open.
    #[tactic(auto, using(crate::proofs::Stopped::opens_none))]
    fn session(&mut self, hub: &mut Hub, number: u32) -> Result<Session, ScriptFault>
        requires { number < 1000 }
        ensures kept { self.new ≡ record self.old { sessions = self.new.sessions } }
        ensures found { IfOk result (λ session.
            Finds (standing_of self.old.sessions hub.old) number session (standing_of self.new.sessions hub.new)) }
        ensures refused { IfErr result (λ fault. OpensNone fault (standing_of self.old.sessions hub.old) number hub.new) }
    {
        if let Some(session) = self.sessions.get(number) {
            return Ok(session);
        }
        let id = match hub.open() {
            Ok(id) => id,
            Err(fault) => return Err(unopened(fault)),
        };
        let session = Session {
            id,
            is_closed: false,
        };
        self.sessions.set(number, Some(session));
        Ok(session)
    }
}

/// Why a script ends if it can't open a session.
fn unopened(fault: HubFault) -> ScriptFault
    ensures { result ≡ open_fault fault }
{
    match fault {
        HubFault::TooManySessions => ScriptFault::Sessions,
        HubFault::NoMemory => ScriptFault::NoMemory,
    }
}

fn flush<W: TextOut>(writer: &mut W) -> Result<(), ScriptFault>
    ensures kept { Keeps (W.contents writer.old) (W.contents writer.new) }
    ensures fault { IfErr result (λ fault. fault ≡ ScriptFault.Write) }
    ensures failures { W.failures writer.new ≡ failures_behind result (W.failures writer.old) }
{
    writer.flush().map_err(|_| ScriptFault::Write)
}

/// The bytes before the first LF, and those after it. None if there is no LF.
fn line_end(bytes: &[u8]) -> Option<(&[u8], &[u8])>
    ensures { MatchOption result (HasNoLf bytes.now) (λ found. HasNoLf found.0.now × (bytes.now ≡ found.0.now ++ 10 ∷ found.1.now)) }
{
    let at = bytes.iter().position(|byte| *byte == b'\n')?;
    Some((&bytes[..at], &bytes[at + 1..]))
}
