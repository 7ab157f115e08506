//! Serving many connections at once.

ghost use Rattle.std.specs.Prelude.{◌≡◌, true, false, IsErr, OnOk};
ghost use Rattle.std.specs.Io.KnownBytes.{Appends};
ghost use Rattle.dv_host.specs.Outside.{Closes};
ghost use Rattle.dv_serving.specs.Listen.{FailsTelling, Listened, fate_line};
ghost use Rattle.dv_streams.specs.Failures.{failures_behind};

use dv_host::{Channel, Fate, HostFault, Outside, host};
use dv_streams::{Failed, TextOut};
use dv_wire::{Hub, laws};
use std::alloc::Global;

/// Connections. When one ends, a line is written and flushed: `connection K ended`, with its number from 1 in the order in which
/// they came; `connection K closed F` if a closing fault of this number ended it, or 6 if there is no room for more of an
/// unfinished message, or no memory for its next bytes; `connection K failed` if it failed, or if no session could be opened. If the
/// writer fails, waiting for more connections fails too.
#[derive(Drop)]
pub struct Telling<O: Outside, W: TextOut> {
    outside: O,
    writer: W,
    failed: bool,
}

impl<O: Outside, W: TextOut> Telling<O, W> {
    /// These connections, and the writer of the lines.
    pub fn of(outside: O, writer: W) -> Self
        ensures outside { result.outside ≡ outside }
        ensures writer { result.writer ≡ writer }
        ensures failed { result.failed ≡ false }
    {
        Telling {
            outside,
            writer,
            failed: false,
        }
    }

    /// Whether a line could not be written.
    pub fn has_failed(&self) -> bool
        ensures { result ≡ self.now.failed }
    {
        self.failed
    }
}

impl<O: Outside, W: TextOut> Outside for Telling<O, W> {
    type Channel = O::Channel;

    ghost coming = { λ s. O.coming s.outside };

    ghost closed = { λ s. O.closed s.outside };

    ghost came = { λ s. O.came s.outside };

    fn wait(&mut self) -> Result<usize, dv_host::Failed>
        ensures coming { O.coming self.new.outside ≡ O.coming self.old.outside }
        ensures closed { O.closed self.new.outside ≡ O.closed self.old.outside }
        ensures came { O.came self.new.outside ≡ O.came self.old.outside }
        ensures stops { self.old.failed ≡ true → IsErr result }
    {
        if self.failed {
            return Err(dv_host::Failed);
        }
        self.outside.wait()
    }

    fn ready(&self, place: usize) -> u64 {
        self.outside.ready(place)
    }

    fn again(&mut self, number: u64) {
        self.outside.again(number);
    }

    fn accept(&mut self) -> Result<Option<O::Channel>, dv_host::Failed> {
        self.outside.accept()
    }

    fn close(&mut self, channel: O::Channel, fate: Fate)
        ensures coming { O.coming self.new.outside ≡ O.coming self.old.outside }
        ensures closed { Closes (O.closed self.old.outside) (O.Channel.remaining channel) (O.Channel.contents channel) fate (O.closed self.new.outside) }
        ensures came { O.came self.new.outside ≡ O.came self.old.outside }
        ensures told { self.new.failed ≡ false → Appends (W.contents self.old.writer) (W.contents self.new.writer) (fate_line (O.Channel.number channel) fate) }
        ensures failed { FailsTelling self.old.failed self.new.failed (W.failures self.old.writer) (W.failures self.new.writer) }
    {
        let number = channel.number();
        self.outside.close(channel, fate);
        let told = tell(&mut self.writer, number, fate);
        self.failed = self.failed || told.is_err();
    }
}

/// Writes how a connection ended, and flushes it.
fn tell<W: TextOut>(writer: &mut W, number: u64, fate: Fate) -> Result<(), Failed>
    ensures told { OnOk result (Appends (W.contents writer.old) (W.contents writer.new) (fate_line number fate)) }
    ensures failures { W.failures writer.new ≡ failures_behind result (W.failures writer.old) }
{
    write_fate(writer, number, fate)?;
    writer.flush()
}

/// Writes the line of a connection that has ended. Fails if the writer does.
fn write_fate<W: TextOut>(writer: &mut W, number: u64, fate: Fate) -> Result<(), Failed>
    ensures told { OnOk result (Appends (W.contents writer.old) (W.contents writer.new) (fate_line number fate)) }
    ensures failures { W.failures writer.new ≡ failures_behind result (W.failures writer.old) }
{
    match fate {
        Fate::Ended => write!(writer, "connection {number} ended\n"),
        Fate::Closed(fault) => write!(writer, "connection {number} closed {fault}\n"),
        Fate::Full => write!(writer, "connection {number} closed 6\n"),
        Fate::Failed => write!(writer, "connection {number} failed\n"),
    }
}

/// Serves so many connections, at most 1,000 at a time, each by a session of the hub, until all have ended. What happens to the
/// hub is a schedule. Fails as `host` does.
pub fn listen_on<O: Outside>(
    alloc: Global,
    hub: &mut Hub,
    outside: &mut O,
    connections: u64,
) -> Result<(), HostFault>
    ensures { Listened result connections (O.coming outside.old) (O.coming outside.new) (O.closed outside.old) (O.closed outside.new) hub.old hub.new }
{
    laws::steps_are_a_schedule();
    host(alloc, hub, outside, connections, u64::MAX)
}
