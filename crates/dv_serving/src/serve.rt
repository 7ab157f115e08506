//! Serving connections, one after the other.

ghost use Rattle.std.specs.Prelude.{◌≡◌, ◌<◌, ◌+◌, ℕ, List, Err, IfErr, IfOk, OnErr, OnOk};
ghost use Rattle.std.specs.Io.KnownBytes.{Appends};
ghost use Rattle.dv_streams.specs.Stream.{MoreBy};
ghost use Rattle.dv_serving.specs.Serve.{ServesAndTells, ServesOneMore, accept_failed, connection_line, serve_write_failed};
ghost use Rattle.dv_serving.specs.Inner.Next.{ServesNext};
ghost use Rattle.dv_streams.specs.Failures.{failures_behind, failures_told};

use dv_streams::{ByteIn, ByteOut, CountedReader, CountedWriter, Failed, TextOut, counted};
use dv_wire::{Done, Hub, RunFault, run};
use std::alloc::Global;
use std::io;
use std::net::{TcpListener, TcpStream};

/// Why serving ends before the last connection.
#[derive(Clone, Copy, Debug, PartialEq, Eq)]
pub enum ServeFault {
    /// No connection could be accepted.
    Accept,
    /// The writer failed.
    Write,
}

/// The source of connections.
pub trait Listener {
    ghost use Rattle.std.specs.Prelude.{◌≡◌, ℕ, List, Option, IfOk, OnErr};
    ghost use Rattle.dv_host.specs.Outside.{Accepts};
    ghost use Rattle.dv_serving.specs.Serve.{ClosesConnection, Ended, IsFresh};
    ghost use Rattle.dv_streams.specs.Failures.{failures_behind};

    /// Where a connection's bytes come from.
    type Input: ByteIn + Drop;

    /// Where the replies to it go.
    type Output: ByteOut + Drop;

    // The bytes of each connection that is still to come, where they are known.
    ghost coming: { Self → Option (List (List ℕ)) };

    // Of each connection that was closed, what was left of its bytes and what was taken of the replies to it, where these
    // are known.
    ghost closed: { Self → Option (List Ended) };

    // How often it has failed, as 64 bits count it.
    ghost failures: { Self → ℕ };

    /// Waits for the next connection.
    fn accept(&mut self) -> Result<(Self::Input, Self::Output), Failed>
        ensures next { IfOk result (λ connection. Accepts (coming self.old) (Self.Input.remaining connection.0) (coming self.new)) }
        ensures fresh { IfOk result (λ connection. IsFresh (closed self.old) (Self.Output.contents connection.1)) }
        ensures kept { OnErr result (coming self.new ≡ coming self.old) }
        ensures closed { closed self.new ≡ closed self.old }
        ensures failures { failures self.new ≡ failures_behind result (failures self.old) };

    /// Closes a connection.
    fn close(&mut self, input: Self::Input, output: Self::Output)
        ensures coming { coming self.new ≡ coming self.old }
        ensures closed { ClosesConnection (closed self.old) (Self.Input.remaining input) (Self.Output.contents output) (closed self.new) }
        ensures failures { failures self.new ≡ failures self.old };
}

/// A port of this machine. Which bytes come from it isn't known.
#[derive(Drop)]
pub struct BlockingPort {
    listener: TcpListener,
    failures: u64,
}

impl BlockingPort {
    /// The port at which the listener waits.
    pub fn of(listener: TcpListener) -> Self {
        BlockingPort {
            listener,
            failures: 0,
        }
    }
}

impl Listener for BlockingPort {
    ghost use Rattle.std.specs.Prelude.{None};

    type Input = CountedReader<TcpStream>;

    type Output = CountedWriter<TcpStream>;

    ghost coming = { λ _. None };

    ghost closed = { λ _. None };

    ghost failures = { λ s. s.failures };

    fn accept(&mut self) -> Result<(Self::Input, Self::Output), Failed> {
        counted(connection(&self.listener), &mut self.failures)
    }

    /// Each side is closed when it is dropped.
    fn close(&mut self, _input: Self::Input, _output: Self::Output) {}
}

/// The two sides of the next connection.
fn connection(
    listener: &TcpListener,
) -> io::Result<(CountedReader<TcpStream>, CountedWriter<TcpStream>)> {
    let (stream, _) = listener.accept()?;
    // A small reply is sent at once. A stream that can't do this is used nevertheless.
    let _ = stream.set_nodelay(true);
    let writer = stream.try_clone()?;
    Ok((CountedReader::of(stream), CountedWriter::of(writer)))
}

/// Serves so many connections, one after the other, each by a session of the hub from its first byte to its last, and then closes
/// it: the replies to a connection go to its output. After each, its number, from 1, and how it ended is written as a line, and
/// flushed, before the next one is waited for: `connection K ended`; `connection K closed F` if a closing fault of this number
/// ended it; `connection K failed` if its reader or its writer failed, it took too many reads, or no session could be opened.
///
/// Fails with `Accept` if no connection comes and with `Write` if the writer fails. What was served stays; after `Write` as many
/// flushes succeeded as there were connections before; what the writer then has isn't said.
#[tactic(auto, using(crate::proofs::Served::all_served, crate::proofs::Served::none_accepted))]
pub fn serve_on<L: Listener, W: TextOut>(
    alloc: Global,
    hub: &mut Hub,
    listener: &mut L,
    connections: u32,
    writer: &mut W,
) -> Result<(), ServeFault>
    ensures all { OnOk result (ServesAndTells L.coming L.closed W.contents W.flushes connections
        listener.old writer.old hub.old listener.new writer.new hub.new) }
    ensures accept { result ≡ Err ServeFault.Accept → (count : ℕ) × (count < connections)
        × ServesAndTells L.coming L.closed W.contents W.flushes count listener.old writer.old hub.old listener.new writer.new hub.new }
    ensures write { result ≡ Err ServeFault.Write → (count : ℕ) × (count < connections)
        × ServesOneMore L.coming L.closed W.flushes count listener.old writer.old hub.old listener.new writer.new hub.new }
    ensures listener { L.failures listener.new ≡ failures_told accept_failed result (L.failures listener.old) }
    ensures writer { W.failures writer.new ≡ failures_told serve_write_failed result (W.failures writer.old) }
{
    let mut number = 0;
    'connections: while number < connections {
        let told = serve_next(alloc, hub, listener)?;
        number += 1;
        tell(writer, number, told)?;
    }
    Ok(())
}

/// Runs the session of the next connection, and closes the connection.
fn serve_next<L: Listener>(
    alloc: Global,
    hub: &mut Hub,
    listener: &mut L,
) -> Result<Result<Done, RunFault>, ServeFault>
    ensures served { IfOk result (λ told. ServesNext (L.coming listener.old) (L.coming listener.new) (L.closed listener.old) (L.closed listener.new)
        hub.old told hub.new) }
    ensures none { OnErr result ((hub.new ≡ hub.old) × (L.coming listener.new ≡ L.coming listener.old) × (L.closed listener.new ≡ L.closed listener.old)) }
    ensures fault { IfErr result (λ fault. fault ≡ ServeFault.Accept) }
    ensures failures { L.failures listener.new ≡ failures_behind result (L.failures listener.old) }
{
    let (mut input, mut output) = listener.accept().map_err(|_| ServeFault::Accept)?;
    let told = run(alloc, hub, &mut input, &mut output);
    listener.close(input, output);
    Ok(told)
}

/// Writes how a connection ended, and flushes it.
fn tell<W: TextOut>(
    writer: &mut W,
    number: u32,
    told: Result<Done, RunFault>,
) -> Result<(), ServeFault>
    ensures ok { OnOk result (Appends (W.contents writer.old) (W.contents writer.new) (connection_line number told)) }
    ensures fault { IfErr result (λ fault. fault ≡ ServeFault.Write) }
    ensures failures { W.failures writer.new ≡ failures_behind result (W.failures writer.old) }
    ensures flushed { OnOk result (MoreBy 1 (W.flushes writer.old) (W.flushes writer.new)) }
    ensures unflushed { OnErr result (W.flushes writer.new ≡ W.flushes writer.old) }
{
    write_ending(writer, number, told).map_err(|_| ServeFault::Write)?;
    writer.flush().map_err(|_| ServeFault::Write)
}

fn write_ending<W: TextOut>(
    writer: &mut W,
    number: u32,
    told: Result<Done, RunFault>,
) -> Result<(), Failed>
    ensures told { OnOk result (Appends (W.contents writer.old) (W.contents writer.new) (connection_line number told)) }
    ensures failures { W.failures writer.new ≡ failures_behind result (W.failures writer.old) }
    ensures unflushed { W.flushes writer.new ≡ W.flushes writer.old }
{
    match told {
        Ok(done) => match done.closing {
            None => write!(writer, "connection {number} ended\n"),
            Some(fault) => {
                let fault = fault.number();
                write!(writer, "connection {number} closed {fault}\n")
            }
        },
        Err(_) => write!(writer, "connection {number} failed\n"),
    }
}
