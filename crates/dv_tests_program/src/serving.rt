//! Connections that are served: of a listener that fails, and over the loopback.

use crate::empty;
use dv_serving::serve::{BlockingPort, Listener, ServeFault, serve_on};
use dv_streams::{CountedReader, CountedWriter, Failed};
use dv_testing::fakes::FailingReader;
use dv_testing::messages::{FIND, FOUND, INSERT, INSERTED, PING};
use std::alloc::Global;
use std::io::{Read, Write};
use std::net::{Net, Shutdown, SocketAddr, TcpListener, TcpStream};
use std::test::Fail;

/// Connections with these bytes, each with a read that fails.
#[derive(Drop)]
struct Clients<'a> {
    alloc: Global,
    all: &'a [(&'a [u8], usize)],
    next: usize,
    closed: usize,
    failures: u64,
}

impl<'a> Listener for Clients<'a> {
    ghost use Rattle.std.specs.Prelude.{None};

    type Input = CountedReader<FailingReader<'a>>;

    type Output = CountedWriter<Vec<u8>>;

    ghost coming = { λ _. None };

    ghost closed = { λ _. None };

    ghost failures = { λ s. s.failures };

    fn accept(&mut self) -> Result<(Self::Input, Self::Output), Failed> {
        let Some(&(bytes, failing)) = self.all.get(self.next) else {
            self.failures = self.failures.wrapping_add(1);
            return Err(Failed);
        };
        self.next = self.next.saturating_add(1);
        Ok((
            CountedReader::of(FailingReader::failing(bytes, failing)),
            CountedWriter::of(Vec::new(self.alloc)),
        ))
    }

    fn close(&mut self, _input: Self::Input, _output: Self::Output) {
        self.closed = self.closed.saturating_add(1);
    }
}

/// A ping, a length of 25 bytes, a ping of which the fifth read fails, and a ping.
const CLIENTS: &[(&[u8], usize)] = &[(PING, 0), (b"\x19\0\0\0\x07", 0), (PING, 5), (PING, 0)];

const ENDINGS: &str =
    "connection 1 ended\nconnection 2 closed 1\nconnection 3 failed\nconnection 4 ended\n";

/// What serving so many of these connections writes and returns, and how many were closed.
fn served(alloc: Global, connections: u32) -> (Vec<u8>, Result<(), ServeFault>, usize) {
    let mut hub = empty::hub(alloc);
    let mut listener = Clients {
        alloc,
        all: CLIENTS,
        next: 0,
        closed: 0,
        failures: 0,
    };
    let mut written = Vec::new(alloc);
    let mut writer = CountedWriter::of(&mut written);
    let done = serve_on(alloc, &mut hub, &mut listener, connections, &mut writer);
    (written, done, listener.closed)
}

#[test]
fn serves_behind_a_connection_that_was_closed_or_failed(rt: HostRuntime) {
    for (connections, want) in [(4, Ok(())), (5, Err(ServeFault::Accept))] {
        let (written, done, closed) = served(rt.alloc(), connections);
        assert_eq!(rt; written.as_slice(), ENDINGS.as_bytes());
        assert_eq!(rt; done, want);
        assert_eq!(rt; closed, 4);
    }
}

/// Clients that have sent these messages to the address, and send no more.
fn connected<R>(rt: &R, address: SocketAddr, messages: [&[u8]; 2]) -> Result<Vec<TcpStream>, Fail>
where
    R: Net<Listener = TcpListener, Stream = TcpStream> + AllocGlobal,
{
    let mut clients = Vec::new(rt.alloc());
    for message in messages {
        let mut client = TcpStream::connect(rt, address)?;
        client.write_all(message)?;
        client.shutdown(Shutdown::Write)?;
        clients.push(client)?;
    }
    Ok(clients)
}

/// The result of serving so many connections at the port.
fn served_at(alloc: Global, listener: TcpListener, connections: u32) -> Result<(), ServeFault> {
    let mut hub = empty::hub(alloc);
    let mut writer = CountedWriter::of(Vec::new(alloc));
    serve_on(
        alloc,
        &mut hub,
        &mut BlockingPort::of(listener),
        connections,
        &mut writer,
    )
}

#[test]
fn serves_the_loopback(rt: HostRuntime) -> Result<(), Fail> {
    let listener = TcpListener::bind(&rt, "127.0.0.1:0")?;
    let clients = connected(&rt, listener.local_addr()?, [INSERT, FIND])?;
    assert_eq!(rt; served_at(rt.alloc(), listener, 2), Ok(()));
    for (mut client, want) in clients.into_iter().zip([INSERTED, FOUND]) {
        let mut reply = Vec::new(rt.alloc());
        client.read_to_end(&mut reply)?;
        assert_eq!(rt; reply.as_slice(), want);
    }
    Ok(())
}
