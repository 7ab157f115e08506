//! A port, and the connections that come to it.

ghost use Rattle.std.specs.Prelude.{◌≡◌, ◌+◌, IfOk, OnErr};

use dv_host::{Channel, Failed, Fate, Outside, Taken};
use mio::net::{TcpListener, TcpStream};
use mio::{Events, Interest, Poll, Token};
use std::alloc::Global;
use std::io;
use std::io::{ErrorKind, Read, Write};
use std::net::{Ipv4Addr, Net, SocketAddr, SocketAddrV4};
use std::time::Duration;

/// The token of the listener. Connections are numbered from 1.
const LISTENER: usize = usize::MAX;

/// The number of no connection.
const NO_CONNECTION: u64 = u64::MAX;

/// How many events one poll returns at most.
const EVENTS: usize = 1024;

/// Room for the numbers of all connections that may be open, and of those that are reported.
const READY_ROOM: usize = 4096;

/// A connection. Which bytes come from it isn't known.
#[derive(Drop)]
pub struct Stream {
    number: u64,
    stream: TcpStream,
}

impl Channel for Stream {
    ghost use Rattle.std.specs.Prelude.{None};

    ghost remaining = { λ _. None };

    ghost contents = { λ _. None };

    ghost number = { λ s. s.number };

    fn number(&self) -> u64 {
        self.number
    }

    fn take(&mut self, piece: &mut [u8]) -> Result<Taken, Failed> {
        match self.stream.read(piece) {
            Ok(0) => Ok(Taken::End),
            Ok(count) => Ok(Taken::Bytes(count)),
            Err(error) => match error.kind() {
                ErrorKind::WouldBlock => Ok(Taken::Later),
                _ => Err(Failed),
            },
        }
    }

    fn give(&mut self, bytes: &[u8]) -> Result<usize, Failed> {
        match self.stream.write(bytes) {
            Ok(count) => Ok(count),
            Err(error) => match error.kind() {
                ErrorKind::WouldBlock => Ok(0),
                _ => Err(Failed),
            },
        }
    }
}

/// A port of this machine, and which of its connections are ready. A socket is reported once as ready for what comes, so each is
/// read until less comes than there is room for, and written until it takes none.
#[derive(Drop)]
pub struct Port {
    listener: TcpListener,
    poll: Poll,
    events: Events,
    /// Whether more connections may wait.
    may_accept: bool,
    /// How many connections were accepted.
    came: u64,
    /// Whose turn is next.
    turn: u64,
    /// Those that may be ready, each once, in turn.
    ready: Vec<u64>,
    /// Those that are to be reported once more.
    again: Vec<u64>,
}

impl Port {
    /// Binds a port of this machine's own network, 127.0.0.1. Fails if the port can't be had, or when memory runs out.
    pub fn bind<R: Net>(rt: &R, alloc: Global, port: u16) -> io::Result<Port>
        ensures none { IfOk result (λ port. port.came ≡ 0) }
    {
        let address = SocketAddr::V4(SocketAddrV4::new(Ipv4Addr::LOCALHOST, port));
        let mut listener = TcpListener::bind(rt, address)?;
        let poll = Poll::new(rt)?;
        poll.registry()
            .register(&mut listener, Token(LISTENER), Interest::READABLE)?;
        Ok(Port {
            listener,
            poll,
            events: Events::with_capacity(alloc, EVENTS)?,
            may_accept: true,
            came: 0,
            turn: 0,
            ready: Vec::with_capacity(alloc, READY_ROOM)?,
            again: Vec::with_capacity(alloc, READY_ROOM)?,
        })
    }

    /// The next connection, if one waits. Fails otherwise.
    fn connection(&mut self) -> io::Result<Stream>
        ensures numbered { IfOk result (λ stream. (stream.number ≡ self.old.came + 1) × (self.new.came ≡ self.old.came + 1)) }
        ensures kept { OnErr result (self.new.came ≡ self.old.came) }
    {
        if self.came >= NO_CONNECTION - 1 {
            return Err(io::Error::from(ErrorKind::Other));
        }
        let number = self.came + 1;
        let (mut stream, _) = self.listener.accept()?;
        // A small reply is sent at once. A stream that can't do this is used nevertheless.
        let _ = stream.set_nodelay(true);
        self.poll.registry().register(
            &mut stream,
            Token(number as usize),
            Interest::READABLE | Interest::WRITABLE,
        )?;
        self.came = number;
        Ok(Stream { number, stream })
    }

    /// Lists the connections that were reported as ready after those that are to be reported once more, each once.
    fn note(&mut self) -> Result<(), Failed>
        ensures { self.new.came ≡ self.old.came }
    {
        self.ready.clear();
        std::mem::swap(&mut self.ready, &mut self.again);
        for event in &self.events {
            let token = event.token().0;
            if token == LISTENER {
                self.may_accept = true;
            } else {
                self.ready.push(token as u64).map_err(|_| Failed)?;
                // A short read before the end of input doesn't show the end, so the connection is reported once more.
                if event.is_read_closed() || event.is_error() {
                    self.again.push(token as u64).map_err(|_| Failed)?;
                }
            }
        }
        self.ready.sort_unstable();
        self.ready.dedup();
        self.begin_in_turn();
        Ok(())
    }

    /// Begins with the connection after the last one of the previous round, so that the same ones aren't always last.
    fn begin_in_turn(&mut self)
        ensures { self.new.came ≡ self.old.came }
    {
        let place = match self.ready.binary_search(&self.turn) {
            Ok(place) | Err(place) => place,
        };
        self.ready.rotate_left(place);
        if let Some(last) = self.ready.last() {
            self.turn = last.wrapping_add(1);
        }
    }
}

impl Outside for Port {
    ghost use Rattle.std.specs.Prelude.{None};

    type Channel = Stream;

    ghost coming = { λ _. None };

    ghost closed = { λ _. None };

    ghost came = { λ s. s.came };

    fn wait(&mut self) -> Result<usize, Failed> {
        let timeout = if self.again.is_empty() {
            None
        } else {
            Some(Duration::ZERO)
        };
        if let Err(error) = self.poll.poll(&mut self.events, timeout) {
            // A signal that doesn't end the program, such as the one after a stop, reports nothing.
            if error.kind() != ErrorKind::Interrupted {
                return Err(Failed);
            }
        }
        self.note()?;
        Ok(self.ready.len())
    }

    fn ready(&self, place: usize) -> u64 {
        match self.ready.get(place) {
            Some(number) => *number,
            None => NO_CONNECTION,
        }
    }

    fn again(&mut self, number: u64) {
        // There is room for all that are open.
        let _ = self.again.push(number);
    }

    fn accept(&mut self) -> Result<Option<Stream>, Failed> {
        if !self.may_accept {
            return Ok(None);
        }
        match self.connection() {
            Ok(stream) => Ok(Some(stream)),
            Err(error) => match error.kind() {
                ErrorKind::WouldBlock => {
                    self.may_accept = false;
                    Ok(None)
                }
                // The next one may be there.
                ErrorKind::ConnectionAborted => {
                    self.again(NO_CONNECTION);
                    Err(Failed)
                }
                // It may be accepted once another one is closed, and is tried again then.
                _ => Err(Failed),
            },
        }
    }

    /// It is closed when it is dropped.
    fn close(&mut self, _channel: Stream, _fate: Fate) {}
}
