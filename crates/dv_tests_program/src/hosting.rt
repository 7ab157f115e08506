//! Many connections at once, whose pieces are known.

use crate::empty;
use dv_host::{Channel, Failed, Fate, HostFault, Outside, Taken, host};
use dv_testing::messages::{FIND, FOUND, INSERT, INSERTED, PING, PONG};
use std::alloc::Global;
use std::io::{Cursor, Read};
use std::test::Fail;

/// What a client does, and the outcome.
struct Case {
    sends: &'static [&'static [u8]],
    /// How many bytes it sends and takes at once.
    at_once: usize,
    /// The number of the `give` that fails, after those before it took nothing; 0 if it takes all that it is given.
    refusals: usize,
    fate: Fate,
    /// How many of its bytes are taken.
    heard: u64,
    /// The replies that it takes.
    replies: &'static [&'static [u8]],
}

/// The first bytes of a ping, and of a message of 25 bytes.
const CUT: &[u8] = b"/\0\0\0\x07";

const SHORT: &[u8] = b"\x19\0\0\0\x07";

/// A ping, and in the same piece a length that closes the session; two pings in one piece; an end within a message; an insert in
/// three pieces; two pings of which the second is never taken, since the reply to the first isn't; and a find, byte by byte, of
/// what was inserted meanwhile. The clients end in this order.
static CASES: [Case; 6] = [
    Case {
        sends: &[PING, SHORT],
        at_once: 52,
        refusals: 0,
        fate: Fate::Closed(1),
        heard: 52,
        replies: &[PONG],
    },
    Case {
        sends: &[PING, PING],
        at_once: 94,
        refusals: 0,
        fate: Fate::Ended,
        heard: 94,
        replies: &[PONG, PONG],
    },
    Case {
        sends: &[CUT],
        at_once: 5,
        refusals: 0,
        fate: Fate::Ended,
        heard: 5,
        replies: &[],
    },
    Case {
        sends: &[INSERT],
        at_once: 40,
        refusals: 0,
        fate: Fate::Ended,
        heard: 84,
        replies: &[INSERTED],
    },
    Case {
        sends: &[PING, PING],
        at_once: 47,
        refusals: 10,
        fate: Fate::Failed,
        heard: 47,
        replies: &[],
    },
    Case {
        sends: &[FIND],
        at_once: 1,
        refusals: 0,
        fate: Fate::Ended,
        heard: 49,
        replies: &[FOUND],
    },
];

/// The clients, in a function of their own, so that no proof spells all of them out.
fn cases() -> &'static [Case] {
    &CASES
}

/// A client that has connected.
#[derive(Drop)]
struct Client {
    number: u64,
    sent: Cursor<Vec<u8>>,
    at_once: usize,
    refusals: usize,
    taken: Vec<u8>,
}

impl Channel for Client {
    ghost use Rattle.std.specs.Prelude.{None};

    ghost remaining = { λ _. None };

    ghost contents = { λ _. None };

    ghost number = { λ s. s.number };

    fn number(&self) -> u64 {
        self.number
    }

    fn take(&mut self, piece: &mut [u8]) -> Result<Taken, Failed> {
        let most = self.at_once.min(piece.len());
        match self.sent.read(&mut piece[..most]) {
            Ok(0) => Ok(Taken::End),
            Ok(count) => Ok(Taken::Bytes(count)),
            Err(_) => Err(Failed),
        }
    }

    fn give(&mut self, bytes: &[u8]) -> Result<usize, Failed> {
        match self.refusals {
            0 => {
                let count = self.at_once.min(bytes.len());
                self.taken
                    .extend_from_slice(&bytes[..count])
                    .map_err(|_| Failed)?;
                Ok(count)
            }
            1 => Err(Failed),
            more => {
                self.refusals = more - 1;
                Ok(0)
            }
        }
    }
}

/// Clients, each of which may always be ready once it has connected. One call of `accept` fails, and `wait` fails when all are
/// closed.
#[derive(Drop)]
struct Clients {
    alloc: Global,
    calls: u64,
    failing: u64,
    came: u64,
    gone: Vec<(Client, Fate)>,
}

impl Outside for Clients {
    ghost use Rattle.std.specs.Prelude.{None};

    type Channel = Client;

    ghost coming = { λ _. None };

    ghost closed = { λ _. None };

    ghost came = { λ s. s.came };

    fn wait(&mut self) -> Result<usize, Failed> {
        if self.gone.len() == cases().len() {
            return Err(Failed);
        }
        Ok(self.came as usize)
    }

    fn ready(&self, place: usize) -> u64 {
        (place as u64).saturating_add(1)
    }

    fn again(&mut self, _number: u64) {}

    fn accept(&mut self) -> Result<Option<Client>, Failed> {
        self.calls = self.calls.saturating_add(1);
        if self.calls == self.failing {
            return Err(Failed);
        }
        let (Some(case), Some(number)) = (cases().get(self.came as usize), self.came.checked_add(1))
        else {
            return Ok(None);
        };
        let Ok(sent) = case.sends.concat(self.alloc) else {
            return Err(Failed);
        };
        self.came = number;
        Ok(Some(Client {
            number,
            sent: Cursor::new(sent),
            at_once: case.at_once,
            refusals: case.refusals,
            taken: Vec::new(self.alloc),
        }))
    }

    fn close(&mut self, client: Client, fate: Fate) {
        // If memory runs out, it is missing at the end.
        let _ = self.gone.push((client, fate));
    }
}

/// The result of serving so many clients in so many turns, and the clients that were closed. The call of `accept` with this number
/// fails; none does if it is 0.
fn hosted(
    alloc: Global,
    connections: u64,
    turns: u64,
    failing: u64,
) -> (Result<(), HostFault>, Vec<(Client, Fate)>) {
    let mut hub = empty::hub(alloc);
    let mut clients = Clients {
        alloc,
        calls: 0,
        failing,
        came: 0,
        gone: Vec::new(alloc),
    };
    let done = host(alloc, &mut *hub, &mut clients, connections, turns);
    (done, clients.gone)
}

/// The number of the first client that didn't end as it should.
fn first_wrong(alloc: Global, gone: &[(Client, Fate)]) -> Result<Option<u64>, Fail> {
    for (case, (client, fate)) in cases().iter().zip(gone) {
        let replies = case.replies.concat(alloc)?;
        if *fate != case.fate
            || client.sent.position() != case.heard
            || client.taken.as_slice() != replies.as_slice()
        {
            return Ok(Some(client.number));
        }
    }
    Ok(None)
}

#[test]
fn answers_each_of_many_connections(rt: HostRuntime) -> Result<(), Fail> {
    for failing in 0..=6 {
        let (done, gone) = hosted(rt.alloc(), 6, 100, failing);
        assert_eq!(rt; done, Ok(()), "{failing}");
        assert_eq!(rt; gone.len(), 6, "{failing}");
        assert_eq!(rt; first_wrong(rt.alloc(), &gone)?, None, "{failing}");
    }
    Ok(())
}

/// In 20 turns not all bytes of the last client arrive; it is closed in any case.
#[test]
fn ends_where_so_many_came_and_went(rt: HostRuntime) {
    let rows = [
        (5, 100, Ok(()), 5),
        (6, 100, Ok(()), 6),
        (7, 100, Err(HostFault::Wait), 6),
        (6, 20, Err(HostFault::Turns), 6),
    ];
    for (connections, turns, want, went) in rows {
        let (done, gone) = hosted(rt.alloc(), connections, turns, 0);
        assert_eq!(rt; done, want);
        assert_eq!(rt; gone.len(), went);
    }
}
