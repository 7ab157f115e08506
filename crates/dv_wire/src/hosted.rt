//! A hub's sessions, as those of many connections at once.

ghost use Rattle.std.specs.Prelude.{◌≡◌};
ghost use Rattle.dv_wire.specs.Hosted.{told_as};

use crate::hub::{Fed, Hub, SessionId};
use dv_host::Sessions;

impl Sessions for Hub {
    ghost use Rattle.dv_wire.specs.Hosted.{EndsAs, FeedsAs, OpensAs};

    ghost opens = { λ old result new. OpensAs old result new };

    ghost feeds = { λ old session piece bytes told new. FeedsAs old session piece bytes told new };

    ghost ends = { λ old session new. EndsAs old session new };

    ghost next = { λ world. world.next };

    fn open(&mut self) -> Option<u32> {
        match Hub::open(self) {
            Ok(session) => Some(session.number),
            Err(_) => None,
        }
    }

    fn whole_front(&self, session: u32, piece: &[u8]) -> usize {
        Hub::whole_front(self, SessionId { number: session }, piece)
    }

    fn feed(&mut self, session: u32, piece: &[u8], out: &mut Vec<u8>) -> dv_host::Fed {
        told_as(Hub::feed(self, SessionId { number: session }, piece, out))
    }

    fn unfinished(&self, session: u32) -> usize {
        Hub::unfinished(self, SessionId { number: session })
    }

    fn end(&mut self, session: u32) {
        Hub::end(self, SessionId { number: session });
    }
}

/// What is reported of a session, with the number of its closing fault.
fn told_as(fed: Fed) -> dv_host::Fed
    ensures { result ≡ told_as fed }
{
    match fed {
        Fed::Open => dv_host::Fed::Open,
        Fed::Closed(fault) => dv_host::Fed::Closed(fault.number()),
        Fed::Unknown => dv_host::Fed::Unknown,
    }
}
