//! Several sessions at once: as many as there may be, and events that are played.

use crate::empty;
use dv_testing::messages::{PING, PONG};
use dv_value::Bytes;
use dv_wire::{CloseFault, Event, Fed, Hub, HubFault, Said, SessionId};
use std::alloc::Global;
use std::mem::ManuallyDrop;
use std::test::Fail;

/// A header whose operation code isn't that of OP_MSG.
const STRANGE: &[u8] = b"/\0\0\0\x0a\0\0\0\0\0\0\0\xd4\x07\0\0";

/// The first bytes of a message of 1,000,000 bytes.
const FRONT: &[u8] = b"\x40\x42\x0f\0\x01\0\0\0\0\0\0\0\xdd\x07\0\0\0\0\0\0";

/// A hub with a thousand open sessions.
fn full(alloc: Global) -> ManuallyDrop<Hub> {
    let mut hub = empty::hub(alloc);
    for _ in 0..1000 {
        let _ = hub.open();
    }
    hub
}

/// Whether the hub opens no more sessions.
fn is_full(hub: &mut Hub) -> bool {
    hub.open() == Err(HubFault::TooManySessions)
}

/// Closes the session by bytes that are no message.
fn close(alloc: Global, hub: &mut Hub, session: SessionId) -> Fed {
    hub.feed(session, STRANGE, &mut Vec::new(alloc))
}

/// Closed sessions are among the thousand until they end.
#[test]
fn a_thousand_sessions_are_open_at_most(rt: HostRuntime) {
    let alloc = rt.alloc();
    let mut hub = full(alloc);
    let eighth = SessionId { number: 7 };
    assert!(rt; is_full(&mut hub));
    assert_eq!(rt;
        close(alloc, &mut hub, eighth),
        Fed::Closed(CloseFault::BadOpCode)
    );
    assert!(rt; is_full(&mut hub));
    assert_eq!(rt; hub.end(eighth), 0);
    assert_eq!(rt; hub.open(), Ok(SessionId { number: 1000 }));
    assert!(rt; is_full(&mut hub));
}

/// How many bytes are dropped of an unfinished message that has so many after its first ones.
fn unfinished(alloc: Global, count: usize) -> Result<usize, Fail> {
    let mut hub = empty::hub(alloc);
    let session = hub.open()?;
    let mut out = Vec::new(alloc);
    hub.feed(session, FRONT, &mut out);
    hub.feed(session, vec![in alloc; 0u8; count]?.as_slice(), &mut out);
    Ok(hub.end(session))
}

#[test]
fn a_long_message_may_stay_unfinished(rt: HostRuntime) -> Result<(), Fail> {
    assert_eq!(rt; unfinished(rt.alloc(), 100_000)?, 100_020);
    Ok(())
}

/// What a hub returns for a session that is opened, takes a ping and ends.
fn played(alloc: Global) -> Result<Vec<Said>, Fail> {
    let first = SessionId { number: 0 };
    let mut events = Vec::new(alloc);
    events.push(Event::Open)?;
    events.push(Event::Piece(first, Bytes::of(PING.to_vec(alloc)?)))?;
    events.push(Event::End(first))?;
    let mut said = Vec::new(alloc);
    empty::hub(alloc).play(&events, &mut said)?;
    Ok(said)
}

#[test]
fn events_are_played_in_order(rt: HostRuntime) -> Result<(), Fail> {
    let said = played(rt.alloc())?;
    let [
        Said::Opened(Ok(opened)),
        Said::Fed(Fed::Open, replies),
        Said::Ended(0),
    ] = said.as_slice()
    else {
        return Err(Fail::from("three answers"));
    };
    assert_eq!(rt; opened.number, 0);
    assert_eq!(rt; replies.as_slice(), PONG);
    Ok(())
}
