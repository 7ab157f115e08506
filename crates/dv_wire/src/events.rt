//! What happens to sessions, as a list.

use crate::fault::HubFault;
use crate::hub::{Fed, SessionId};
use dv_value::Bytes;

/// What happens to the sessions of a hub.
#[derive(Debug, Drop)]
pub enum Event {
    /// A session is opened.
    Open,
    /// The next piece of a session's bytes comes.
    Piece(SessionId, Bytes),
    /// A session ends.
    End(SessionId),
}

/// What a hub says of an event.
#[derive(Debug, Drop)]
pub enum Said {
    /// The session's number, or why none is opened.
    Opened(Result<SessionId, HubFault>),
    /// What the session then is, and the bytes of the replies.
    Fed(Fed, Bytes),
    /// How many bytes of an unfinished message are dropped.
    Ended(usize),
}
