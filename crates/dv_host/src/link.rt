//! A connection that is open, and how it ends.

ghost use Rattle.std.specs.Prelude.{◌≤◌, vec_len};

/// How a connection ended.
#[derive(Clone, Copy, Debug, PartialEq, Eq)]
pub enum Fate {
    /// All its bytes were read, and it has received all replies.
    Ended,
    /// Its session was closed by the fault of this number, and it has received all replies.
    Closed(u8),
    /// No more of an unfinished message is allowed, or there is no memory for its next bytes; and it has received all replies.
    Full,
    /// It failed, no session could be opened for it, or serving ended before it did.
    Failed,
}

/// The result of a connection's turn.
#[derive(Clone, Copy, Debug, PartialEq, Eq)]
pub(crate) enum Told {
    /// It waits until the connection is ready.
    Waits,
    /// There may be more to do at once.
    Again,
    /// It is over.
    Over(Fate),
}

/// A connection that is open, with its session.
#[derive(Drop)]
pub(crate) struct Link<C> {
    /// The number under which it is reported as ready.
    pub(crate) number: u64,
    pub(crate) session: u32,
    pub(crate) channel: C,
    /// Replies, of which the first `sent` bytes were sent.
    pub(crate) out: Vec<u8>,
    pub(crate) sent: usize,
    /// Bytes that were read, of which the first `heard` were fed to the session.
    pub(crate) rest: Vec<u8>,
    pub(crate) heard: usize,
    /// The fault that closed the session.
    pub(crate) closing: Option<u8>,
    /// How many bytes of an unfinished message the session keeps.
    pub(crate) unfinished: usize,
    /// Whether the last bytes that were read took all the room for them.
    pub(crate) filled: bool,
    ghost sent_within: { sent ≤ vec_len out },
    ghost heard_within: { heard ≤ vec_len rest },
    ghost few: { vec_len rest ≤ 65536 },
}
