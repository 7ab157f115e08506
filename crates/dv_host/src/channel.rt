//! A connection that never waits.

ghost use Rattle.std.specs.Prelude.{◌≡◌, ◌≤◌, take, length};
ghost use Rattle.dv_host.specs.Channel.{Gains};

/// A connection, or the source of connections, failed.
#[derive(Clone, Copy, Debug, PartialEq, Eq)]
pub struct Failed;

/// The result of an attempt to read bytes.
#[derive(Clone, Copy, Debug, PartialEq, Eq)]
pub enum Taken {
    /// So many bytes were read.
    Bytes(usize),
    /// The input is at its end.
    End,
    /// There are no bytes yet.
    Later,
}

/// A connection that never waits.
pub trait Channel {
    ghost use Rattle.std.specs.Prelude.{◌≡◌, ◌≤◌, ◌<◌, ℕ, List, Option, length, take, IfOk, OnErr};
    ghost use Rattle.std.specs.Io.KnownBytes.{Keeps};
    ghost use Rattle.dv_host.specs.Channel.{Gains, Takes};

    // The bytes that are still to come, if they are known.
    ghost remaining: { Self → Option (List ℕ) };

    // The bytes that it was given and has taken, if they are known. Whether they are known never changes.
    ghost contents: { Self → Option (List ℕ) };

    // Its number, which never changes.
    ghost number: { Self → ℕ };

    /// The number under which it is reported as ready.
    fn number(&self) -> u64
        ensures { result ≡ number self.now };

    /// Reads the next bytes into the start of the piece. Fails if the connection fails; then no byte is lost.
    fn take(&mut self, piece: &mut [u8]) -> Result<Taken, Failed>
        requires { 0 < length piece.old }
        ensures taken { IfOk result (λ taken. Takes taken (remaining self.old) (remaining self.new) piece.new) }
        ensures kept { OnErr result (Keeps (remaining self.old) (remaining self.new)) }
        ensures contents { contents self.new ≡ contents self.old }
        ensures number { number self.new ≡ number self.old };

    /// Sends some of the bytes, from the first one on, and returns how many: 0 if none can be sent now.
    fn give(&mut self, bytes: &[u8]) -> Result<usize, Failed>
        requires { 0 < length bytes.now }
        ensures few { IfOk result (λ count. count ≤ length bytes.now) }
        ensures taken { IfOk result (λ count. Gains (contents self.old) (contents self.new) (take count bytes.now)) }
        ensures kept { OnErr result (contents self.new ≡ contents self.old) }
        ensures remaining { remaining self.new ≡ remaining self.old }
        ensures number { number self.new ≡ number self.old };
}

/// How many bytes were sent, and whether the connection then failed.
#[derive(Clone, Copy)]
pub(crate) struct Given {
    pub(crate) count: usize,
    pub(crate) failed: bool,
}

/// Sends the bytes in order, until all are sent, no more can be sent now, or the connection fails.
pub(crate) fn give_on<C: Channel>(channel: &mut C, bytes: &[u8]) -> Given
    ensures few { result.count ≤ length bytes.now }
    ensures taken { Gains (C.contents channel.old) (C.contents channel.new) (take result.count bytes.now) }
    ensures remaining { C.remaining channel.new ≡ C.remaining channel.old }
{
    let mut count = 0;
    'gives: while count < bytes.len() {
        match channel.give(&bytes[count..]) {
            Ok(0) => {
                return Given {
                    count,
                    failed: false,
                };
            }
            Ok(more) => count += more,
            Err(_) => {
                return Given {
                    count,
                    failed: true,
                };
            }
        }
    }
    Given {
        count,
        failed: false,
    }
}
