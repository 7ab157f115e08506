//! Where a session's bytes come from, and where its replies go.

ghost use Rattle.std.specs.Prelude.{◌≡◌, ◌++◌, ℕ, List, OnOk, OnErr};
ghost use Rattle.std.specs.Io.KnownBytes.{Appends};
ghost use Rattle.dv_streams.specs.Stream.{once_more};

/// A reader or a writer failed.
#[derive(Clone, Copy, Debug, PartialEq, Eq)]
pub struct Failed;

/// What bytes are read from.
pub trait ByteIn {
    ghost use Rattle.std.specs.Prelude.{◌≡◌, ◌≤◌, ◌<◌, ℕ, List, Option, length, take, IfOk, OnErr};
    ghost use Rattle.std.specs.Io.KnownBytes.{Consumes, IsAtEnd, Keeps};
    ghost use Rattle.dv_streams.specs.Stream.{MoreBy, failures_read};

    // The bytes that are still to come, where they are known.
    ghost remaining: { Self → Option (List ℕ) };

    // How often it has failed, as 64 bits count it.
    ghost failures: { Self → ℕ };

    // The number of reads, as 64 bits count it.
    ghost reads: { Self → ℕ };

    /// Puts the next bytes at the front of the piece, and returns how many they are: 0 only at the end of input. Fails if the
    /// reader fails; then no byte is lost.
    fn take(&mut self, piece: &mut [u8]) -> Result<usize, Failed>
        requires { 0 < length piece.old }
        ensures few { IfOk result (λ count. count ≤ length piece.new) }
        ensures bytes { IfOk result (λ count. Consumes (remaining self.old) (remaining self.new) (take count piece.new)) }
        ensures end { IfOk result (λ count. count ≡ 0 → IsAtEnd (remaining self.new)) }
        ensures kept { OnErr result (Keeps (remaining self.old) (remaining self.new)) }
        ensures failures { failures self.new ≡ failures_read result (failures self.old) }
        ensures reads { MoreBy 1 (reads self.old) (reads self.new) };
}

/// What bytes are written to.
pub trait ByteOut {
    ghost use Rattle.std.specs.Prelude.{◌≡◌, ◌≤◌, ◌<◌, ℕ, List, Option, length, take, IfOk, OnErr};
    ghost use Rattle.std.specs.Io.KnownBytes.{Appends, Keeps};
    ghost use Rattle.dv_streams.specs.Stream.{failures_written};

    // The bytes that it has taken, where they are known.
    ghost contents: { Self → Option (List ℕ) };

    // How often it has failed, as 64 bits count it. To take none of the bytes is to fail.
    ghost failures: { Self → ℕ };

    /// Takes some of the bytes, from the front, and returns how many. Fails if it takes none.
    fn give(&mut self, bytes: &[u8]) -> Result<usize, Failed>
        requires { 0 < length bytes.now }
        ensures few { IfOk result (λ count. count ≤ length bytes.now) }
        ensures taken { IfOk result (λ count. Appends (contents self.old) (contents self.new) (take count bytes.now)) }
        ensures kept { OnErr result (Keeps (contents self.old) (contents self.new)) }
        ensures failures { failures self.new ≡ failures_written result (failures self.old) };
}

/// Writes all the bytes: if the writer takes fewer, the rest is given to it. Fails if the writer does.
pub fn give_all<W: ByteOut>(writer: &mut W, bytes: &[u8]) -> Result<(), Failed>
    ensures all { OnOk result (Appends (W.contents writer.old) (W.contents writer.new) bytes.now) }
    ensures part { OnErr result ((part : List ℕ) × (rest : List ℕ) × (bytes.now ≡ part ++ rest) × Appends (W.contents writer.old) (W.contents writer.new) part) }
    ensures counted { OnOk result (W.failures writer.new ≡ W.failures writer.old) }
    ensures failed { OnErr result (W.failures writer.new ≡ once_more (W.failures writer.old)) }
{
    let mut rest = bytes;
    'pieces: while !rest.is_empty() {
        let count = writer.give(rest)?;
        if count == 0 {
            return Err(Failed);
        }
        rest = &rest[count..];
    }
    Ok(())
}
