//! The sessions of connections.

/// What is reported of a session after a piece of its bytes.
#[derive(Clone, Copy, Debug, PartialEq, Eq)]
pub enum Fed {
    /// It goes on.
    Open,
    /// It is closed by the fault of this number, and takes no more bytes.
    Closed(u8),
    /// It was never opened, or has ended.
    Unknown,
}

/// Sessions that take bytes and reply to them. The ghost members say what each call may do.
pub trait Sessions {
    ghost use Rattle.std.specs.Prelude.{◌≡◌, ◌<◌, ◌≤◌, ◌++◌, ◌+◌, ℕ, List, Option, MatchOption, length};
    ghost use Rattle.dv_host.specs.declared.sessions.Fed.{Fed};

    // A session is opened under a number, or refused.
    ghost opens: { Self → Option ℕ → Self → Type 0 };

    // A piece of a session's bytes arrives, with the bytes of its replies and what is reported of the session.
    ghost feeds: { Self → ℕ → List ℕ → List ℕ → Fed → Self → Type 0 };

    // A session ends.
    ghost ends: { Self → ℕ → Self → Type 0 };

    // The number of the next session.
    ghost next: { Self → ℕ };

    /// Opens a session, and returns its number. Refused if there are too many, or when memory runs out.
    fn open(&mut self) -> Option<u32>
        ensures opened { opens self.old result self.new }
        ensures numbers { MatchOption result (next self.new ≡ next self.old) (λ n. (n ≡ next self.old) × (next self.new ≡ next self.old + 1)) };

    /// The number of bytes of a session's next piece up to the end of its next message. At least 1, and at most all.
    fn whole_front(&self, session: u32, piece: &[u8]) -> usize
        requires { 0 < length piece.now }
        ensures some { 0 < result }
        ensures within { result ≤ length piece.now };

    /// Takes the next piece of a session's bytes, and appends the replies to `out`.
    fn feed(&mut self, session: u32, piece: &[u8], out: &mut Vec<u8>) -> Fed
        ensures fed { (bytes : List ℕ) × (out.new.items ≡ out.old.items ++ bytes) × feeds self.old session piece.now bytes result self.new }
        ensures numbers { next self.new ≡ next self.old };

    /// How many bytes of an unfinished message a session keeps.
    fn unfinished(&self, session: u32) -> usize;

    /// Ends a session.
    fn end(&mut self, session: u32)
        ensures ended { ends self.old session self.new }
        ensures numbers { next self.new ≡ next self.old };
}
