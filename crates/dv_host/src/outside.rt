//! The source of connections.

use crate::channel::{Channel, Failed};
use crate::link::Fate;

/// The source of connections, which also reports which of them may be ready. No clause says which these are.
pub trait Outside {
    ghost use Rattle.std.specs.Prelude.{◌≡◌, ℕ, List, Option, IfOk, OnErr};
    ghost use Rattle.dv_host.specs.Outside.{Closed, Closes, IsNumbered, MayAccept};

    type Channel: Channel + Drop;

    // The bytes of each connection that is still to come, if they are known.
    ghost coming: { Self → Option (List (List ℕ)) };

    // Of each closed connection, the bytes that were left, the bytes that it has taken, and how it ended, if these are known.
    ghost closed: { Self → Option (List Closed) };

    // How many connections were accepted.
    ghost came: { Self → ℕ };

    /// Waits until some connection may be ready, or one may be accepted, and returns how many may be ready. Doesn't wait if `again`
    /// was called since the last wait.
    fn wait(&mut self) -> Result<usize, Failed>
        ensures coming { coming self.new ≡ coming self.old }
        ensures closed { closed self.new ≡ closed self.old }
        ensures came { came self.new ≡ came self.old };

    /// The number of a connection that may be ready, by its place among these, or a number that no connection has.
    fn ready(&self, place: usize) -> u64;

    /// Has the next wait report the connection of this number once more among those that may be ready.
    fn again(&mut self, number: u64)
        ensures coming { coming self.new ≡ coming self.old }
        ensures closed { closed self.new ≡ closed self.old }
        ensures came { came self.new ≡ came self.old };

    /// The next connection, if one waits. Connections are numbered from 1 in the order in which they are accepted.
    fn accept(&mut self) -> Result<Option<Self::Channel>, Failed>
        ensures accepted { IfOk result (λ one. MayAccept Self.Channel.remaining Self.Channel.contents one (coming self.old) (coming self.new)) }
        ensures kept { OnErr result (coming self.new ≡ coming self.old) }
        ensures closed { closed self.new ≡ closed self.old }
        ensures numbered { IsNumbered Self.Channel.number result (came self.old) (came self.new) };

    /// Closes a connection that ended in this way.
    fn close(&mut self, channel: Self::Channel, fate: Fate)
        ensures coming { coming self.new ≡ coming self.old }
        ensures closed { Closes (closed self.old) (Self.Channel.remaining channel) (Self.Channel.contents channel) fate (closed self.new) }
        ensures came { came self.new ≡ came self.old };
}
