//! Many connections at once, each with a session of its own: on one thread, in turns, as they become ready. What the sessions are,
//! and where the connections come from, is left open.
#![tactic(auto)]

mod channel;
mod hosting;
pub mod laws;
mod link;
mod outside;
mod sessions;
mod turn;

pub use channel::{Channel, Failed, Taken};
pub use hosting::{HostFault, host};
pub use link::Fate;
pub use outside::Outside;
pub use sessions::{Fed, Sessions};
