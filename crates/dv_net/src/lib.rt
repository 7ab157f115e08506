//! Connections of this machine's own network that never wait, by `mio`: readiness of sockets.
#![tactic(auto)]

mod port;

pub use port::{Port, Stream};
