//! Sessions over streams: the one of standard input, and those of connections, one after the other or many at once; and why the
//! program ends after them.
#![tactic(auto)]

mod ending;
mod input;
pub mod listen;
mod ports;
pub mod serve;

pub use input::run_session;
pub use ports::{listen_at, serve_at};
