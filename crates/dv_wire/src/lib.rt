//! The sessions that messages come from, and how they are served.
#![tactic(auto)]

mod events;
mod fault;
mod hosted;
mod hub;
pub mod laws;
mod reply;
mod service;
mod session;

pub use dv_core::Store;
pub use dv_message::CloseFault;
pub use dv_streams::{ByteIn, ByteOut, Failed};
pub use events::{Event, Said};
pub use fault::{HubFault, RunFault};
pub use hub::{Fed, Hub, SessionId};
pub use service::{Done, run};
