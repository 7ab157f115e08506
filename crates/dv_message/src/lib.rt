//! OP_MSG messages: where a message ends in a stream of bytes, what its sections contain, and how a reply is encoded.
#![tactic(auto)]

mod batch;
mod commands;
mod fault;
mod framed;
mod front;
pub mod laws;
mod reply;
mod sections;
mod shapes;

pub use batch::append_batch;
pub use commands::command_in;
pub use fault::CloseFault;
pub use framed::Framed;
pub use front::{Front, Message, front_length, front_of};
pub use reply::append_reply;
pub use sections::{Section, Sections};
pub use shapes::Shapes;
