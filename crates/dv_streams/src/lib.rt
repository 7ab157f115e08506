//! Where a session's bytes come from and where its replies go: readers and writers that count their failures, and the system's
//! own readers and writers.
#![tactic(auto)]

mod stream;
mod system;

pub use stream::{ByteIn, ByteOut, Failed, give_all};
pub use system::{CountedReader, CountedWriter, TextOut, counted, piece};
