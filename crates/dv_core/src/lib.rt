//! The store: commands carried out one by one.
#![tactic(auto)]

mod answers;
mod find;
mod indexing;
pub mod laws;
mod loading;
mod machine;
mod more;
mod next;
mod outcome;
mod reserve;
mod storable;
mod store;
mod writes;
mod written;

pub use dv_command::Command;
pub use outcome::{Batch, Outcome, Told};
pub use store::Store;
