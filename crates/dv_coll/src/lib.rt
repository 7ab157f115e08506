//! Collections of BSON documents by their `_id`.
#![tactic(auto)]

mod collection;
mod fault;
pub mod laws;
mod walk;

pub use collection::{Collection, Iter, key_of_id};
pub use fault::InsertFault;
pub use walk::Walk;
