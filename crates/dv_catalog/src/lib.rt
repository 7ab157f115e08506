//! Collections and views, by namespace.
#![tactic(auto)]

mod ahead;
mod asked;
mod behind;
mod by_id;
mod catalog;
mod collections;
mod counts;
mod delete;
mod effect;
mod explained;
mod failure;
mod front;
mod indexing;
mod insert;
mod keyed;
pub mod laws;
mod pending_indexes;
mod refresh;
mod rows;
mod scan;
mod selection;
mod sources;
mod standing;
mod stats;
mod update;
mod view_changes;

pub use catalog::Catalog;
pub use counts::Counted;
pub use explained::{Access, Explained};
pub use failure::Stopped;
pub use indexing::IndexCounts;
pub use stats::Stats;
