//! Collections of BSON documents with their indexes.
#![tactic(auto)]

mod ahead;
mod change;
mod coverage;
mod finding;
mod indexed;
mod indexes;
pub mod laws;
mod making;
mod search;
mod unique;
mod walk;

pub use ahead::{Ahead, is_ahead};
pub use coverage::covered;
pub use dv_keyed::{
    Bar, Bounds, Index, Keys, MultiIndex, NewIndex, Plan, Planner, Ties, keys_of, same_path,
};
pub use indexed::{Explanation, IndexedCollection};
pub use indexes::Indexes;
pub use search::{all_matching, run};
pub use unique::Replacing;
