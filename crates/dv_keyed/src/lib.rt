//! Indexes as sets of keys of BSON documents, and the choice of an index for a filter: what needs no collection.
#![tactic(auto)]

mod before;
mod bounds;
mod closed;
mod ids;
mod index;
mod interval;
mod key_lists;
mod keys;
pub mod laws;
mod leaves;
mod multi_index;
mod pairs;
mod plan;
mod trial;
mod tried;
mod within;

pub use before::{Bar, Ties, bar_behind, ids_ahead, is_null_ahead};
pub use bounds::ends_within;
pub use closed::closed_range;
pub use index::{Index, NewIndex};
pub use interval::Interval;
pub use key_lists::{in_order, keys_of_each, lent};
pub use keys::{Keys, keys_of, keys_without};
pub use leaves::is_covered;
pub use multi_index::MultiIndex;
pub use pairs::Pairs;
pub use plan::{Bounds, Plan, Planner, is_decided, same_path};
pub use trial::{Moved, Trial};
pub use tried::{ids_between, ids_tried};
pub use within::ids_within;
