//! Paths into BSON documents: values are put and removed at a path, and a path leads to keys.
#![tactic(auto)]

mod direction;
mod exchange;
mod expression;
mod grouping;
mod keys;
pub mod laws;
mod names;
mod placing;
mod refusing;
mod removing;
mod removing_each;
mod slot;
mod sort_spec;
mod sorting;

pub use direction::Direction;
pub use dv_candidates::{Candidate, Path, PathFault, any_leaf, any_whole, leaves, whole};
pub use expression::expr_value;
pub use keys::{add_element_keys, add_key, array_in, candidate_key, leaf_keys};
pub use names::{has_bad_name, has_dot};
pub use placing::put_at;
pub use removing::remove_at;
pub use removing_each::remove_each;
pub use slot::{Slot, slot_at};
pub use sort_spec::{SortPart, SortSpec};
pub use sorting::sort_key;
