//! Stages that group and join rows: sums, least and greatest values, `$group` and `$lookup`.
#![tactic(auto)]

mod accumulator;
mod accumulator_state;
mod alike;
mod extreme;
mod group;
mod group_parsing;
mod group_rows;
mod group_state;
mod joining;
mod keys;
pub mod laws;
mod lookup;
mod lookup_parsing;
mod sum_state;

pub use accumulator::Accumulator;
pub use group::{Group, GroupField};
pub use group_rows::row_of_values;
pub use lookup::{Join, Lookup};
pub use sum_state::{addend, is_int64, sum_value};
