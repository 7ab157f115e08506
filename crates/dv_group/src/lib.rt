//! The operator for `$group`.
#![tactic(auto)]

mod accumulator_state;
mod group_operator;
mod group_state;
mod group_turn;
mod groups;
pub mod laws;
mod live_group;
mod sum_state;
mod transition;

pub use group_operator::GroupOperator;
pub use group_turn::GroupTurn;
