//! The operator for `$lookup`, which follows both its inputs.
#![tactic(auto)]

mod index;
mod joining;
pub mod laws;
mod lookup;
mod operator;

pub use lookup::LookupTurn;
pub use operator::LookupOperator;
