//! Filters of BSON documents.
#![tactic(auto)]

mod ascending;
mod choices;
mod fault;
mod form;
pub mod laws;
mod leaf;
mod marks;
mod matching;
mod operand;
mod operator;
mod parsing;
mod place;
mod range;

pub use choices::Choices;
pub use fault::FilterFault;
pub use form::{Condition, Conditions, Filter, Filters, Member, Test};
pub use range::Range;
