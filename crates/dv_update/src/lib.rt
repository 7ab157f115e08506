//! Updates of BSON documents.
#![tactic(auto)]

mod apply;
mod edit;
mod edits;
mod far;
mod fault;
mod filling;
mod form;
pub mod laws;
mod number;
mod one_field;
mod operand;
mod operator;
mod order;
mod outcome;
mod parsing;
mod pieces;
mod room;
mod stand_in;

pub use fault::UpdateFault;
pub use form::{Edit, Edits, Operation, Pulled, Update};
pub use number::Number;
pub use outcome::Outcome;
