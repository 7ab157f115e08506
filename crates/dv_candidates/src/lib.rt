//! Paths into BSON documents, and the candidates to which they lead.
#![tactic(auto)]

mod any;
mod candidate;
mod component;
mod fault;
pub mod laws;
mod listed;
mod onward;
mod path;
mod places;
mod sole;
mod walk;

pub use any::{any_leaf, any_whole, any_with_elements};
pub use candidate::Candidate;
pub use component::Component;
pub use fault::PathFault;
pub use listed::{leaves, whole};
pub use path::Path;
pub use sole::sole_candidate;
pub use walk::{behind, fold_whole};
