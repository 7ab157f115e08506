//! Views: named pipelines over collections and older views. A live view stores its rows, and the changes of what it reads update
//! them.
//!
//! A `ToldRegistry` is for a caller that knows, for each change, which document was at its position before, because it stores the
//! documents. Of what views read, it keeps only what their stages need. A `Registry` is for all other callers: it keeps the
//! documents of each namespace that views read, and so finds by itself which document was at the position of a change.
#![tactic(auto)]

mod by_id;
mod copies;
mod fault;
mod handing;
mod keeping;
pub mod laws;
mod lookups;
mod making;
mod older;
mod passing;
mod places;
mod readers;
mod registry;
mod rows;
mod stage_operator;
mod standing;
mod state;
mod told_registry;
mod view;

pub use by_id::{RowsBetween, RowsById, Standing};
pub use fault::ViewFault;
pub use lookups::{beside, lookups_of, names_read};
pub use places::{document_gone, document_put};
pub use registry::Registry;
pub use rows::ViewRows;
pub use state::ViewState;
pub use told_registry::ToldRegistry;
