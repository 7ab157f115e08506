//! The bytes of BSON documents: how they are read and written.
#![tactic(auto)]

mod fault;
pub mod laws;
mod likeness;
mod reader;
mod reading;
mod walk;
mod writer;

pub use dv_value::{BsonFault, Bytes, Document, List, NoMemory, Str, Value, fits, size};
pub use reader::{read_document, read_document_like};
pub use walk::check_document;
pub use writer::write_document;
