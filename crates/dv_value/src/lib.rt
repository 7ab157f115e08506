//! Values and documents of BSON in memory, lists of values, and the size of their encoding.
#![tactic(auto)]

mod bytes;
mod fault;
mod field_change;
mod kind;
pub mod laws;
mod limits;
mod name;
mod name_index;
mod name_list;
mod removing;
mod text;
mod value;

pub use bytes::Bytes;
pub use fault::BsonFault;
pub use field_change::FieldChange;
pub use kind::Kind;
pub use limits::{
    FRAME, MAX_DOCUMENT_LEN, MAX_LEVELS, document_size, fits, size, value_size, value_within,
};
pub use name::{Name, begins_with_dollar};
pub use name_list::Names;
pub use text::Str;
pub use value::{Document, DocumentIter, Fields, List, Value};

/// Memory ran out: the fault of functions that have no other fault.
pub type NoMemory = std::alloc::AllocError;
