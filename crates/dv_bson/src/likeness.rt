//! The parts of an earlier document that correspond to parts of the one that is read: only their names are reused.

use dv_value::{Document, Value};

/// The value, if it is a document.
pub(crate) fn document_like(value: Option<&Value>) -> Option<&Document> {
    match value {
        Some(Value::Doc(document)) => Some(document),
        _ => None,
    }
}

/// The first element, if the value is an array that has one.
pub(crate) fn element_like(value: Option<&Value>) -> Option<&Value> {
    match value {
        Some(Value::Array(list)) => list.as_slice().first(),
        _ => None,
    }
}

/// The value at `place` of the document.
pub(crate) fn value_like(document: Option<&Document>, place: usize) -> Option<&Value> {
    let (_name, value) = document?.entry(place)?;
    Some(value)
}
