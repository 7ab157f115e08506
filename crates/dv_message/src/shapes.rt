//! The shapes of a session's documents: their names.

use dv_value::{BsonFault, Document, List, Value, size};
use std::alloc::Global;

/// The most bytes of a document whose shape is kept.
const LARGEST_SHAPED: u32 = 4_096;

/// How many levels a shape has inside a document. What lies deeper has none.
const LEVELS: u32 = 8;

/// How many documents are skipped between two that are compared with the shape, once a shape is kept.
const MOST_PASSED: u32 = 4;

/// How many of the compared documents must have another shape in a row, until the last one's shape is kept instead. So the kept
/// shape stays if requests of several shapes take turns.
const MOST_OTHERS: u32 = 4;

/// The shapes of the documents in a session's messages. A document that is read with its shape shares the names, so that messages
/// of one shape take no memory for names. A shape holds no value of a message, and none is kept of a document of over 4,096 bytes.
#[derive(Debug, Drop)]
pub struct Shapes {
    body: Shape,
    listed: Shape,
}

impl Shapes {
    /// No shapes. Takes no memory.
    pub fn new(alloc: Global) -> Self {
        Shapes {
            body: Shape::none(alloc),
            listed: Shape::none(alloc),
        }
    }

    /// The shape of bodies; without fields if there is none.
    pub(crate) fn body(&self) -> &Document {
        &self.body.names
    }

    /// The shape of the documents in lists that come with bodies; without fields if there is none.
    pub(crate) fn listed(&self) -> &Document {
        &self.listed.names
    }

    /// Takes note of a body, and keeps its shape if it is time for another one.
    pub(crate) fn keep_body(&mut self, alloc: Global, body: &Document) {
        self.body.keep(alloc, body);
    }

    /// Takes note of a document in a list, and keeps its shape if it is time for another one.
    pub(crate) fn keep_listed(&mut self, alloc: Global, document: &Document) {
        self.listed.keep(alloc, document);
    }
}

/// The shape that documents are expected to have.
#[derive(Debug, Drop)]
struct Shape {
    /// Null in place of each value, except documents, and arrays that begin with one.
    names: Document,
    /// How many documents were skipped since one was compared.
    passed: u32,
    /// How many documents were compared since one had this shape.
    others: u32,
}

impl Shape {
    /// Nothing is expected.
    fn none(alloc: Global) -> Self {
        Shape {
            names: Document::new(alloc),
            passed: 0,
            others: 0,
        }
    }

    /// Compares a document with the shape if it is time to, and keeps its shape instead if it is time for another one. If memory
    /// runs out for that, there is no shape then.
    fn keep(&mut self, alloc: Global, document: &Document) {
        if self.passed < MOST_PASSED && !self.names.is_empty() {
            self.passed += 1;
            return;
        }
        self.passed = 0;
        if has_shape(document, &self.names, LEVELS) {
            self.others = 0;
            return;
        }
        self.others = self.others.saturating_add(1);
        if self.others < MOST_OTHERS && !self.names.is_empty() {
            return;
        }
        self.others = 0;
        self.names = match small_shape_of(alloc, document) {
            Ok(names) => names,
            Err(_) => Document::new(alloc),
        };
    }
}

/// Whether the document has this shape, and documents inside it have theirs, down to this many levels.
#[cycle(comparison)]
fn has_shape(document: &Document, shape: &Document, levels: u32) -> bool {
    if document.len() != shape.len() {
        return false;
    }
    'fields: for ((name, value), (like, shape)) in document.iter().zip(shape.iter()) {
        if name != like || !has_value_shape(value, shape, levels) {
            return false;
        }
    }
    true
}

/// Whether a value has this shape: each of the two is a document, or an array that begins with one, and the first document has the
/// shape of the second; or neither is. If no levels are left, any value has it.
#[cycle(comparison)]
fn has_value_shape(value: &Value, shape: &Value, levels: u32) -> bool {
    if levels == 0 {
        return true;
    }
    match (inner(value), inner(shape)) {
        (None, None) => true,
        (Some(document), Some(shape)) => has_shape(document, shape, levels - 1),
        _ => false,
    }
}

/// The document that a value is, or that an array begins with.
fn inner(value: &Value) -> Option<&Document> {
    match value {
        Value::Doc(document) => Some(document),
        Value::Array(list) => match list.as_slice().first() {
            Some(Value::Doc(document)) => Some(document),
            _ => None,
        },
        _ => None,
    }
}

/// The shape of a document; without fields if it is too large. Fails when memory runs out.
fn small_shape_of(alloc: Global, document: &Document) -> Result<Document, BsonFault> {
    match size(document) {
        Some(size) if size <= LARGEST_SHAPED => shape_of(alloc, document, LEVELS),
        _ => Ok(Document::new(alloc)),
    }
}

/// The shape of a document, with this many levels inside: the same names, and null in place of values. Fails when memory runs out.
#[cycle(making)]
fn shape_of(alloc: Global, document: &Document, levels: u32) -> Result<Document, BsonFault> {
    let mut shape = Document::expecting(alloc, document)?;
    'fields: for (name, value) in document.iter() {
        let value = value_shape(alloc, value, levels)?;
        shape.push(name, value)?;
    }
    Ok(shape)
}

/// The shape of a document, or of an array's first one; null in place of any other value. Fails when memory runs out.
#[cycle(making)]
fn value_shape(alloc: Global, value: &Value, levels: u32) -> Result<Value, BsonFault> {
    if levels == 0 {
        return Ok(Value::Null);
    }
    match (value, inner(value)) {
        (_, None) => Ok(Value::Null),
        (Value::Array(_), Some(first)) => {
            let first = Value::Doc(shape_of(alloc, first, levels - 1)?);
            Ok(Value::Array(List::of(vec![in alloc; first]?)))
        }
        (_, Some(document)) => Ok(Value::Doc(shape_of(alloc, document, levels - 1)?)),
    }
}
