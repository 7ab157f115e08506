//! Documents as text: plain numbers are int32, L marks int64, texts are in single quotes, bytes follow an x.

use dv_value::{Document, List, Value};
use std::alloc::AllocError;

fn show_bytes(out: &mut String, bytes: &[u8]) -> Result<(), AllocError> {
    out.push_str("x")?;
    for byte in bytes {
        show_byte(out, *byte)?;
    }
    Ok(())
}

fn show_byte(out: &mut String, byte: u8) -> Result<(), AllocError> {
    write!(out, "{byte:02x}")
}

#[cycle(shown)]
fn show_value(out: &mut String, value: &Value) -> Result<(), AllocError> {
    match value {
        Value::Int32(number) => write!(out, "{number}"),
        Value::Int64(number) => write!(out, "{number}L"),
        Value::Text(text) => write!(out, "'{}'", text.as_str()),
        Value::Doc(document) => show(out, document),
        Value::Array(list) => show_list(out, list),
        Value::Binary { subtype, bytes } => {
            write!(out, "binary {subtype} ")?;
            show_bytes(out, bytes.as_slice())
        }
        Value::ObjectId(id) => {
            out.push_str("id ")?;
            show_bytes(out, id)
        }
        Value::Bool(truth) => write!(out, "{truth}"),
        Value::Date(milliseconds) => write!(out, "date {milliseconds}"),
        Value::Null => out.push_str("null"),
        Value::Timestamp(time) => write!(out, "timestamp {time}"),
        Value::MinKey => out.push_str("least"),
        Value::MaxKey => out.push_str("greatest"),
    }
}

#[cycle(shown)]
#[tactic(auto, using(crate::proofs::Weights::value_falls))]
fn show_list(out: &mut String, list: &List) -> Result<(), AllocError> {
    out.push_str("[")?;
    let mut is_first = true;
    for value in list.as_slice() {
        if !is_first {
            out.push_str(", ")?;
        }
        is_first = false;
        show_value(out, value)?;
    }
    out.push_str("]")
}

/// Appends the document's text.
#[cycle(shown)]
#[tactic(auto, using(crate::proofs::Weights::field_falls))]
pub fn show(out: &mut String, document: &Document) -> Result<(), AllocError> {
    out.push_str("{")?;
    for place in 0..document.len() {
        if let Some((name, value)) = document.entry(place) {
            if place > 0 {
                out.push_str(", ")?;
            }
            out.push_str(name)?;
            out.push_str(": ")?;
            show_value(out, value)?;
        }
    }
    out.push_str("}")
}
