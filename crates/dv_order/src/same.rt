//! Values with the same encoding.

ghost use Rattle.std.specs.Prelude.{◌≡◌, ◌<◌, ◌&&◌, Some, length, slice_get};
ghost use Rattle.std.specs.Str.{bytes_eq};
ghost use Rattle.dv_value.specs.Tree.{Field, fields_of, elements_of};
ghost use Rattle.dv_value.specs.View.{tree};
ghost use Rattle.dv_order.specs.Same as defined;

use crate::placed::value_at;
use dv_value::{Document, List, Value};

/// Whether two values are the same: of one type and with the same content, the width of integers and the order of fields
/// included. Takes no memory, and time at most linear in the smaller of the two.
#[cycle(same)]
pub fn is_same(a: &Value, b: &Value) -> bool
    ensures { result ≡ defined.is_same (tree a.now) (tree b.now) }
{
    match (a, b) {
        (Value::Int32(a), Value::Int32(b)) => a == b,
        (Value::Int64(a), Value::Int64(b)) => a == b,
        (Value::Text(a), Value::Text(b)) => same_texts(a.as_str(), b.as_str()),
        (Value::Doc(a), Value::Doc(b)) => same_documents(a, b),
        (Value::Array(a), Value::Array(b)) => same_lists(a, b),
        (Value::Bool(a), Value::Bool(b)) => a == b,
        (
            Value::Binary { subtype, bytes },
            Value::Binary {
                subtype: other_subtype,
                bytes: other_bytes,
            },
        ) => subtype == other_subtype && same_bytes(bytes.as_slice(), other_bytes.as_slice()),
        (Value::ObjectId(a), Value::ObjectId(b)) => same_bytes(a, b),
        (Value::Date(a), Value::Date(b)) => a == b,
        (Value::Timestamp(a), Value::Timestamp(b)) => a == b,
        (Value::Null, Value::Null) => true,
        (Value::MinKey, Value::MinKey) => true,
        (Value::MaxKey, Value::MaxKey) => true,
        _ => false,
    }
}

/// Both are functions of their own, so that they take no stack where nested values are compared: there may be thousands of levels.
#[inline(never)]
fn same_texts(a: &str, b: &str) -> bool
    ensures { result ≡ bytes_eq a.now b.now }
{
    a == b
}

#[inline(never)]
fn same_bytes(a: &[u8], b: &[u8]) -> bool
    ensures { result ≡ bytes_eq a.now b.now }
{
    a == b
}

/// Whether two documents have the same fields in the same order. Takes no memory, and time at most linear in the smaller
/// of the two.
#[cycle(same)]
#[inline(never)]
pub fn same_documents(a: &Document, b: &Document) -> bool
    ensures { result ≡ defined.same_fields (fields_of a.now) (fields_of b.now) }
{
    'fields: for place in 0..a.len() {
        if place == b.len() {
            break;
        }
        if !same_at(a, b, place) {
            return false;
        }
    }
    a.len() == b.len()
}

/// Whether the fields at a place of both documents have the same name and value.
#[cycle(same)]
fn same_at(a: &Document, b: &Document, place: usize) -> bool
    requires a { place < length a.now }
    requires b { place < length b.now }
    ensures { (f g : Field) → slice_get a.now place ≡ Some f → slice_get b.now place ≡ Some g → result ≡ (bytes_eq f.0 g.0 && defined.is_same f.1 g.1) }
{
    same_names_at(a, b, place) && is_same(value_at(a, place), value_at(b, place))
}

/// Whether the fields at a place of both documents have the same name.
#[inline(never)]
fn same_names_at(a: &Document, b: &Document, place: usize) -> bool
    requires a { place < length a.now }
    requires b { place < length b.now }
    ensures { (f g : Field) → slice_get a.now place ≡ Some f → slice_get b.now place ≡ Some g → result ≡ bytes_eq f.0 g.0 }
{
    let (name, _value) = a.field(place);
    let (other_name, _other_value) = b.field(place);
    name == other_name
}

#[cycle(same)]
#[inline(never)]
fn same_lists(a: &List, b: &List) -> bool
    ensures { result ≡ defined.same_elements (elements_of a.now) (elements_of b.now) }
{
    let xs = a.as_slice();
    let ys = b.as_slice();
    'elements: for (x, y) in xs.iter().zip(ys) {
        if !is_same(x, y) {
            return false;
        }
    }
    xs.len() == ys.len()
}
