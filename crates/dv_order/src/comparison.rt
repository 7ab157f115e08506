//! The order of two values.

ghost use Rattle.std.specs.Prelude.{◌≡◌, ◌==◌, ◌<◌, Some, length, slice_get};
ghost use Rattle.std.specs.Cmp.Lexicographic.{slice_cmp};
ghost use Rattle.std.specs.Ordering.{nat_cmp, ordering_then};
ghost use Rattle.dv_value.specs.Tree.{Field, binary, fields_of, elements_of};
ghost use Rattle.dv_value.specs.View.{tree};
ghost use Rattle.dv_order.specs.Order.{class, field_order, fields_order, elements_order, order};

use crate::placed::value_at;
use dv_value::{Document, List, Value};
use std::cmp::Ordering;

/// Whether `a` comes before `b` (`Less`), is equal to it (`Equal`) or comes after it (`Greater`).
///
/// The classes of the two types decide first, from low to high: MinKey, null, numbers, strings, documents, arrays, binary data,
/// ObjectIds, booleans, datetimes, timestamps, MaxKey. Within a class integers are ordered by their number, whatever their width,
/// strings and ObjectIds by their bytes, binary data by its length, then its subtype, then its bytes, `false` before `true`,
/// datetimes and timestamps by their number. Documents are ordered by their fields in written order (the class of the value, then
/// the name, then the value) and arrays by their elements; if one ends first, it comes before the other. Takes no memory, and time
/// at most linear in the smaller of the two.
#[cycle(compare)]
pub fn compare(a: &Value, b: &Value) -> Ordering
    ensures { result ≡ order (tree a.now) (tree b.now) }
{
    match (a, b) {
        (Value::Int32(a), Value::Int32(b)) => a.cmp(b),
        (Value::Int32(a), Value::Int64(b)) => i64::from(*a).cmp(b),
        (Value::Int64(a), Value::Int32(b)) => a.cmp(&i64::from(*b)),
        (Value::Int64(a), Value::Int64(b)) => a.cmp(b),
        (Value::Text(a), Value::Text(b)) => a.as_str().cmp(b.as_str()),
        (Value::Doc(a), Value::Doc(b)) => compare_documents(a, b),
        (Value::Array(a), Value::Array(b)) => compare_lists(a, b),
        (
            Value::Binary { subtype, bytes },
            Value::Binary {
                subtype: other_subtype,
                bytes: other_bytes,
            },
        ) => compare_binaries(
            *subtype,
            bytes.as_slice(),
            *other_subtype,
            other_bytes.as_slice(),
        ),
        (Value::ObjectId(a), Value::ObjectId(b)) => a.cmp(b),
        (Value::Bool(a), Value::Bool(b)) => a.cmp(b),
        (Value::Date(a), Value::Date(b)) => a.cmp(b),
        (Value::Timestamp(a), Value::Timestamp(b)) => a.cmp(b),
        _ => class_of(a).cmp(&class_of(b)),
    }
}

/// The order of two values of binary data: the lengths decide, then the subtypes, then the bytes.
pub(crate) fn compare_binaries(
    subtype: u8,
    bytes: &[u8],
    other_subtype: u8,
    other_bytes: &[u8],
) -> Ordering
    ensures { result ≡ order (binary subtype bytes.now) (binary other_subtype other_bytes.now) }
{
    let lengths = bytes.len().cmp(&other_bytes.len());
    match lengths.then(subtype.cmp(&other_subtype)) {
        Ordering::Equal => bytes.cmp(other_bytes),
        unequal => unequal,
    }
}

/// The order of two documents: the first unequal pair of fields decides; if there is none, the shorter one is first.
#[cycle(compare)]
/// A function of its own, so that no registers are saved where numbers or strings are compared.
#[inline(never)]
pub(crate) fn compare_documents(a: &Document, b: &Document) -> Ordering
    ensures { result ≡ fields_order (fields_of a.now) (fields_of b.now) }
{
    'fields: for place in 0..a.len() {
        if place == b.len() {
            break;
        }
        let unequal = compare_at(a, b, place);
        if unequal.is_ne() {
            return unequal;
        }
    }
    a.len().cmp(&b.len())
}

/// The order of the fields at a place of both documents: the class of the value decides, then the name, then the value.
#[cycle(compare)]
fn compare_at(a: &Document, b: &Document, place: usize) -> Ordering
    requires a { place < length a.now }
    requires b { place < length b.now }
    ensures { (f g : Field) → slice_get a.now place ≡ Some f → slice_get b.now place ≡ Some g → result ≡ field_order f g }
{
    let unequal = compare_labels_at(a, b, place);
    if unequal.is_ne() {
        return unequal;
    }
    compare(value_at(a, place), value_at(b, place))
}

/// The order of the fields at a place of both documents, as far as it is decided by the class of the value and by the name.
/// A function of its own, so that it takes no stack where nested values are compared: there may be thousands of levels.
#[inline(never)]
fn compare_labels_at(a: &Document, b: &Document, place: usize) -> Ordering
    requires a { place < length a.now }
    requires b { place < length b.now }
    ensures { (f g : Field) → slice_get a.now place ≡ Some f → slice_get b.now place ≡ Some g → result ≡ ordering_then (nat_cmp (class f.1) (class g.1)) (slice_cmp nat_cmp f.0 g.0) }
{
    let (name, x) = a.field(place);
    let (other_name, y) = b.field(place);
    compare_labels(name, x, other_name, y)
}

fn compare_labels(name: &str, a: &Value, other_name: &str, b: &Value) -> Ordering
    ensures { result ≡ ordering_then (nat_cmp (class (tree a.now)) (class (tree b.now))) (slice_cmp nat_cmp name.now other_name.now) }
{
    class_of(a).cmp(&class_of(b)).then(name.cmp(other_name))
}

/// The order of two arrays: the first unequal pair of elements decides; if there is none, the shorter one is first.
#[cycle(compare)]
/// A function of its own, so that no registers are saved where numbers or strings are compared.
#[inline(never)]
pub(crate) fn compare_lists(a: &List, b: &List) -> Ordering
    ensures { result ≡ elements_order (elements_of a.now) (elements_of b.now) }
{
    let xs = a.as_slice();
    let ys = b.as_slice();
    'elements: for (x, y) in xs.iter().zip(ys) {
        let unequal = compare(x, y);
        if unequal.is_ne() {
            return unequal;
        }
    }
    xs.len().cmp(&ys.len())
}

/// Whether the two types have the same class, as in `compare`: int32 and int64 are both numbers, and any other two types differ.
/// Takes no memory.
pub fn same_class(a: &Value, b: &Value) -> bool
    ensures { result ≡ (class (tree a.now) == class (tree b.now)) }
{
    class_of(a) == class_of(b)
}

/// The place of the value's class among the classes of all BSON types, least first. No value has 1, which is left for
/// the key of what is no element.
pub(crate) fn class_of(value: &Value) -> u8
    ensures { result ≡ class (tree value.now) }
{
    match value {
        Value::MinKey => 0,
        Value::Null => 2,
        Value::Int32(_) | Value::Int64(_) => 3,
        Value::Text(_) => 4,
        Value::Doc(_) => 5,
        Value::Array(_) => 6,
        Value::Binary { .. } => 7,
        Value::ObjectId(_) => 8,
        Value::Bool(_) => 9,
        Value::Date(_) => 10,
        Value::Timestamp(_) => 11,
        Value::MaxKey => 12,
    }
}
