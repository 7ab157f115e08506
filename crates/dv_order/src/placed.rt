//! The value at a place of a document.

ghost use Rattle.std.specs.Prelude.{◌≡◌, ◌<◌, Some, length, slice_get};
ghost use Rattle.dv_value.specs.Tree.{Field};
ghost use Rattle.dv_value.specs.View.{tree};

use dv_value::{Document, Value};

/// The value of the field at the place.
/// A function of its own, so that the name takes no stack where nested values are compared: there may be thousands of levels.
#[inline(never)]
pub(crate) fn value_at(document: &Document, place: usize) -> &Value
    requires { place < length document.now }
    ensures { (f : Field) → slice_get document.now place ≡ Some f → tree result.now ≡ f.1 }
{
    let (_name, value) = document.field(place);
    value
}
