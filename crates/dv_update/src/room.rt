//! Whether a document has room for a value, judged by their sizes.

ghost use Rattle.std.specs.Prelude.{◌≤◌, IsTrue};
ghost use Rattle.dv_value.specs.View.{tree};
ghost use Rattle.dv_update.specs.Inner.Outcome.{HasRoom};

use dv_value::{
    Document, MAX_DOCUMENT_LEN, MAX_LEVELS, Value, fits, size, value_size, value_within,
};

/// Whether the document stays within the limits if the value is added with this many bytes and levels around it.
pub(crate) fn has_room(document: &Document, around: usize, above: u32, value: &Value) -> bool
    requires { above ≤ 100 }
    ensures { IsTrue result → HasRoom document.now around above (tree value.now) }
{
    let (Some(more), Some(before)) = (value_size(value), size(document)) else {
        return false;
    };
    let limit = MAX_DOCUMENT_LEN as usize;
    around <= limit
        && before as usize + (more + around) <= limit
        && value_within(value, MAX_LEVELS - above)
        && fits(document)
}
