//! Rows under the names of another document.

ghost use Rattle.std.specs.Prelude.{◌≡◌, ◌<◌, [], ◌∷◌, ◌++◌, length, IfOk, IsTrue};
ghost use Rattle.dv_value.specs.Names.{AreNamed, with_values};
ghost use Rattle.dv_value.specs.View.{tree};
ghost use Rattle.dv_gather.specs.Inner.Alike.{BeginsAs, HasNamesOf, values_of};

use dv_value::{Document, NoMemory, Value};
use std::alloc::Global;

/// Whether the document has the names of the row, in its order, and after them this one.
pub(crate) fn has_names_of(document: &Document, row: &Document, name: &str) -> bool
    ensures names { IsTrue result → HasNamesOf document.now row.now name.now }
    ensures named { AreNamed document.now }
{
    let place = row.len();
    if document.len() <= place {
        return false;
    }
    let (next, _) = document.field(place);
    if next != name {
        return false;
    }
    begins_as(document, row)
}

/// Whether the document begins with the names of the row.
fn begins_as(document: &Document, row: &Document) -> bool
    ensures { IsTrue result → BeginsAs document.now row.now }
{
    let mut fields = document.iter();
    'names: for (name, _) in row.iter() {
        match fields.next() {
            Some((there, _)) if there == name => {}
            _ => return false,
        }
    }
    true
}

/// The row with the value after its own, under the names of the document. Fails when memory runs out.
pub(crate) fn row_like(
    alloc: Global,
    document: &Document,
    row: &Document,
    value: Value,
) -> Result<Document, NoMemory>
    requires { length row.now < length document.now }
    ensures { IfOk result (λ joined. joined ≡ with_values document.now (values_of row.now ++ tree value ∷ [])) }
{
    let mut values = Vec::with_capacity(alloc, row.len().saturating_add(1))?;
    'values: for (_, own) in row.iter() {
        values.push(own.try_clone()?)?;
    }
    values.push(value)?;
    Document::like(document, values)
}
