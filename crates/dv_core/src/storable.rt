//! Documents as they are stored.

ghost use Rattle.std.specs.Prelude.{◌≡◌, ◌∷◌, Some, IfOk, codes};
ghost use Rattle.dv_value.specs.Names.{value_under, without};
ghost use Rattle.dv_value.specs.View.{tree};
ghost use Rattle.dv_coll.specs.Collection.{HasId};
ghost use Rattle.dv_core.specs.Storable as stored;
ghost use Rattle.dv_refusal.specs.Refusals.{Returns, UnlessWanting};

use dv_command::Refusal;
use dv_command::replies::add;
use dv_path::has_bad_name;
use dv_value::{Document, NoMemory, Value, fits};
use std::alloc::Global;

/// The name of the field that a stored document begins with.
const ID: &str = "_id";

/// A copy of the document as it is stored, with `_id` as its first field. Refused with `BadValue` if there is no `_id` or it is an
/// array, if a name at the top level begins with a dollar sign, or if a name at any level has a dot; then with `TooLarge` if the
/// document is over the limits; and with `WantOfMemory`.
pub(crate) fn storable(alloc: Global, document: &Document) -> Result<Document, Refusal>
    ensures stored { UnlessWanting (λ d. d) (stored.storable document.now) result }
    ensures identified { IfOk result HasId }
{
    if has_bad_name(document) {
        return Err(Refusal::BadValue);
    }
    let id = id_of(document)?;
    // A document has the same size and levels in any order of its fields. So one that is refused isn't copied.
    if !fits(document) {
        return Err(Refusal::TooLarge);
    }
    Ok(with_id_first(alloc, document, id)?)
}

/// The value under `_id`. Refused with `BadValue` if there is none, or if it is an array.
fn id_of(document: &Document) -> Result<&Value, Refusal>
    ensures { Returns (λ id. tree id.now) (stored.id_in (value_under (codes "_id") document.now)) result }
{
    match document.get(ID) {
        None | Some(Value::Array(_)) => Err(Refusal::BadValue),
        Some(id) => Ok(id),
    }
}

/// A copy of the document with its `_id`, which is passed in, as the first field.
fn with_id_first(alloc: Global, document: &Document, id: &Value) -> Result<Document, NoMemory>
    requires { value_under (codes "_id") document.now ≡ Some (tree id.now) }
    ensures { IfOk result (λ copy. copy ≡ (codes "_id", tree id.now) ∷ without (codes "_id") document.now) }
{
    match document.entry(0) {
        Some((name, _)) if name == ID => document.try_clone(),
        _ => with_id_moved(alloc, document, id),
    }
}

/// As `with_id_first`, wherever `_id` is.
fn with_id_moved(alloc: Global, document: &Document, id: &Value) -> Result<Document, NoMemory>
    requires { value_under (codes "_id") document.now ≡ Some (tree id.now) }
    ensures { IfOk result (λ copy. copy ≡ (codes "_id", tree id.now) ∷ without (codes "_id") document.now) }
{
    let mut copy = Document::new(alloc);
    add(&mut copy, ID, id.try_clone()?)?;
    'others: for (name, value) in document.iter() {
        if name != ID {
            add(&mut copy, name, value.try_clone()?)?;
        }
    }
    Ok(copy)
}
