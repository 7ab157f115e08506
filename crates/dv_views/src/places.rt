//! Changes of a collection's documents, each at its own position.

ghost use Rattle.std.specs.Prelude.{◌≡◌, ◌∷◌, [], None, Some, IfOk};
ghost use Rattle.std.specs.Option.{option_map};
ghost use Rattle.dv_change.specs.declared.position.Part.TheVariants.{Up};
ghost use Rattle.dv_coll.specs.Collection.{HasId};
ghost use Rattle.dv_views.specs.Placed.{own_position};

use dv_change::{Part, Pos, Taken};
use dv_coll::key_of_id;
use dv_order::Key;
use dv_value::{Document, NoMemory};
use std::alloc::Global;

/// The change that puts the document, which begins with its `_id`, at its own position. `before` is the document that was there, if
/// any. Their memory is shared. Fails with `NoMemory` when memory runs out.
pub fn document_put(
    alloc: Global,
    before: Option<&Document>,
    document: &Document,
) -> Result<Taken, NoMemory>
    requires { HasId document.now }
    ensures { IfOk result (λ taken. taken ≡ record { pos = own_position document.now; old = option_map (λ d. d.now) before.entry; new = Some document.now }) }
{
    Ok(Taken {
        pos: position_of(alloc, document)?,
        old: shared(before)?,
        new: Some(document.try_clone()?),
    })
}

/// The change that removes the document under the key. `before` is the document that was there, if any. Fails with `NoMemory` when
/// memory runs out.
pub fn document_gone(alloc: Global, key: Key, before: Option<&Document>) -> Result<Taken, NoMemory>
    ensures { IfOk result (λ taken. taken ≡ record { pos = Up key ∷ []; old = option_map (λ d. d.now) before.entry; new = None }) }
{
    Ok(Taken {
        pos: place_of(alloc, key)?,
        old: shared(before)?,
        new: None,
    })
}

/// A copy of the document, if there is one. It shares its memory.
fn shared(document: Option<&Document>) -> Result<Option<Document>, NoMemory>
    ensures { IfOk result (λ copy. copy ≡ option_map (λ d. d.now) document.entry) }
{
    match document {
        Some(document) => Ok(Some(document.try_clone()?)),
        None => Ok(None),
    }
}

/// The own position of the document, which begins with its `_id`.
pub(crate) fn position_of(alloc: Global, document: &Document) -> Result<Pos, NoMemory>
    requires { HasId document.now }
    ensures { IfOk result (λ pos. pos ≡ own_position document.now) }
{
    place_of(alloc, key_of_id(document)?)
}

/// The position under the key.
pub(crate) fn place_of(alloc: Global, key: Key) -> Result<Pos, NoMemory>
    ensures { IfOk result (λ pos. pos ≡ Up key ∷ []) }
{
    Pos::of_part(alloc, Part::Up(key))
}
