//! Values of a given size that stand in for documents, and how many bytes nested documents add.

ghost use Rattle.std.specs.Prelude.{◌≡◌, ◌+◌, ◌-◌, ◌≤◌, ◌*◌, false, [], ◌∷◌, length, IfOk, IfSome};
ghost use Rattle.std.proofs.Math.ListN.{replicate};
ghost use Rattle.dv_value.specs.Names.{has_name, has_zero};
ghost use Rattle.dv_value.specs.Spelling.{payload, spelling};
ghost use Rattle.dv_value.specs.Tree.{binary};
ghost use Rattle.dv_value.specs.View.{tree};
ghost use Rattle.dv_update.specs.Inner.StandIn as defined;

use dv_candidates::Component;
use dv_value::{Bytes, Document, FRAME, NoMemory, Value, laws};
use std::alloc::Global;

/// How many bytes a document adds to two values in it whose names have one letter together.
const AROUND_TWO: usize = 10;

/// A piece of fewer bytes is a binary.
const SMALL: usize = 1_000;

/// How many bytes a document adds to a value in it, besides the name: its length, a type byte, the zero byte after the name, and
/// the closing zero.
const AROUND: usize = 7;

/// A value of this many bytes, which stands in for a document: a small one is a binary of zeros, and a larger one a document that
/// contains a smaller piece twice. Documents in it are in memory once, so it takes hardly any memory. Fails when memory runs out.
#[cycle(piece)]
pub(crate) fn piece(alloc: Global, size: usize) -> Result<Value, NoMemory>
    ensures piece { IfOk result (λ piece. defined.in_one_piece (tree piece) ≡ binary 0 (replicate (size - 5) 0)) }
    ensures long { 5 ≤ size → IfOk result (λ piece. length (payload (tree piece)) ≡ size) }
{
    if size < SMALL {
        return zeros(alloc, size);
    }
    Ok(Value::Doc(doubled(alloc, size)?))
}

/// A binary of zeros that has this many bytes, including its length and subtype. Fails when memory runs out.
fn zeros(alloc: Global, size: usize) -> Result<Value, NoMemory>
    ensures zeros { IfOk result (λ zeros. tree zeros ≡ binary 0 (replicate (size - 5) 0)) }
    ensures long { 5 ≤ size → IfOk result (λ zeros. length (payload (tree zeros)) ≡ size) }
{
    let bytes = Vec::from_elem(alloc, 0u8, size.saturating_sub(FRAME))?;
    Ok(Value::Binary {
        subtype: 0,
        bytes: Bytes::of(bytes),
    })
}

/// A document of this many bytes, which keeps its size. Fails when memory runs out.
#[cycle(piece)]
fn doubled(alloc: Global, size: usize) -> Result<Document, NoMemory>
    requires { 1000 ≤ size }
    ensures { IfOk result (λ document. length (spelling document) ≡ size) }
{
    let inside = size - AROUND_TWO;
    let half = piece(alloc, inside / 2)?;
    if inside % 2 == 0 {
        twice(alloc, half, "a")
    } else {
        twice(alloc, half, "aa")
    }
}

/// A document with the value under an empty name and under `name`. It keeps its size. Fails when memory runs out.
fn twice(alloc: Global, value: Value, name: &str) -> Result<Document, NoMemory>
    requires whole { has_zero name.now ≡ false }
    requires other { has_name name.now (([], tree value) ∷ []) ≡ false }
    ensures { IfOk result (λ document. length (spelling document) ≡ 2 * length (payload (tree value)) + length name.now + 9) }
{
    laws::what_a_field_adds();
    let mut document = alone(alloc, &value)?;
    document.add(name, value)?;
    document.keep_size();
    Ok(document)
}

/// How many bytes are added by documents that are nested one in another under these names, if a `usize` can hold the number.
pub(crate) fn names_size(names: &[Component]) -> Option<usize>
    ensures { IfSome result (λ size. size ≡ defined.names_length names.now) }
{
    let mut size = 0usize;
    'names: for name in names {
        size = with_name(size, name.as_str())?;
    }
    Some(size)
}

fn with_name(size: usize, name: &str) -> Option<usize>
    ensures { IfSome result (λ more. more ≡ size + 7 + length name.now) }
{
    size.checked_add(AROUND)?.checked_add(name.len())
}

/// A document with the value under an empty name. Fails when memory runs out.
fn alone(alloc: Global, value: &Value) -> Result<Document, NoMemory>
    ensures { IfOk result (λ alone. alone ≡ ([], tree value.now) ∷ []) }
{
    let mut alone = Document::new(alloc);
    alone.add("", value.try_clone()?)?;
    Ok(alone)
}
