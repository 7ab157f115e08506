//! Whether unique indexes allow documents among others: a single one, or several that replace others one after the other.

ghost use Rattle.std.specs.Prelude.{◌≡◌, ◌∷◌, ◌&&◌, [], true, map, IfOk};
ghost use Rattle.std.specs.List.{AllByRecursion};
ghost use Rattle.dv_coll.specs.Collection.{AreStanding, HasId, id_key};
ghost use Rattle.dv_order.specs.Key.{KeyTree};
ghost use Rattle.dv_path.specs.LeafKeys.{is_leaf_key};
ghost use Rattle.dv_index.specs.Inner.Change.{UniqueAreIndexesOf};
ghost use Rattle.dv_keyed.specs.Inner.Index.{form_of};
ghost use Rattle.dv_keyed.specs.Inner.Keys.{has_key};
ghost use Rattle.dv_index.specs.Inner.Search.{IsIndexOf};
ghost use Rattle.dv_index.specs.Inner.View.{afters, befores};
ghost use Rattle.dv_index.specs.Unique as defined;

use dv_candidates::Path;
use dv_coll::{Collection, key_of_id, laws};
use dv_keyed::{Index, Moved, Trial, keys_of};
use dv_value::{Document, NoMemory};
use std::alloc::Global;

/// A stored document, and the one that replaces it, under an equal `_id`.
#[derive(Clone, Copy, Debug)]
pub struct Replacing<'d> {
    pub before: &'d Document,
    pub after: &'d Document,
}

/// Whether the document can't be among the documents, since another `_id` than its own has one of its keys in a unique index. Fails
/// when memory runs out.
pub(crate) fn clashes(
    alloc: Global,
    indexes: &[Index],
    document: &Document,
    documents: &Collection,
) -> Result<bool, NoMemory>
    requires identified { HasId document.now }
    requires indexed { UniqueAreIndexesOf indexes.now documents.now }
    ensures { IfOk result (λ clash. clash ≡ defined.clashes (map form_of indexes.now) document.now documents.now) }
{
    'indexes: for index in indexes {
        if clashes_in(alloc, index, document, documents)? {
            return Ok(true);
        }
    }
    Ok(false)
}

/// The same for one index.
fn clashes_in(
    alloc: Global,
    index: &Index,
    document: &Document,
    documents: &Collection,
) -> Result<bool, NoMemory>
    requires identified { HasId document.now }
    requires indexed { index.now.unique ≡ true → IsIndexOf index.now documents.now }
    ensures { IfOk result (λ clash. clash ≡ (index.now.unique && defined.is_key_taken index.now.path document.now documents.now)) }
{
    if !index.is_unique() {
        return Ok(false);
    }
    // The documents ascend by their `_id`s.
    documents.law_ascending();
    let id = key_of_id(document)?;
    let keys = keys_of(alloc, index.path(), document)?;
    Ok(index.pairs().clash(&keys, &id))
}

/// Whether one of the new documents can't be among the documents, each put in place of the one that it replaces, one after the
/// other. Fails when memory runs out for the keys that are added and removed.
pub(crate) fn replacing_clashes(
    alloc: Global,
    indexes: &[Index],
    each: &[Replacing<'_>],
    documents: &Collection,
) -> Result<bool, NoMemory>
    requires standing { AreStanding documents.now (befores each.now) }
    requires same_ids { map id_key (afters each.now) ≡ map id_key (befores each.now) }
    requires identified { AllByRecursion HasId (afters each.now) }
    requires indexed { UniqueAreIndexesOf indexes.now documents.now }
    ensures { IfOk result (λ clash. clash ≡ defined.replacing_clashes (map form_of indexes.now) (afters each.now) documents.now) }
{
    'indexes: for index in indexes {
        if replacing_clashes_in(alloc, index, each, documents)? {
            return Ok(true);
        }
    }
    Ok(false)
}

/// The same for one index.
fn replacing_clashes_in(
    alloc: Global,
    index: &Index,
    each: &[Replacing<'_>],
    documents: &Collection,
) -> Result<bool, NoMemory>
    requires standing { AreStanding documents.now (befores each.now) }
    requires same_ids { map id_key (afters each.now) ≡ map id_key (befores each.now) }
    requires identified { AllByRecursion HasId (afters each.now) }
    requires indexed { index.now.unique ≡ true → IsIndexOf index.now documents.now }
    ensures { IfOk result (λ clash. clash ≡ defined.replacing_clashes (form_of index.now ∷ []) (afters each.now) documents.now) }
{
    if !index.is_unique() {
        return Ok(false);
    }
    clash_in_turn(alloc, index, each, documents)
}

/// The same for a unique index.
fn clash_in_turn(
    alloc: Global,
    index: &Index,
    each: &[Replacing<'_>],
    documents: &Collection,
) -> Result<bool, NoMemory>
    requires standing { AreStanding documents.now (befores each.now) }
    requires same_ids { map id_key (afters each.now) ≡ map id_key (befores each.now) }
    requires identified { AllByRecursion HasId (afters each.now) }
    requires unique { index.now.unique ≡ true }
    requires indexed { IsIndexOf index.now documents.now }
    ensures { IfOk result (λ clash. clash ≡ defined.replacing_clashes (form_of index.now ∷ []) (afters each.now) documents.now) }
{
    laws::replaced_documents_ascend();
    laws::replaced_documents_begin_with_ids();
    laws::replaced_document_is_found();
    laws::documents_stand_where_they_are_found();
    // The documents ascend by their `_id`s.
    documents.law_ascending();
    let mut trial = Trial::new(alloc);
    'each: for replacing in each {
        let moved = keys_moved(alloc, index.path(), replacing)?;
        if trial.clashes(index, &moved) {
            return Ok(true);
        }
        trial.exchange(alloc, &moved)?;
    }
    Ok(false)
}

/// The keys under a path of the stored document, and of the one that replaces it. Fails when memory runs out.
fn keys_moved(alloc: Global, path: &Path, replacing: &Replacing<'_>) -> Result<Moved, NoMemory>
    requires { HasId replacing.now.after.now }
    ensures id { IfOk result (λ moved. moved.id ≡ id_key replacing.now.after.now) }
    ensures old { IfOk result (λ moved. (k : KeyTree) → has_key k moved.old ≡ is_leaf_key k path.now replacing.now.before.now) }
    ensures new { IfOk result (λ moved. (k : KeyTree) → has_key k moved.new ≡ is_leaf_key k path.now replacing.now.after.now) }
{
    let id = key_of_id(replacing.after)?;
    let old = keys_of(alloc, path, replacing.before)?;
    let new = keys_of(alloc, path, replacing.after)?;
    Ok(Moved { id, old, new })
}
