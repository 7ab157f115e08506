//! How indexes over documents are made.

ghost use Rattle.std.specs.Prelude.{◌≡◌, ◌||◌, ◌&&◌, false, true, not, map, IfOk, IsErrOf, OnOk};
ghost use Rattle.std.specs.List.{AllByRecursion};
ghost use Rattle.dv_coll.specs.Collection.{HasId, found, id_key};
ghost use Rattle.std.specs.Ordering.{is_eq};
ghost use Rattle.dv_order.specs.Key.{KeyTree, key_order};
ghost use Rattle.dv_path.specs.LeafKeys.{is_leaf_key};
ghost use Rattle.dv_keyed.specs.Inner.Index.{form_of};
ghost use Rattle.dv_keyed.specs.Inner.View.{form_of_new};
ghost use Rattle.dv_keyed.specs.Inner.Pairs.{has_pair, is_under_another};
ghost use Rattle.dv_index.specs.Inner.Search.{IsIndexOf, is_key_under};
ghost use Rattle.dv_index.specs.Unique.{are_apart, are_broken, is_broken};

use dv_candidates::Path;
use dv_coll::{Collection, InsertFault, key_of_id};
use dv_keyed::{Index, MultiIndex, NewIndex, keys_of};
use dv_value::Document;
use std::alloc::Global;

/// Indexes over all documents, in the order in which they are wanted. Refused with `Duplicate` if one is unique and two documents
/// share a key under its path, and with `NoMemory` when memory runs out.
pub(crate) fn indexes_over(
    alloc: Global,
    wanted: Vec<NewIndex>,
    documents: &Collection,
) -> Result<Vec<Index>, InsertFault>
    ensures forms { IfOk result (λ made. map form_of made.items ≡ map form_of_new wanted.items) }
    ensures indexes { IfOk result (λ made. AllByRecursion (λ x. IsIndexOf x documents.now) made.items) }
    ensures sound { OnOk result (are_broken (map form_of_new wanted.items) documents.now ≡ false) }
    ensures duplicate { IsErrOf result InsertFault.Duplicate → are_broken (map form_of_new wanted.items) documents.now ≡ true }
{
    let mut made = Vec::with_capacity(alloc, wanted.len())?;
    'wanted: for index in wanted {
        made.push(index_over(alloc, index, documents)?)?;
    }
    Ok(made)
}

/// An index over all documents. Refused as `indexes_over` is.
fn index_over(alloc: Global, wanted: NewIndex, documents: &Collection) -> Result<Index, InsertFault>
    ensures form { IfOk result (λ index. form_of index ≡ form_of_new wanted) }
    ensures index { IfOk result (λ index. IsIndexOf index documents.now) }
    ensures sound { OnOk result (is_broken (form_of_new wanted) documents.now ≡ false) }
    ensures duplicate { IsErrOf result InsertFault.Duplicate → is_broken (form_of_new wanted) documents.now ≡ true }
{
    let NewIndex { name, path, unique } = wanted;
    let pairs = pairs_of(alloc, &path, unique, documents)?;
    Ok(Index::of(name, path, unique, pairs))
}

/// The pairs of the keys of all documents under a path, each with its document's `_id`. Refused with `Duplicate` if they are those
/// of a unique index and two documents share a key, and with `NoMemory` when memory runs out.
fn pairs_of(
    alloc: Global,
    path: &Path,
    unique: bool,
    documents: &Collection,
) -> Result<MultiIndex, InsertFault>
    ensures pairs { IfOk result (λ pairs. (k id : KeyTree) → has_pair k id pairs ≡ is_key_under k path.now (found id documents.now)) }
    ensures sound { OnOk result ((unique && not (are_apart path.now documents.now)) ≡ false) }
    ensures duplicate { IsErrOf result InsertFault.Duplicate → (unique && not (are_apart path.now documents.now)) ≡ true }
{
    let mut pairs = MultiIndex::new(alloc);
    for document in documents.iter() {
        add_keys(alloc, &mut pairs, path, unique, document)?;
    }
    Ok(pairs.packed()?)
}

/// Adds the pairs of the keys of a document that has none yet. Refused with `Duplicate` if the pairs are those of a unique index
/// and one of the keys is under another `_id`, and with `NoMemory` when memory runs out; then the pairs are unchanged.
fn add_keys(
    alloc: Global,
    pairs: &mut MultiIndex,
    path: &Path,
    unique: bool,
    document: &Document,
) -> Result<(), InsertFault>
    requires identified { HasId document.now }
    requires first { (k : KeyTree) → has_pair k (id_key document.now) pairs.old ≡ false }
    ensures ok { OnOk result ((k i : KeyTree) → has_pair k i pairs.new ≡ (has_pair k i pairs.old || (is_eq (key_order i (id_key document.now)) && is_leaf_key k path.now document.now))) }
    ensures free { OnOk result ((unique && is_under_another (λ k. is_leaf_key k path.now document.now) (id_key document.now) pairs.old) ≡ false) }
    ensures duplicate { IsErrOf result InsertFault.Duplicate → (unique && is_under_another (λ k. is_leaf_key k path.now document.now) (id_key document.now) pairs.old) ≡ true }
{
    let id = key_of_id(document)?;
    let keys = keys_of(alloc, path, document)?;
    if unique && pairs.clash(&keys, &id) {
        return Err(InsertFault::Duplicate);
    }
    pairs.add_first(&keys, &id)?;
    Ok(())
}
