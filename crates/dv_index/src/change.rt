//! Changes of one document of a collection, and of the indexes with it.

ghost use Rattle.std.specs.Prelude.{◌≡◌, IfOk, IsErrOf, OnErr, OnOk, map};
ghost use Rattle.std.specs.List.{AllByRecursion};
ghost use Rattle.std.specs.Option.{option_map};
ghost use Rattle.dv_coll.specs.Collection.{found};
ghost use Rattle.dv_order.specs.Key.{KeyTree};
ghost use Rattle.dv_index.specs.Inner.Change.{ChangesOne, HasIdFirst, IsChangeOf, IsFresh, IsTaken, changed_id, document_after, documents_after};
ghost use Rattle.dv_keyed.specs.Inner.Index.{form_of};
ghost use Rattle.dv_keyed.specs.Inner.Keys.{has_key};
ghost use Rattle.dv_index.specs.Inner.Search.{IsIndexOf, is_key_under};

use dv_candidates::Path;
use dv_coll::{Collection, InsertFault, key_of_id, laws};
use dv_keyed::{Index, Keys, Moved, keys_of, keys_without};
use dv_order::Key;
use dv_value::{Document, NoMemory};
use std::alloc::Global;

/// A change of one document.
#[derive(Debug, Drop)]
pub(crate) enum Change<'k> {
    /// It is inserted.
    Insert(Document),
    /// It replaces the one with an equal `_id`.
    Replace(Document),
    /// The one under the key of an `_id` is removed.
    Remove(&'k Key),
}

/// Changes one document, and with it the indexes: first the keys that it gains are added to one index after the other, then the
/// document is changed, and then the keys that it has lost are removed from the indexes. Refused if the change of the document is
/// refused, and when memory runs out; then the added keys are removed again, and nothing is changed.
pub(crate) fn carry_out(
    alloc: Global,
    indexes: &mut [Index],
    documents: &mut Collection,
    change: Change<'_>,
) -> Result<(), InsertFault>
    requires possible { IsChangeOf change documents.old }
    requires indexed { AllByRecursion (λ x. IsIndexOf x documents.old) indexes.old }
    ensures documents { OnOk result (documents.new ≡ documents_after change.entry documents.old) }
    ensures found { OnOk result (ChangesOne change.entry documents.old documents.new) }
    ensures fresh { OnOk result (IsFresh change.entry documents.old) }
    ensures indexed { OnOk result (AllByRecursion (λ x. IsIndexOf x documents.new) indexes.new) }
    ensures err { OnErr result (documents.new ≡ documents.old) }
    ensures still_indexed { OnErr result (AllByRecursion (λ x. IsIndexOf x documents.old) indexes.new) }
    ensures forms { map form_of indexes.new ≡ map form_of indexes.old }
    ensures taken { IsErrOf result InsertFault.Duplicate → IsTaken change.entry documents.old }
{
    let Some((index, others)) = indexes.split_first_mut() else {
        return change_document(documents, change);
    };
    let moved = keys_moved(alloc, index.path(), documents, &change)?;
    let gained = keys_without(alloc, &moved.new, &moved.old)?;
    let lost = keys_without(alloc, &moved.old, &moved.new)?;
    index.add(gained.as_slice(), &moved.id, &moved.old)?;
    match carry_out(alloc, others, documents, change) {
        Ok(()) => {
            index.take_out(lost.as_slice(), &moved.id, &moved.new);
            Ok(())
        }
        Err(fault) => {
            index.take_out(gained.as_slice(), &moved.id, &moved.old);
            Err(fault)
        }
    }
}

/// Changes the document alone. Refused as an insert is.
fn change_document(documents: &mut Collection, change: Change<'_>) -> Result<(), InsertFault>
    requires { IsChangeOf change documents.old }
    ensures documents { OnOk result (documents.new ≡ documents_after change.entry documents.old) }
    ensures found { OnOk result (ChangesOne change.entry documents.old documents.new) }
    ensures fresh { OnOk result (IsFresh change.entry documents.old) }
    ensures err { OnErr result (documents.new ≡ documents.old) }
    ensures taken { IsErrOf result InsertFault.Duplicate → IsTaken change.entry documents.old }
{
    laws::inserted_document_is_found();
    laws::removed_document_is_not_found();
    laws::replaced_document_is_found();
    match change {
        Change::Insert(document) => documents.insert(document)?,
        Change::Replace(document) => {
            let _ = documents.replace(document);
        }
        Change::Remove(key) => {
            let _ = documents.remove(key);
        }
    }
    Ok(())
}

/// The keys of the document before and after the change. Fails when memory runs out.
fn keys_moved(
    alloc: Global,
    path: &Path,
    documents: &Collection,
    change: &Change<'_>,
) -> Result<Moved, NoMemory>
    requires { IsChangeOf change.now documents.now }
    ensures id { IfOk result (λ moved. moved.id ≡ changed_id change.now) }
    ensures old { IfOk result (λ moved. (k : KeyTree) → has_key k moved.old ≡ is_key_under k path.now (found (changed_id change.now) documents.now)) }
    ensures new { IfOk result (λ moved. (k : KeyTree) → has_key k moved.new ≡ is_key_under k path.now (document_after change.now)) }
{
    let id = id_of(change)?;
    let old = keys_under(alloc, path, documents.get(&id))?;
    let new = keys_under(alloc, path, after(change))?;
    Ok(Moved { id, old, new })
}

/// The keys of a document, if there is one. Fails when memory runs out.
fn keys_under(alloc: Global, path: &Path, document: Option<&Document>) -> Result<Keys, NoMemory>
    ensures { IfOk result (λ keys. (k : KeyTree) → has_key k keys ≡ is_key_under k path.now (option_map (λ d. d.now) document.entry)) }
{
    match document {
        Some(document) => keys_of(alloc, path, document),
        None => Ok(Keys::none(alloc)),
    }
}

/// The document that is there afterwards.
fn after<'c>(change: &'c Change<'_>) -> Option<&'c Document>
    ensures { option_map (λ d. d.now) result ≡ document_after change.now }
{
    match change {
        Change::Insert(document) | Change::Replace(document) => Some(document),
        Change::Remove(_) => None,
    }
}

/// The key of the `_id` of the document that is changed. Fails when memory runs out.
fn id_of(change: &Change<'_>) -> Result<Key, NoMemory>
    requires { HasIdFirst change.now }
    ensures { IfOk result (λ id. id ≡ changed_id change.now) }
{
    match change {
        Change::Insert(document) | Change::Replace(document) => key_of_id(document),
        Change::Remove(key) => key.try_clone(),
    }
}
