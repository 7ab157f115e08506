//! Making the indexes of a collection, and dropping them.

ghost use Rattle.std.specs.Prelude.{◌≡◌, ◌++◌, ◌||◌, map, length, IfOk};
ghost use Rattle.std.specs.List.{list_any};
ghost use Rattle.std.specs.Str.{bytes_eq};
ghost use Rattle.dv_refusal.specs.Refusals.{UnlessWanting};
ghost use Rattle.dv_keyed.specs.Choice.{same_path as is_same_path};
ghost use Rattle.dv_keyed.specs.Index.{id_form};
ghost use Rattle.dv_keyed.specs.Inner.Index.{form_of};
ghost use Rattle.dv_keyed.specs.Inner.View.{form_of_new};
ghost use Rattle.dv_catalog.specs.IndexMaking as making;
ghost use Rattle.dv_catalog.specs.Inner.ComingParts.{joined};
ghost use Rattle.dv_catalog.specs.Inner.IndexParts.{collection_so};
ghost use Rattle.dv_catalog.specs.Inner.Parts.{Leaves};

use crate::pending_indexes::{PendingIndexes, text_of};
use dv_candidates::Path;
use dv_command::Refusal;
use dv_index::{Index, IndexedCollection, NewIndex, same_path};
use std::alloc::Global;

/// How many indexes a collection has at most, including that on `_id`.
const INDEX_LIMIT: usize = 64;

/// How many indexes a collection had, and how many it has.
#[derive(Clone, Copy, Debug)]
pub struct IndexCounts {
    pub before: usize,
    pub after: usize,
}

/// Makes the indexes of these entries for a collection, except those that exist. Refused with `ConflictingUpdateOperators` if an
/// index has the name or the path of an entry, but isn't the same index, then with `LimitReached` if there would be more than 64,
/// then with `DuplicateKey` if a key of a unique one is in two documents, and with `WantOfMemory`; then none is made.
pub(crate) fn create_each(
    alloc: Global,
    collection: &mut IndexedCollection,
    entries: Vec<NewIndex>,
) -> Result<IndexCounts, Refusal>
    ensures made { Leaves (collection_so collection.old (making.with_all (map form_of_new entries.items) collection.old)) collection.old result collection.new }
    ensures counts { IfOk result (λ counts. counts ≡ record { before = length collection.old.indexes; after = length collection.new.indexes }) }
{
    let before = collection.indexes().len();
    let fresh = fresh_among(alloc, collection.indexes(), entries)?;
    let more = fresh.len();
    if before > INDEX_LIMIT || more > INDEX_LIMIT - before {
        return Err(Refusal::LimitReached);
    }
    collection.create_indexes(fresh)?;
    Ok(IndexCounts {
        before,
        after: before + more,
    })
}

/// The entries whose indexes don't exist; the index of an earlier entry counts as existing. Refused with
/// `ConflictingUpdateOperators` at the first entry whose name or path another index has, and with `WantOfMemory`. Takes as long as
/// sorting the entries.
fn fresh_among(
    alloc: Global,
    there: &[Index],
    entries: Vec<NewIndex>,
) -> Result<Vec<NewIndex>, Refusal>
    ensures { UnlessWanting (λ fresh. map form_of there.now ++ map form_of_new fresh.items)
        (making.with_entries (map form_of_new entries.items) (map form_of there.now)) result }
{
    let mut coming = PendingIndexes::new(alloc);
    'entries: for entry in entries {
        if is_made(&entry, there, &coming) {
            continue;
        }
        let path = text_of(alloc, &entry.path)?;
        if is_half_made(&entry, &path, there, &coming) {
            return Err(Refusal::ConflictingUpdateOperators);
        }
        coming.add(entry, path)?;
    }
    Ok(coming.into_inner())
}

/// Whether nothing is to be made for an entry: it is on `_id`, or its index exists or is pending.
fn is_made(entry: &NewIndex, there: &[Index], coming: &PendingIndexes) -> bool
    ensures { result ≡ making.is_made (form_of_new entry.now) (map form_of there.now ++ coming.now) }
{
    if is_id(&entry.path) {
        return true;
    }
    if is_there(entry, there) {
        return true;
    }
    coming.has(entry)
}

/// Whether the index of an entry is there.
fn is_there(entry: &NewIndex, there: &[Index]) -> bool
    ensures { result ≡ list_any (λ x. making.is_same (form_of_new entry.now) (form_of x)) there.now }
{
    there.iter().any(|index| is_same(entry, index.name(), index.path(), index.is_unique()))
}

/// Whether an index that exists or is pending has the name or the path of an entry.
fn is_half_made(entry: &NewIndex, path: &str, there: &[Index], coming: &PendingIndexes) -> bool
    requires { path.now ≡ joined (form_of_new entry.now).path }
    ensures { result ≡ list_any (making.is_alike (form_of_new entry.now)) (map form_of there.now ++ coming.now) }
{
    if is_half_there(entry, there) {
        return true;
    }
    coming.has_half(entry, path)
}

/// Whether an index that exists has the name or the path of an entry.
fn is_half_there(entry: &NewIndex, there: &[Index]) -> bool
    ensures { result ≡ list_any (λ x. making.is_alike (form_of_new entry.now) (form_of x)) there.now }
{
    there
        .iter()
        .any(|index| is_alike(entry, index.name(), index.path()))
}

/// Whether an entry's index has this name and this path, and is unique exactly if `unique` is true.
pub(crate) fn is_same(entry: &NewIndex, name: &str, path: &Path, unique: bool) -> bool
    ensures { result ≡ making.is_same (form_of_new entry.now) (record { name = name.now; path = path.now; unique = unique }) }
{
    entry.name.as_str() == name
        && same_path(entry.path.components(), path.components())
        && entry.unique == unique
}

/// Whether an entry has this name or this path.
pub(crate) fn is_alike(entry: &NewIndex, name: &str, path: &Path) -> bool
    ensures { result ≡ (bytes_eq entry.now.name name.now || is_same_path entry.now.path path.now) }
{
    entry.name.as_str() == name || same_path(entry.path.components(), path.components())
}

/// Whether the path is `_id`.
pub(crate) fn is_id(path: &Path) -> bool
    ensures { result ≡ is_same_path path.now id_form.path }
{
    match path.components() {
        [only] => only.as_str() == "_id",
        _ => false,
    }
}

/// Drops the index of a name, or with `*` all except that on `_id`, and returns how many there were. Refused with `BadValue` for
/// that on `_id`, and with `IndexNotFound` if there is none of the name; then nothing is changed.
pub(crate) fn drop_named(collection: &mut IndexedCollection, name: &str) -> Result<usize, Refusal>
    ensures made { Leaves (collection_so collection.old (making.without_named name.now collection.old.indexes)) collection.old result collection.new }
    ensures count { IfOk result (λ count. count ≡ length collection.old.indexes) }
{
    let count = collection.indexes().len();
    if name == "*" {
        collection.drop_indexes();
        return Ok(count);
    }
    if name == "_id_" {
        return Err(Refusal::BadValue);
    }
    if !collection.drop_index(name) {
        return Err(Refusal::IndexNotFound);
    }
    Ok(count)
}
