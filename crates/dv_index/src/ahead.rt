//! The documents that a path sorts first, found by the index on it.

ghost use Rattle.std.specs.Prelude.{◌≡◌, List as Sequence, filter as kept, IfOk, IfSome, IsTrue};
ghost use Rattle.std.specs.List.{AllByRecursion};
ghost use Rattle.dv_value.specs.Tree.{Field};
ghost use Rattle.dv_match.specs.Match.{matches};
ghost use Rattle.dv_path.specs.Parts.{part};
ghost use Rattle.dv_coll.specs.Collection.{AreStanding, HasId};
ghost use Rattle.dv_index.specs.Inner.Ahead as defined;
ghost use Rattle.dv_index.specs.Inner.Ahead.{HasAllAhead, LeadsSomewhere};
ghost use Rattle.dv_index.specs.Inner.Change.{AreIndexesOf};
ghost use Rattle.dv_index.specs.Inner.Search.{IsIndexOf, documents_referred};

use crate::indexes::Indexes;
use crate::search::documents_of;
use crate::walk::is_range;
use dv_candidates::Path;
use dv_coll::{Collection, key_of_id, laws as collections};
use dv_keyed::{Bar, Index, Plan, ids_ahead, is_null_ahead, laws, same_path};
use dv_match::Filter;
use dv_path::{SortPart, sort_key};
use dv_value::{Document, NoMemory};
use std::alloc::Global;

/// Documents that include all those before a bar.
#[derive(Debug, Drop)]
pub struct Ahead<'c> {
    /// The documents in the order of their `_id`s. Some of them may not be before the bar.
    pub documents: Vec<&'c Document>,
    /// A place in the order in which the path sorts documents.
    pub bar: Bar<'c>,
}

/// Whether the path sorts the document before a bar, in its direction; documents with equal keys ascend by their `_id`s. Fails with
/// `NoMemory` when memory runs out.
pub fn is_ahead(document: &Document, by: &SortPart, bar: &Bar<'_>) -> Result<bool, NoMemory>
    requires { HasId document.now }
    ensures { IfOk result (λ ahead. ahead ≡ defined.is_ahead (part by.now) bar.now document.now) }
{
    let key = sort_key(document, &by.path, by.direction)?;
    let id = key_of_id(document)?;
    Ok(bar.is_behind(by.direction, &key, &id))
}

/// The index in whose order the documents that a path sorts are found: the one on the path, if the plan reads all documents or
/// those in a range of the path. It is never the index on `_id`, which has no pairs.
pub(crate) fn index_in_order<'i>(
    indexes: &'i Indexes,
    plan: &Plan<'_>,
    path: &Path,
) -> Option<&'i Index>
    ensures indexed { IfSome result (λ index. (ds : Sequence (Sequence Field)) → AreIndexesOf indexes.now ds → IsIndexOf index.now ds) }
    ensures path { IfSome result (λ index. index.now.path ≡ path.now) }
{
    if !is_in_order(indexes, plan, path) {
        return None;
    }
    let (_by_id, others) = indexes.as_slice().split_first()?;
    first_on(others, path)
}

/// Whether a plan reads all documents, or those in a range of the path.
fn is_in_order(indexes: &Indexes, plan: &Plan<'_>, path: &Path) -> bool {
    match plan {
        Plan::Scan => true,
        Plan::Index { place, bounds } => match indexes.get(*place) {
            Some(index) => is_range(bounds) && is_on(index, path),
            None => false,
        },
    }
}

fn is_on(index: &Index, path: &Path) -> bool
    ensures { IsTrue result → index.now.path ≡ path.now }
{
    same_path(index.path().components(), path.components())
}

/// The first index that is on the path.
fn first_on<'i>(indexes: &'i [Index], path: &Path) -> Option<&'i Index>
    ensures path { IfSome result (λ index. index.now.path ≡ path.now) }
    ensures indexed { IfSome result (λ index. (ds : Sequence (Sequence Field)) → AllByRecursion (λ x. IsIndexOf x ds) indexes.now → IsIndexOf index.now ds) }
{
    for index in indexes {
        if is_on(index, path) {
            return Some(index);
        }
    }
    None
}

/// Whether the path leads to something in each document that matches the filter and that it sorts before the bar. A document in
/// which it leads nowhere has no key, and is sorted as null. Only a path of several components can lead nowhere, as through an
/// empty array. Fails when memory runs out.
pub(crate) fn leads_somewhere(
    alloc: Global,
    filter: &Filter,
    by: &SortPart,
    bar: &Bar<'_>,
) -> Result<bool, NoMemory>
    ensures { IfOk result (λ leads. IsTrue leads → LeadsSomewhere filter.now (part by.now) bar.now) }
{
    laws::an_only_key_is_in_all_bounds();
    if let [_] = by.path.components() {
        return Ok(true);
    }
    let is_ahead = is_null_ahead(alloc, &by.path, filter, by.direction, bar)?;
    Ok(!is_ahead)
}

/// Documents that include all that match the filter and that the path sorts before the bar, in the order of their `_id`s, by the
/// index on the path. `None` if it finds more than `most`. Fails when memory runs out.
pub(crate) fn candidates_ahead<'c>(
    alloc: Global,
    index: &Index,
    filter: &Filter,
    by: &SortPart,
    bar: &Bar<'_>,
    most: usize,
    collection: &'c Collection,
) -> Result<Option<Vec<&'c Document>>, NoMemory>
    requires indexed { IsIndexOf index.now collection.now }
    requires path { index.now.path ≡ by.now.path }
    requires somewhere { LeadsSomewhere filter.now (part by.now) bar.now }
    ensures all { IfOk result (λ found. IfSome found (λ documents. HasAllAhead (part by.now) bar.now filter.now (kept (matches filter.now) (documents_referred documents.items)) collection.now)) }
    ensures standing { IfOk result (λ found. IfSome found (λ documents. AreStanding collection.now (documents_referred documents.items))) }
{
    laws::an_only_key_is_in_all_bounds();
    collections::documents_stand_where_they_are_found();
    // The documents ascend by their `_id`s.
    collection.law_ascending();
    let ids = ids_ahead(alloc, index, filter, by.direction, bar)?;
    if ids.len() > most {
        return Ok(None);
    }
    Ok(Some(documents_of(alloc, ids, collection)?))
}
