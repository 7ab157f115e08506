//! The first rows of a sort, by the order of an index.

ghost use Rattle.std.specs.Prelude.{◌≡◌, ◌∷◌, [], take, IfOk, IfSome, List};
ghost use Rattle.std.specs.List.{AllByRecursion};
ghost use Rattle.dv_coll.specs.Collection.{HasId, IsAscending};
ghost use Rattle.dv_path.specs.Parts.{part};
ghost use Rattle.dv_path.specs.SortSpec.{Part};
ghost use Rattle.dv_pipe.specs.Sources.{rows_referred};
ghost use Rattle.dv_sort.specs.Sorting.{stable};
ghost use Rattle.dv_catalog.specs.Scan.{matching};
ghost use Rattle.dv_catalog.specs.Inner.ScanParts.{AreFirstAhead};

use crate::scan::sorted;
use dv_coll::laws;
use dv_index::{Ahead, IndexedCollection, Ties, is_ahead};
use dv_match::Filter;
use dv_path::{SortPart, SortSpec};
use dv_value::{Document, NoMemory};
use std::alloc::Global;

/// How many times documents are read at most; the last time, more are read than there can be.
const TRIES: usize = 22;
/// Each time, at least this many times as many documents are read as the time before.
const LEAST_GROWTH: usize = 8;

/// The first `most` documents that match the filter, in the order of the sort, if an index on the sort's first path finds them. The
/// first documents of the index are read, and those that match are sorted. They are the result if there are enough of them, and the
/// last one is before all documents that weren't read. Otherwise more are read: as many as suffice if they match at the same rate,
/// and at least 8 times as many. `None` if the index doesn't serve, or not for more documents. So if few documents match, this
/// costs at most a constant times a scan of all documents. Fails when memory runs out.
pub(crate) fn first_by_index(
    alloc: Global,
    collection: &IndexedCollection,
    filter: &Filter,
    sort: &SortSpec,
    most: usize,
) -> Result<Option<Vec<Document>>, NoMemory>
    ensures { IfOk result (λ found. IfSome found (λ first. first.items ≡ take most (stable sort.now (matching filter.now collection.now.documents)))) }
{
    let Some(by) = sort.parts().first() else {
        return Ok(None);
    };
    laws::documents_stand_where_they_are_found();
    laws::what_is_found_has_the_key();
    // The documents are in order.
    collection.law_ascending();
    let ties = ties_of(sort);
    let mut least = most;
    'tries: for _ in 0..TRIES {
        let Some(ahead) = collection.find_ahead(filter, by, ties, least)? else {
            return Ok(None);
        };
        if let Some(first) = first_of(alloc, &ahead, sort, by, most)? {
            return Ok(Some(first));
        }
        let times = most / ahead.documents.len().saturating_add(1);
        least = least.saturating_mul(times.max(LEAST_GROWTH));
    }
    Ok(None)
}

/// What orders documents that the first path of a sort doesn't distinguish: further paths, or else their `_id`s.
fn ties_of(sort: &SortSpec) -> Ties
    ensures { result ≡ Ties.ById → (by : Part) (parts : List Part) → sort.now ≡ by ∷ parts → parts ≡ [] }
{
    match sort.parts() {
        [_] => Ties::ById,
        _ => Ties::Otherwise,
    }
}

/// The first `most` of the documents in the order of the sort; `None` if there are fewer, or the last one isn't before the bar.
/// They are also the first ones of any rows in the order of their `_id`s that have the same rows before the bar. Fails when memory
/// runs out.
fn first_of(
    alloc: Global,
    ahead: &Ahead<'_>,
    sort: &SortSpec,
    by: &SortPart,
    most: usize,
) -> Result<Option<Vec<Document>>, NoMemory>
    requires parts { (parts : List Part) × (sort.now ≡ part by.now ∷ parts) × IfSome ahead.now.bar.until (λ until. parts ≡ []) }
    requires ascending { IsAscending (rows_referred ahead.now.documents.items) }
    requires identified { AllByRecursion HasId (rows_referred ahead.now.documents.items) }
    ensures { IfOk result (λ found. IfSome found (λ first.
        AreFirstAhead (part by.now) ahead.now.bar (rows_referred ahead.now.documents.items) sort.now most first.items)) }
{
    let first = sorted(alloc, &ahead.documents, sort, Some(most))?;
    let Some(last) = first.last() else {
        return Ok(None);
    };
    if first.len() == most && is_ahead(last, by, &ahead.bar)? {
        Ok(Some(first))
    } else {
        Ok(None)
    }
}
