//! The rows of a find, in its order.

ghost use Rattle.std.specs.Prelude.{◌≡◌, drop, IfOk, IfSome};
ghost use Rattle.dv_command.specs.Inner.View.{sort_seen};
ghost use Rattle.dv_catalog.specs.Inner.SearchedView.{searched};
ghost use Rattle.dv_catalog.specs.Scan as scans;
ghost use Rattle.dv_catalog.specs.Inner.ScanParts.{IsEnough};
ghost use Rattle.dv_pipe.specs.Sources.{rows_referred};
ghost use Rattle.dv_sort.specs.Sorting.{front, stable};

use crate::ahead::first_by_index;
use crate::by_id::{first_by_id, first_rows_by_id};
use crate::standing::{Searched, first_found};
use dv_command::Find;
use dv_index::IndexedCollection;
use dv_match::Filter;
use dv_path::SortSpec;
use dv_sort::{Sorter, laws};
use dv_value::{Document, NoMemory};
use std::alloc::Global;

/// The rows that a find returns, in its order. Fails when memory runs out.
pub(crate) fn scan(
    alloc: Global,
    within: Searched<'_>,
    find: &Find,
) -> Result<Vec<Document>, NoMemory>
    ensures { IfOk result (λ found. found.items ≡ scans.scan find.now.filter (sort_seen find.now.sort) find.now.skip find.now.limit (searched within.entry)) }
{
    let most = most_of(find.skip, find.limit);
    let found = in_order(alloc, within, find, most)?;
    Ok(window(found, find.skip, find.limit))
}

/// The first rows that match a find's filter, in its order: `most` of them, or all. Fails when memory runs out.
fn in_order(
    alloc: Global,
    within: Searched<'_>,
    find: &Find,
    most: Option<usize>,
) -> Result<Vec<Document>, NoMemory>
    ensures { IfOk result (λ found. found.items ≡ front most (stable (sort_seen find.now.sort) (scans.matching find.now.filter (searched within.entry)))) }
{
    if let Some(sort) = &find.sort {
        return in_sort(alloc, within, &find.filter, sort, most);
    }
    laws::without_a_path();
    let first = first_found(alloc, within, &find.filter, most)?;
    copies(alloc, &first)
}

/// The first rows that match the filter, in the order of the sort: `most` of them, or all. Fails when memory runs out.
pub(crate) fn in_sort(
    alloc: Global,
    within: Searched<'_>,
    filter: &Filter,
    sort: &SortSpec,
    most: Option<usize>,
) -> Result<Vec<Document>, NoMemory>
    ensures { IfOk result (λ found. found.items ≡ front most (stable sort.now (scans.matching filter.now (searched within.entry)))) }
{
    if let Some(first) = by_index(alloc, &within, filter, sort, most)? {
        return Ok(first);
    }
    let all = first_found(alloc, within, filter, None)?;
    sorted(alloc, &all, sort, most)
}

/// The same, if the order of `_id`s or an index finds them. Fails when memory runs out.
fn by_index(
    alloc: Global,
    within: &Searched<'_>,
    filter: &Filter,
    sort: &SortSpec,
    most: Option<usize>,
) -> Result<Option<Vec<Document>>, NoMemory>
    ensures { IfOk result (λ found. IfSome found (λ first. first.items ≡ front most (stable sort.now (scans.matching filter.now (searched within.now))))) }
{
    match within {
        Searched::Collection(collection) => in_collection(alloc, collection, filter, sort, most),
        Searched::ById(rows) => first_rows_by_id(alloc, rows, filter, sort, most),
        Searched::Rows(_) => Ok(None),
    }
}

/// The same for the documents of a collection.
fn in_collection(
    alloc: Global,
    collection: &IndexedCollection,
    filter: &Filter,
    sort: &SortSpec,
    most: Option<usize>,
) -> Result<Option<Vec<Document>>, NoMemory>
    ensures { IfOk result (λ found. IfSome found (λ first. first.items ≡ front most (stable sort.now (scans.matching filter.now collection.now.documents)))) }
{
    if let Some(first) = first_by_id(alloc, collection, filter, sort, most)? {
        return Ok(Some(first));
    }
    match most {
        Some(most) => first_by_index(alloc, collection, filter, sort, most),
        None => Ok(None),
    }
}

/// How many rows are searched for, if `skip` are left out and `limit` are wanted; `None` for all.
fn most_of(skip: u64, limit: u64) -> Option<usize>
    ensures { IsEnough skip limit result }
{
    if limit == 0 {
        return None;
    }
    skip.checked_add(limit).map(|most| most as usize)
}

/// The rows, which are shared. Fails when memory runs out.
pub(crate) fn copies(alloc: Global, rows: &[&Document]) -> Result<Vec<Document>, NoMemory>
    ensures { IfOk result (λ copies. copies.items ≡ rows_referred rows.now) }
{
    let mut copies = Vec::with_capacity(alloc, rows.len())?;
    'rows: for row in rows {
        copies.push(row.try_clone()?)?;
    }
    Ok(copies)
}

/// The first rows in the order of the sort: `most` of them, or all. Fails when memory runs out.
pub(crate) fn sorted(
    alloc: Global,
    rows: &[&Document],
    sort: &SortSpec,
    most: Option<usize>,
) -> Result<Vec<Document>, NoMemory>
    ensures { IfOk result (λ found. found.items ≡ front most (stable sort.now (rows_referred rows.now))) }
{
    laws::one_row_more();
    let mut sorter = Sorter::new(alloc, sort, most);
    'rows: for row in rows {
        sorter.push(row.try_clone()?)?;
    }
    sorter.into_rows()
}

/// The rows without the first `skip`, and at most `limit`, where 0 stands for all. Takes no memory.
fn window(mut rows: Vec<Document>, skip: u64, limit: u64) -> Vec<Document>
    ensures { result.items ≡ scans.limited limit (drop skip rows.items) }
{
    let skip = rows.len().min(skip as usize);
    rows.rotate_left(skip);
    rows.truncate(rows.len() - skip);
    if limit > 0 {
        rows.truncate(limit as usize);
    }
    rows
}
