//! Sorts by `_id`: the documents of a collection, and the rows of some views, are already in this order.

ghost use Rattle.std.specs.Prelude.{◌≡◌, ◌∷◌, [], codes, IfOk, IfSome, List};
ghost use Rattle.dv_path.specs.SortSpec.{Part};
ghost use Rattle.dv_sort.specs.Sorting.{front, stable};
ghost use Rattle.dv_catalog.specs.Scan.{matching};

use crate::indexing::is_id;
use crate::keyed::first_by_key;
use crate::scan::copies;
use dv_coll::laws;
use dv_index::IndexedCollection;
use dv_match::Filter;
use dv_path::{Direction, SortSpec};
use dv_value::{Document, NoMemory};
use dv_views::RowsById;
use std::alloc::Global;

/// The first documents that match the filter, in the order of a sort whose first path is `_id`: `most` of them, or all. No two have
/// equal `_id`s, so further paths don't matter. `None` if the first path is another one. Fails when memory runs out.
pub(crate) fn first_by_id(
    alloc: Global,
    collection: &IndexedCollection,
    filter: &Filter,
    sort: &SortSpec,
    most: Option<usize>,
) -> Result<Option<Vec<Document>>, NoMemory>
    ensures { IfOk result (λ found. IfSome found (λ first. first.items ≡ front most (stable sort.now (matching filter.now collection.now.documents)))) }
{
    let Some(direction) = direction_of_ids(sort) else {
        return Ok(None);
    };
    laws::documents_stand_where_they_are_found();
    // The documents are in order, and no more match than there are.
    let all = collection.len();
    let found = collection.find_in_order(filter, direction, most.unwrap_or(all))?;
    Ok(Some(copies(alloc, &found)?))
}

/// The same for the rows of a view that are ordered by their `_id`s. `None` also if one of these is an array, since an array is
/// sorted by its elements.
pub(crate) fn first_rows_by_id(
    alloc: Global,
    rows: &RowsById<'_>,
    filter: &Filter,
    sort: &SortSpec,
    most: Option<usize>,
) -> Result<Option<Vec<Document>>, NoMemory>
    ensures { IfOk result (λ found. IfSome found (λ first. first.items ≡ front most (stable sort.now (matching filter.now rows.now)))) }
{
    let Some(direction) = direction_of_ids(sort) else {
        return Ok(None);
    };
    if rows.has_array_id()? {
        return Ok(None);
    }
    laws::documents_stand_where_they_are_found();
    // The rows are in order.
    rows.law_ascending();
    let found = first_by_key(alloc, rows, filter, direction, most)?;
    Ok(Some(copies(alloc, &found)?))
}

/// The direction in which a sort orders `_id`s, if its first path is `_id`.
fn direction_of_ids(sort: &SortSpec) -> Option<Direction>
    ensures { IfSome result (λ direction. (parts : List Part) × (sort.now ≡ (codes "_id" ∷ [], direction) ∷ parts)) }
{
    let by = sort.parts().first()?;
    if is_id(&by.path) {
        Some(by.direction)
    } else {
        None
    }
}
