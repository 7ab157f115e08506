//! What a find searches.

ghost use Rattle.std.specs.Prelude.{◌≡◌, Some, IfOk, IfSome};
ghost use Rattle.dv_catalog.specs.Inner.CatalogParts.{rows_kept};
ghost use Rattle.dv_catalog.specs.Inner.SearchedView.{searched};
ghost use Rattle.dv_catalog.specs.Scan as scans;
ghost use Rattle.dv_pipe.specs.Sources.{rows_referred};
ghost use Rattle.dv_catalog.specs.State.{lists_of};
ghost use Rattle.dv_sort.specs.Sorting.{front};
ghost use Rattle.dv_views.specs.Inner.Views.{AreRight, rows_shown};

use crate::collections::Collections;
use crate::keyed::first_by_key;
use crate::rows::FoundRows;
use dv_index::IndexedCollection;
use dv_match::Filter;
use dv_path::Direction;
use dv_value::{Document, NoMemory};
use dv_views::{RowsById, ToldRegistry};
use std::alloc::Global;

/// What is under a namespace.
#[derive(Drop)]
pub(crate) enum Searched<'a> {
    /// A collection, with its indexes.
    Collection(&'a IndexedCollection),
    /// The rows of a view that are ordered by their `_id`s.
    ById(RowsById<'a>),
    /// The rows of another view, or none.
    Rows(FoundRows<'a>),
}

/// What is under a namespace; a stale view has no rows.
pub(crate) fn searched_in<'a>(
    collections: &'a Collections,
    registry: &'a ToldRegistry,
    namespace: &str,
) -> Searched<'a>
    requires { AreRight (lists_of collections.now) registry.now }
    ensures { searched result ≡ rows_kept namespace.now collections.now registry.now }
{
    if let Some(rows) = registry.rows(namespace) {
        return match by_id(collections, registry, namespace) {
            Some(rows) => Searched::ById(rows),
            None => Searched::Rows(FoundRows::of_view(rows)),
        };
    }
    match collections.get(namespace) {
        Some(collection) => Searched::Collection(collection),
        None => Searched::Rows(FoundRows::none()),
    }
}

/// The rows of the view under a namespace by their `_id`s, if they are ordered by these.
fn by_id<'a>(
    collections: &Collections,
    registry: &'a ToldRegistry,
    namespace: &str,
) -> Option<RowsById<'a>>
    requires { AreRight (lists_of collections.now) registry.now }
    ensures { IfSome result (λ rows. rows_shown namespace.now registry.now ≡ Some rows) }
{
    let standing = registry.standing(namespace)?;
    // The documents of a collection begin with their `_id`s.
    collections.law_ordered(standing.base());
    Some(standing.by_id())
}

/// The first rows that match the filter, in their order: `most` of them, or all. In a collection they are found by its indexes, and
/// in a view whose rows are ordered by their `_id`s, by these. Fails when memory runs out.
pub(crate) fn first_found<'a>(
    alloc: Global,
    within: Searched<'a>,
    filter: &Filter,
    most: Option<usize>,
) -> Result<Vec<&'a Document>, NoMemory>
    ensures { IfOk result (λ found. rows_referred found.items ≡ front most (scans.matching filter.now (searched within.entry))) }
{
    match within {
        Searched::Collection(collection) => match most {
            Some(most) => collection.find_first(filter, most),
            None => collection.find(filter),
        },
        Searched::ById(rows) => first_by_key(alloc, &rows, filter, Direction::Ascending, most),
        Searched::Rows(rows) => first_matching(alloc, rows, filter, most),
    }
}

/// The first rows that match the filter, in their order: `most` of them, or all. Fails when memory runs out.
pub(crate) fn first_matching<'a>(
    alloc: Global,
    rows: FoundRows<'a>,
    filter: &Filter,
    most: Option<usize>,
) -> Result<Vec<&'a Document>, NoMemory>
    ensures { IfOk result (λ found. rows_referred found.items ≡ front most (scans.matching filter.now rows.entry)) }
{
    let mut found = Vec::new(alloc);
    'rows: for row in rows {
        if most == Some(found.len()) {
            return Ok(found);
        }
        if filter.matches(row) {
            found.push(row)?;
        }
    }
    Ok(found)
}
