//! The stages that follow a find.

ghost use Rattle.std.specs.Prelude.{◌≡◌, ◌≤◌, length, take, true, IfOk};
ghost use Rattle.std.specs.List.{list_all};
ghost use Rattle.dv_catalog.specs.Inner.Behind.{looks_nowhere};
ghost use Rattle.dv_catalog.specs.Inner.CatalogParts.{lists_kept};
ghost use Rattle.dv_catalog.specs.Inner.SearchedView.{searched};
ghost use Rattle.dv_catalog.specs.State.{lists_of};
ghost use Rattle.dv_gather.specs.Lookups.{looked_up};
ghost use Rattle.dv_pipe.specs.Sources.{rows_referred};
ghost use Rattle.dv_pipe.specs.Stages.{through};
ghost use Rattle.dv_views.specs.Inner.Views.{AreRight};

use crate::collections::Collections;
use crate::sources::rows_under;
use crate::standing::{Searched, first_found, searched_in};
use dv_pipe::{Lookup, Sources, Stage, filter_of_joined, laws, references, rows_through};
use dv_value::{Document, NoMemory};
use dv_views::{ToldRegistry, beside, lookups_of};
use std::alloc::Global;

/// If there are at least this many times as many documents as rows, the rows are looked up only among the documents that one of
/// them is joined with. Sorting all documents by their values costs more then.
const MANY_TIMES: usize = 8;

/// The rows that stages of a pipeline over `source` return for these rows. Fails when memory runs out.
#[cycle(behind)]
pub(crate) fn rows_behind(
    alloc: Global,
    collections: &Collections,
    registry: &ToldRegistry,
    stages: &[Stage],
    source: &str,
    rows: &[&Document],
) -> Result<Vec<Document>, NoMemory>
    requires { AreRight (lists_of collections.now) registry.now }
    ensures { IfOk result (λ left. left.items ≡ through stages.now source.now (lists_kept collections.now registry.now) (rows_referred rows.now)) }
{
    let (before, from_lookup) = stages.split_at(first_lookup(stages));
    let Some((Stage::Lookup(lookup), later)) = from_lookup.split_first() else {
        return rows_at_once(alloc, collections, registry, stages, source, rows);
    };
    let name = beside(alloc, source, lookup.from.as_str())?;
    if rows.len() > count_under(collections, registry, &name) / MANY_TIMES {
        return rows_at_once(alloc, collections, registry, stages, source, rows);
    }
    let entering = rows_through(alloc, before, source, &Sources::new(alloc), rows)?;
    let lent = references(alloc, &entering)?;
    let joined = joined(
        alloc,
        searched_in(collections, registry, &name),
        lookup,
        &lent,
    )?;
    let lent = references(alloc, &joined)?;
    rows_behind(alloc, collections, registry, later, source, &lent)
}

/// How many rows there are under a namespace; a stale view has none.
fn count_under(collections: &Collections, registry: &ToldRegistry, namespace: &str) -> usize {
    match (registry.row_count(namespace), collections.get(namespace)) {
        (Some(count), _) => count,
        (None, Some(collection)) => collection.len(),
        (None, None) => 0,
    }
}

/// The same, with all rows that the stages look up collected first.
fn rows_at_once(
    alloc: Global,
    collections: &Collections,
    registry: &ToldRegistry,
    stages: &[Stage],
    source: &str,
    rows: &[&Document],
) -> Result<Vec<Document>, NoMemory>
    ensures { IfOk result (λ left. left.items ≡ through stages.now source.now (lists_kept collections.now registry.now) (rows_referred rows.now)) }
{
    laws::what_is_not_looked_into_does_not_matter();
    let names = lookups_of(alloc, source, stages)?;
    let sources = rows_under(alloc, collections, registry, &names)?;
    rows_through(alloc, stages, source, &sources, rows)
}

/// The place of the first stage that looks up rows under a name, or how many stages there are.
fn first_lookup(stages: &[Stage]) -> usize
    ensures within { result ≤ length stages.now }
    ensures nowhere { list_all looks_nowhere (take result stages.now) ≡ true }
{
    let mut place = 0;
    'stages: while place < stages.len() && stages[place].foreign().is_none() {
        place += 1;
    }
    place
}

/// The rows with the documents that they are joined with. These are searched for only among the documents that one of the rows is
/// joined with. Fails when memory runs out.
fn joined(
    alloc: Global,
    within: Searched<'_>,
    lookup: &Lookup,
    rows: &[&Document],
) -> Result<Vec<Document>, NoMemory>
    ensures { IfOk result (λ joined. joined.items ≡ looked_up lookup.now (rows_referred rows.now) (searched within.entry)) }
{
    let filter = filter_of_joined(alloc, lookup, rows)?;
    let others = first_found(alloc, within, &filter, None)?;
    let join = lookup.join(alloc, &others)?;
    let mut joined = Vec::with_capacity(alloc, rows.len())?;
    'rows: for row in rows {
        let row = join.row_behind(alloc, row, joined.last())?;
        joined.push(row)?;
    }
    Ok(joined)
}
