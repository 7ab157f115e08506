//! The lists that pipelines and views read.

ghost use Rattle.std.specs.Prelude.{◌≡◌, IfOk, OnOk};
ghost use Rattle.std.specs.List.{AllByRecursion};
ghost use Rattle.dv_pipe.specs.Sources as pipes;
ghost use Rattle.dv_pipe.specs.Sources.{rows_referred};
ghost use Rattle.dv_views.specs.Inner.Made.{AreAlike};
ghost use Rattle.dv_catalog.specs.Inner.CatalogParts.{lists_kept, rows_kept};
ghost use Rattle.dv_catalog.specs.Inner.SourceParts.{with_list};
ghost use Rattle.dv_catalog.specs.State.{AreOrdered, lists_of};

use crate::collections::Collections;
use crate::rows::FoundRows;
use dv_pipe::Sources;
use dv_value::{Document, NoMemory, Str};
use dv_views::ToldRegistry;
use std::alloc::Global;

/// Under each of the names, the documents of the collection with this name; none if it is the name of a view, or of nothing. Fails
/// when memory runs out.
pub(crate) fn documents_under<'a>(
    alloc: Global,
    collections: &'a Collections,
    names: &[Str],
) -> Result<Sources<'a>, NoMemory>
    ensures alike { IfOk result (λ sources. AreAlike names.now (pipes.lists_of sources) (lists_of collections.now)) }
    ensures ordered { IfOk result (λ sources. AllByRecursion (λ name. AreOrdered (pipes.lists_of sources name)) names.now) }
{
    let mut sources = Sources::new(alloc);
    'names: for name in names {
        let rows = collections.rows(name.as_str());
        add_rows(alloc, &mut sources, name.as_str(), rows)?;
    }
    Ok(sources)
}

/// Under each of the names, its rows: those of a view that isn't stale, or else a collection's documents. Fails when memory runs
/// out.
pub(crate) fn rows_under<'a>(
    alloc: Global,
    collections: &'a Collections,
    registry: &'a ToldRegistry,
    names: &[Str],
) -> Result<Sources<'a>, NoMemory>
    ensures { IfOk result (λ sources. AreAlike names.now (pipes.lists_of sources) (lists_kept collections.now registry.now)) }
{
    let mut sources = Sources::new(alloc);
    'names: for name in names {
        let rows = rows_in(collections, registry, name.as_str());
        add_rows(alloc, &mut sources, name.as_str(), rows)?;
    }
    Ok(sources)
}

/// The rows under a namespace; a stale view has none.
fn rows_in<'a>(
    collections: &'a Collections,
    registry: &'a ToldRegistry,
    namespace: &str,
) -> FoundRows<'a>
    ensures { result ≡ rows_kept namespace.now collections.now registry.now }
{
    match registry.rows(namespace) {
        Some(rows) => FoundRows::of_view(rows),
        None => collections.rows(namespace),
    }
}

/// Adds the rows under a name, unless it has rows already, since several views may read the same name. Fails when memory runs out.
fn add_rows<'a>(
    alloc: Global,
    sources: &mut Sources<'a>,
    name: &str,
    rows: FoundRows<'a>,
) -> Result<(), NoMemory>
    ensures { OnOk result (sources.new ≡ with_list name.now rows.entry sources.old) }
{
    if !sources.get(name).is_empty() {
        return Ok(());
    }
    let rows = references(alloc, rows)?;
    sources.add(name, rows)
}

/// References to the rows. Fails when memory runs out.
fn references<'a>(alloc: Global, rows: FoundRows<'a>) -> Result<Vec<&'a Document>, NoMemory>
    ensures { IfOk result (λ references. rows_referred references.items ≡ rows.entry) }
{
    let mut references = Vec::new(alloc);
    'rows: for row in rows {
        references.push(row)?;
    }
    Ok(references)
}
