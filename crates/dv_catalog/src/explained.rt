//! How the rows of a find are found, for an explain.

ghost use Rattle.std.specs.Prelude.{◌≡◌, length, IfOk};
ghost use Rattle.std.specs.FinMap as finite;
ghost use Rattle.dv_catalog.specs.IndexMaking as making;
ghost use Rattle.dv_catalog.specs.Inner.IndexParts.{explained_seen};

use crate::collections::Collections;
use dv_index::IndexedCollection;
use dv_match::Filter;
use dv_value::NoMemory;
use dv_views::ViewRows;
use std::alloc::Global;

/// How rows are found.
#[derive(Debug, Drop)]
pub enum Access {
    /// They are those of a view.
    View,
    /// By the index of this name.
    Index(String),
    /// By reading all documents.
    All,
}

/// How the rows of a find are found.
#[derive(Debug, Drop)]
pub struct Explained {
    pub way: Access,
    /// How many documents or rows the plan covers: all, or with an index those that have a leaf in its bounds, where Missing counts
    /// as null. Fewer may be read.
    pub documents: usize,
}

/// How the rows of a view are found.
pub(crate) fn explained_view(rows: ViewRows<'_>) -> Explained
    ensures { explained_seen result ≡ record { way = making.over_view; documents = length rows.entry } }
{
    Explained {
        way: Access::View,
        documents: rows.len(),
    }
}

/// How documents are found in the collection of a namespace; if it doesn't exist, all of its 0 documents are read. Fails when
/// memory runs out.
pub(crate) fn explained_in(
    alloc: Global,
    collections: &Collections,
    namespace: &str,
    filter: &Filter,
) -> Result<Explained, NoMemory>
    ensures { IfOk result (λ told. explained_seen told ≡ making.explained_at filter.now (finite.get collections.now namespace.now)) }
{
    match collections.get(namespace) {
        Some(collection) => explained_of(alloc, collection, filter),
        None => Ok(Explained {
            way: Access::All,
            documents: 0,
        }),
    }
}

/// How documents of a collection are found. Fails when memory runs out.
fn explained_of(
    alloc: Global,
    collection: &IndexedCollection,
    filter: &Filter,
) -> Result<Explained, NoMemory>
    ensures { IfOk result (λ told. explained_seen told ≡ making.explained_of filter.now collection.now) }
{
    let explanation = collection.explain(filter)?;
    let way = match explanation.index {
        Some(name) => Access::Index(String::from_str(alloc, name)?),
        None => Access::All,
    };
    Ok(Explained {
        way,
        documents: explanation.documents,
    })
}
