//! Documents with the keys that they are sorted by.

ghost use Rattle.std.specs.Prelude.{◌≡◌, IfOk, OnErr, OnOk};
ghost use Rattle.dv_sort.specs.Inner.Keys as defined;
ghost use Rattle.dv_sort.specs.Keys.{documents};
ghost use Rattle.dv_sort.specs.Inner.Keys.{AreKeyed};
ghost use Rattle.dv_sort.specs.Sorting.{stable};

use crate::order::order_of;
use dv_order::Key;
use dv_path::{SortSpec, sort_key};
use dv_value::{Document, NoMemory};
use std::alloc::Global;

/// A document with the keys that it is sorted by.
#[derive(Debug, Drop)]
pub(crate) struct Row {
    pub(crate) keys: Vec<Key>,
    pub(crate) document: Document,
}

/// The keys by which the sort orders the document. Fails when memory runs out.
pub(crate) fn row_keys(
    alloc: Global,
    spec: &SortSpec,
    document: &Document,
) -> Result<Vec<Key>, NoMemory>
    ensures { IfOk result (λ keys. keys.items ≡ defined.row_keys spec.now document.now) }
{
    let parts = spec.parts();
    let mut keys = Vec::with_capacity(alloc, parts.len())?;
    for part in parts {
        keys.push(sort_key(document, &part.path, part.direction)?)?;
    }
    Ok(keys)
}

/// Puts the rows in order. Fails when memory runs out, and then leaves them as they are.
pub(crate) fn sort_rows(rows: &mut Vec<Row>, spec: &SortSpec) -> Result<(), NoMemory>
    requires { AreKeyed spec.now rows.old.items }
    ensures keyed { AreKeyed spec.now rows.new.items }
    ensures ok { OnOk result (documents rows.new.items ≡ stable spec.now (documents rows.old.items)) }
    ensures err { OnErr result (rows.new.items ≡ rows.old.items) }
{
    let parts = spec.parts();
    rows.sort_by(|x, y| order_of(parts, x.keys.as_slice(), y.keys.as_slice()))?;
    Ok(())
}

/// The documents of the rows, in their order. Fails when memory runs out.
pub(crate) fn documents_of(alloc: Global, rows: Vec<Row>) -> Result<Vec<Document>, NoMemory>
    ensures { IfOk result (λ found. found.items ≡ documents rows.items) }
{
    let mut found = Vec::with_capacity(alloc, rows.len())?;
    for Row { document, .. } in rows {
        found.push(document)?;
    }
    Ok(found)
}
