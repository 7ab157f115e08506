//! Rows joined with the documents that are found by their keys.

ghost use Rattle.std.specs.Prelude.{◌≡◌, map, IfOk};
ghost use Rattle.std.specs.Option.{option_map, unwrap_or};
ghost use Rattle.dv_change.specs.Changes.{forget};
ghost use Rattle.dv_gather.specs.Joining.{as_value};
ghost use Rattle.dv_join.specs.Inner.Joined.{AddsJoined, AreJoined, IsCopyJoined};
ghost use Rattle.dv_join.specs.Inner.Listed as listed;

use crate::index::RowsByKey;
use dv_change::{Ordered, Pos};
use dv_gather::Lookup;
use dv_order::Key;
use dv_value::{Document, List, NoMemory, Value};
use std::alloc::Global;
use std::collections::BTreeSet;

/// Each of the rows with the documents that it is joined with, which are found in the index: a copy of the row in `copied`, which
/// has the same rows, or their joined rows from before, which differ only by their arrays. It may share names with `last`, a row
/// that was returned before. Fails when memory runs out.
pub(crate) fn joined_rows(
    alloc: Global,
    lookup: &Lookup,
    foreign: &RowsByKey,
    rows: &Ordered<Document>,
    copied: &Ordered<Document>,
    last: Option<&Document>,
) -> Result<Ordered<Document>, NoMemory>
    ensures { IfOk result (λ joined. AreJoined lookup.now foreign.now rows.now copied.now joined) }
{
    let mut joined = Ordered::new(alloc);
    let Some((pos, row)) = rows.first() else {
        return Ok(joined);
    };
    let copy = document_or(copied.first(), row);
    joined = with_joined(alloc, lookup, foreign, joined, pos, row, copy, last)?;
    let mut copies = copied.others();
    'others: for (pos, row) in rows.others() {
        let copy = document_or(copies.next(), row);
        joined = with_joined(alloc, lookup, foreign, joined, pos, row, copy, last)?;
    }
    Ok(joined)
}

/// The document at a position, or another one if there is none.
fn document_or<'a>(there: Option<(&Pos, &'a Document)>, other: &'a Document) -> &'a Document
    ensures { result.now ≡ unwrap_or (option_map (λ e. e.1.now) there.entry) other.now }
{
    match there {
        Some((_, document)) => document,
        None => other,
    }
}

/// Joined rows with one more, at the position.
fn with_joined(
    alloc: Global,
    lookup: &Lookup,
    foreign: &RowsByKey,
    joined: Ordered<Document>,
    pos: &Pos,
    row: &Document,
    copied: &Document,
    last: Option<&Document>,
) -> Result<Ordered<Document>, NoMemory>
    ensures { IfOk result (λ more. AddsJoined lookup.now foreign.now pos.now row.now copied.now joined more) }
{
    let keys = lookup.local_keys(alloc, row)?;
    let made = joined_row(alloc, lookup, foreign, &keys, copied, last)?;
    joined.with(pos.try_clone()?, made)
}

/// A copy of the row `copied` with the documents that a row with these keys is joined with, which are found in the index. It may
/// share names with `last`, a row that was returned before.
pub(crate) fn joined_row(
    alloc: Global,
    lookup: &Lookup,
    foreign: &RowsByKey,
    keys: &BTreeSet<Key>,
    copied: &Document,
    last: Option<&Document>,
) -> Result<Document, NoMemory>
    ensures { IfOk result (λ joined. IsCopyJoined lookup.now foreign.now keys.now copied.now joined) }
{
    let matches = foreign.values_under(keys)?;
    lookup.row_with(alloc, copied, matches, last)
}

/// The rows as values, in their order.
pub(crate) fn values_of(alloc: Global, rows: &Ordered<Document>) -> Result<List, NoMemory>
    ensures { IfOk result (λ values. values ≡ map as_value (forget rows.now)) }
{
    let mut values = Vec::with_capacity(alloc, rows.len())?;
    let Some((_, row)) = rows.first() else {
        return Ok(List::of(values));
    };
    values.push(Value::Doc(row.try_clone()?))?;
    'others: for (_, row) in rows.others() {
        values.push(Value::Doc(row.try_clone()?))?;
    }
    Ok(List::of(values))
}

/// Rows with others, each of which replaces the row at its position, if there is one.
pub(crate) fn with_all(
    rows: Ordered<Document>,
    others: &Ordered<Document>,
) -> Result<Ordered<Document>, NoMemory>
    ensures { IfOk result (λ all. all ≡ listed.with_each_row rows others.now) }
{
    let Some((pos, row)) = others.first() else {
        return Ok(rows);
    };
    let mut all = rows.with(pos.try_clone()?, row.try_clone()?)?;
    'others: for (pos, row) in others.others() {
        all = all.with(pos.try_clone()?, row.try_clone()?)?;
    }
    Ok(all)
}
