//! Sorting documents as they arrive.

ghost use Rattle.std.specs.Prelude.{◌≡◌, ◌≤◌, length, take, slice_get, IfOk, IfSome, OnErr, OnOk};
ghost use Rattle.std.specs.Option.{option_map};
ghost use Rattle.dv_sort.specs.Inner.Bar.{IsBar, is_behind};
ghost use Rattle.dv_sort.specs.Front.{no_rows, with_row};
ghost use Rattle.dv_sort.specs.Keys.{documents};
ghost use Rattle.dv_sort.specs.Inner.Keys.{AreKeyed};
ghost use Rattle.dv_sort.specs.Sorting.{front, stable};

use crate::order::order_of;
use crate::row::{Row, documents_of, row_keys, sort_rows};
use dv_order::Key;
use dv_path::SortSpec;
use dv_value::{Document, NoMemory};
use std::alloc::Global;
use std::marker::Model;

/// The first documents of all that arrived, in the order of a sort; documents that the sort doesn't distinguish keep their order.
///
/// Each document's keys are made once, and documents aren't copied. If `most` are wanted, at most twice as many are kept (one if
/// `most` is 0), a document costs on average a number of comparisons logarithmic in `most`, and a document that doesn't come before
/// the first one that the last cut removed costs one comparison and is dropped. Otherwise all are kept, and sorted at the end.
#[derive(Debug, Drop)]
pub struct Sorter<'a> {
    spec: &'a SortSpec,
    most: Option<usize>,
    rows: Vec<Row>,
    /// The keys of a row that fell out of the first `most`, once there was one: none of the wanted rows comes after it.
    bar: Option<Vec<Key>>,
}

impl<'a> Model for Sorter<'a> {
    ghost use Rattle.dv_sort.specs.Front.{Front, front_of};
    ghost use Rattle.dv_sort.specs.Inner.Front.{coded_front};

    ghost Value = { Front };

    ghost coded = { coded_front };

    ghost use Rattle.std.specs.Prelude.{IfSome};
    ghost use Rattle.dv_sort.specs.Inner.Bar.{IsBar};
    ghost use Rattle.dv_sort.specs.Keys.{documents};
    ghost use Rattle.dv_sort.specs.Inner.Keys.{AreKeyed};

    ghost view = { λ s. front_of s.spec.now s.most (documents s.rows.items) };

    ghost invariant = { λ s. AreKeyed s.spec.now s.rows.items × IfSome s.bar (λ keys. IsBar s.spec.now s.most (documents s.rows.items) keys.items) };
}

impl<'a> Sorter<'a> {
    /// A sorter at which no document has arrived yet. The first `most` documents are wanted, or all. Takes no memory; what it
    /// takes later is allocated by `alloc`.
    pub fn new(alloc: Global, spec: &'a SortSpec, most: Option<usize>) -> Self
        ensures { result ≡ no_rows spec.now most }
    {
        Sorter {
            spec,
            most,
            rows: Vec::new(alloc),
            bar: None,
        }
    }

    /// Takes a document, which comes after all others that are equal. Fails with `NoMemory` when memory runs out: then the document
    /// is dropped, and nothing else is changed.
    pub fn push(&mut self, document: Document) -> Result<(), NoMemory>
        ensures ok { OnOk result (self.new ≡ with_row self.old document) }
        ensures err { OnErr result (self.new ≡ self.old) }
    {
        let keys = row_keys(*self.rows.allocator(), self.spec, &document)?;
        keep_front(&mut self.rows, &mut self.bar, self.spec, self.most)?;
        if stands_behind(self.spec, &keys, &self.bar) {
            return Ok(());
        }
        self.rows.push(Row { keys, document })?;
        Ok(())
    }

    /// The first documents of all that arrived, in order. Fails with `NoMemory` when memory runs out.
    pub fn into_rows(self) -> Result<Vec<Document>, NoMemory>
        ensures { IfOk result (λ rows. rows.items ≡ self.entry.rows) }
    {
        let Sorter {
            spec,
            most,
            mut rows,
            ..
        } = self;
        sort_rows(&mut rows, spec)?;
        if let Some(most) = most {
            rows.truncate(most);
        }
        documents_of(*rows.allocator(), rows)
    }
}

/// If there are at least twice as many rows as are wanted, keeps the first `most` in order, and the keys of the next one as the
/// bar. Fails when memory runs out, and then leaves the rows and the bar as they are.
fn keep_front(
    rows: &mut Vec<Row>,
    bar: &mut Option<Vec<Key>>,
    spec: &SortSpec,
    most: Option<usize>,
) -> Result<(), NoMemory>
    requires rows { AreKeyed spec.now rows.old.items }
    requires bar { IfSome bar.old (λ keys. IsBar spec.now most (documents rows.old.items) keys.items) }
    ensures keyed { AreKeyed spec.now rows.new.items }
    ensures bar { IfSome bar.new (λ keys. IsBar spec.now most (documents rows.new.items) keys.items) }
    ensures same { front most (stable spec.now (documents rows.new.items)) ≡ front most (stable spec.now (documents rows.old.items)) }
    ensures err { OnErr result (rows.new.items ≡ rows.old.items) }
{
    let Some(most) = most else {
        return Ok(());
    };
    if rows.len() / 2 < most {
        return Ok(());
    }
    sort_rows(rows, spec)?;
    *bar = cut(rows, most);
    Ok(())
}

/// Cuts off all rows after the first `most`, and returns the keys of the next one, if there is one.
fn cut(rows: &mut Vec<Row>, most: usize) -> Option<Vec<Key>>
    requires { most ≤ length rows.old.items }
    ensures rows { rows.new.items ≡ take most rows.old.items }
    ensures keys { option_map (λ keys. keys.items) result ≡ option_map (λ row. row.keys.items) (slice_get rows.old.items most) }
{
    if rows.len() == most {
        return None;
    }
    rows.truncate(most + 1);
    let Row { keys, .. } = rows.pop()?;
    Some(keys)
}

/// Whether there is a bar, and a row with these keys is equal to it or comes after it.
fn stands_behind(spec: &SortSpec, keys: &[Key], bar: &Option<Vec<Key>>) -> bool
    ensures { result ≡ is_behind spec.now keys.now (option_map (λ keys. keys.items) bar.now) }
{
    match bar {
        Some(bar) => order_of(spec.parts(), keys, bar.as_slice()).is_ge(),
        None => false,
    }
}
