//! `$unwind`, updated by changes.

ghost use Rattle.std.specs.Prelude.{◌≡◌, false, slice_index_or, IfOk};
ghost use Rattle.dv_change.specs.Changes.{in_row_order};
ghost use Rattle.dv_flow.specs.Placed.{unwound_at};
ghost use Rattle.dv_flow.specs.Inner.Unwinding.{but_last, rows_unmarked, unwind_empty, unwind_even, unwind_exact, unwind_ordered, unwind_single};

use crate::by_row::{ByRow, RowsApart};
use crate::row_turn::RowTurn;
use dv_change::{Ordered, Part, Pos};
use dv_row::{Unwind, UnwoundRows};
use dv_value::{Document, NoMemory};
use std::alloc::Global;

/// The rows of each row's elements, updated by changes.
pub type UnwindTurn = RowTurn<Unwind>;

impl ByRow for Unwind {
    ghost makes = { unwound_at };

    ghost origin = { λ unwind q. but_last q };

    fn try_clone(&self) -> Result<Self, NoMemory> {
        Unwind::try_clone(self)
    }

    fn rows_of(
        &self,
        alloc: Global,
        pos: &Pos,
        row: &Document,
        _before: Option<&Document>,
    ) -> Result<Ordered<Document>, NoMemory> {
        let rows = self.each_row(alloc, row)?;
        place_rows(alloc, pos, &rows, &[])
    }

    fn rows_apart(
        &self,
        alloc: Global,
        pos: &Pos,
        old: &Document,
        new: &Document,
    ) -> Result<Option<RowsApart>, NoMemory> {
        pos.law_exact();
        let old = self.each_row(alloc, old)?;
        let new = self.each_row(alloc, new)?;
        let common = old.common(alloc, &new)?;
        Ok(Some(RowsApart {
            old: place_rows(alloc, pos, &old, &common)?,
            new: place_rows(alloc, pos, &new, &common)?,
        }))
    }

    ghost ordered = { unwind_ordered };

    ghost even = { unwind_even };

    ghost empty = { unwind_empty };

    ghost exact = { unwind_exact };

    ghost single = { unwind_single };
}

/// The rows, each at the position continued by its number, except those whose places are marked.
fn place_rows(
    alloc: Global,
    pos: &Pos,
    rows: &UnwoundRows<'_>,
    marked: &[bool],
) -> Result<Ordered<Document>, NoMemory>
    ensures { IfOk result (λ placed. placed ≡ in_row_order (rows_unmarked marked.now 0 pos.now rows.now)) }
{
    let mut placed = Ordered::new(alloc);
    'rows: for place in (0..rows.len()).rev() {
        if is_marked(marked, place) {
            continue;
        }
        let number = pos.with(alloc, Part::At(place as u64))?;
        placed = placed.with(number, rows.row(place)?)?;
    }
    Ok(placed)
}

/// Whether the place is marked.
fn is_marked(marked: &[bool], place: usize) -> bool
    ensures { result ≡ slice_index_or marked.now place false }
{
    match marked.get(place) {
        Some(mark) => *mark,
        None => false,
    }
}
