//! `$match`, updated by changes.

ghost use Rattle.std.specs.Prelude.{refl};
ghost use Rattle.dv_flow.specs.Inner.Matching.{match_even, match_ordered, match_single};
ghost use Rattle.dv_flow.specs.Placed.{matched_at};

use crate::by_row::ByRow;
use crate::row_turn::RowTurn;
use dv_change::{Ordered, Pos};
use dv_match::Filter;
use dv_value::{Document, NoMemory};
use std::alloc::Global;

/// The rows that match a filter, updated by changes.
pub type MatchTurn = RowTurn<Filter>;

impl ByRow for Filter {
    ghost makes = { matched_at };

    ghost origin = { λ form q. q };

    fn try_clone(&self) -> Result<Self, NoMemory> {
        Filter::try_clone(self)
    }

    fn rows_of(
        &self,
        alloc: Global,
        pos: &Pos,
        row: &Document,
        _before: Option<&Document>,
    ) -> Result<Ordered<Document>, NoMemory> {
        let none = Ordered::new(alloc);
        if self.matches(row) {
            none.with(pos.try_clone()?, row.try_clone()?)
        } else {
            Ok(none)
        }
    }

    ghost ordered = { match_ordered };

    ghost even = { match_even };

    ghost empty = { λ form. refl };

    ghost exact = { λ form q exact. exact };

    ghost single = { match_single };
}
