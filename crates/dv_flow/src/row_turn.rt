//! Stages that compute their rows from each row separately, updated by changes.

ghost use Rattle.std.specs.Prelude.{◌≡◌, [], IfOk};
ghost use Rattle.dv_flow.specs.Inner.Rows.{IsSoundRows, rows_left, rows_stage, rows_turning};

use crate::by_row::{ByRow, RowOperator};
use dv_change::{Change, Input, Keeping, Ticks, Turn};
use dv_value::NoMemory;
use std::alloc::Global;

/// A stage that computes its rows from each row separately, updated by changes. For a change it reads only the changed row.
#[derive(Drop)]
pub struct RowTurn<S> {
    keeping: Keeping<RowOperator<S>>,
}

impl<S: ByRow> RowTurn<S> {
    /// The stage, which has taken in nothing. Fails with `NoMemory` when memory runs out.
    pub fn new(alloc: Global, stage: &S) -> Result<Self, NoMemory>
        ensures stage { IfOk result (λ t. rows_stage t ≡ stage.now) }
        ensures left { IfOk result (λ t. rows_left t ≡ []) }
        ensures sound { IfOk result (λ t. IsSoundRows t) }
    {
        let operator = RowOperator::new(alloc, stage)?;
        Ok(RowTurn {
            keeping: Keeping::new(alloc, operator, Vec::new(alloc)),
        })
    }
}

impl<S: ByRow> Turn for RowTurn<S> {
    ghost turning = { rows_turning S.makes };

    ghost positioned = { λ t sound. (sound.positioned, tt) };

    ghost ordered = { λ t named rows are. S.ordered (rows_stage t) rows are };

    ghost even = { λ t named rows are one. S.even (rows_stage t) rows are one };

    ghost empty = { λ t named. S.empty (rows_stage t) };

    fn named(&self) -> usize {
        0
    }

    fn change(
        &mut self,
        input: Input,
        change: Change,
        ticks: &mut Ticks,
        out: &mut Vec<Change>,
    ) -> Result<(), NoMemory> {
        self.keeping.change(input, change, ticks, out)
    }
}
