//! `$project`, updated by changes.

ghost use Rattle.std.specs.Prelude.{refl};
ghost use Rattle.dv_flow.specs.Placed.{shown_at};
ghost use Rattle.dv_flow.specs.Inner.Projecting.{project_even, project_ordered, project_single};

use crate::by_row::ByRow;
use crate::row_turn::RowTurn;
use dv_change::{Ordered, Pos, row_alone};
use dv_row::Project;
use dv_value::{Document, NoMemory};
use std::alloc::Global;
use std::collections::BTreeMap;

/// The rows after a `$project`, updated by changes.
pub type ProjectTurn = RowTurn<Project>;

impl ByRow for Project {
    ghost makes = { shown_at };

    ghost origin = { λ project q. q };

    fn try_clone(&self) -> Result<Self, NoMemory> {
        Project::try_clone(self)
    }

    fn rows_of(
        &self,
        alloc: Global,
        pos: &Pos,
        row: &Document,
        before: Option<&Document>,
    ) -> Result<Ordered<Document>, NoMemory> {
        let shown = self.row_behind(alloc, row, before)?;
        Ordered::new(alloc).with(pos.try_clone()?, shown)
    }

    fn rows_beside(
        &self,
        alloc: Global,
        pos: &Pos,
        _row: &Document,
        made: &BTreeMap<Pos, Document>,
        _before: Option<&Document>,
    ) -> Result<Ordered<Document>, NoMemory> {
        row_alone(alloc, made, pos)
    }

    ghost ordered = { project_ordered };

    ghost even = { project_even };

    ghost empty = { λ project. refl };

    ghost exact = { λ project q exact. exact };

    ghost single = { project_single };
}
