//! `$group`, updated by changes.

ghost use Rattle.std.specs.Prelude.{◌≡◌, [], IfOk};
ghost use Rattle.dv_group.specs.Inner.Grouped.{group_empty, group_even, group_ordered};
ghost use Rattle.dv_group.specs.Inner.Turned.{IsSoundGroups, group_turning, grouping_of, rows_left};

use crate::group_operator::GroupOperator;
use dv_change::{Change, Input, Keeping, Ticks, Turn};
use dv_gather::Group;
use dv_value::NoMemory;
use std::alloc::Global;

/// The groups of rows, each a row at its key, updated by changes. For a change it reads only the groups of the changed row, and of
/// these the row that is added or removed, the first one and the one with the least or greatest value; with a `$push`, it copies
/// the array that it returns.
#[derive(Drop)]
pub struct GroupTurn {
    keeping: Keeping<GroupOperator>,
}

impl GroupTurn {
    /// The stage, which has taken in nothing. Fails with `NoMemory` when memory runs out.
    pub fn new(alloc: Global, group: &Group) -> Result<Self, NoMemory>
        ensures group { IfOk result (λ t. grouping_of t ≡ group.now) }
        ensures left { IfOk result (λ t. rows_left t ≡ []) }
        ensures sound { IfOk result (λ t. IsSoundGroups t) }
    {
        let operator = GroupOperator::new(alloc, group)?;
        let keeping = Keeping::new(alloc, operator, Vec::new(alloc));
        Ok(GroupTurn { keeping })
    }
}

impl Turn for GroupTurn {
    ghost turning = { group_turning };

    ghost positioned = { λ t sound. (sound.1.positioned, tt) };

    ghost ordered = { λ t named rows are. group_ordered (grouping_of t) rows are };

    ghost even = { λ t named rows are one. group_even (grouping_of t) rows are one };

    ghost empty = { λ t named. group_empty (grouping_of t) };

    fn named(&self) -> usize {
        0
    }

    fn change(
        &mut self,
        input: Input,
        change: Change,
        ticks: &mut Ticks,
        out: &mut Vec<Change>,
    ) -> Result<(), NoMemory> {
        self.keeping.change(input, change, ticks, out)
    }
}
