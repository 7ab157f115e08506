//! `$limit`, updated by changes.

ghost use Rattle.std.specs.Prelude.{◌≡◌, []};
ghost use Rattle.dv_flow.specs.Inner.Limiting.{IsSoundLimit, limit_count, limit_empty, limit_even, limit_left, limit_ordered, limit_positioned, limit_turning};

use crate::limit::LimitOperator;
use dv_change::{Change, Input, Keeping, Ticks, Turn};
use dv_value::NoMemory;
use std::alloc::Global;

/// The first rows, updated by changes. For a change it reads the changed row and the rows on both sides of the end.
#[derive(Drop)]
pub struct LimitTurn {
    keeping: Keeping<LimitOperator>,
}

impl LimitTurn {
    /// The first `count` rows; it has taken in nothing.
    pub fn new(alloc: Global, count: u64) -> Self
        ensures count { limit_count result ≡ count }
        ensures left { limit_left result ≡ [] }
        ensures sound { IsSoundLimit result }
    {
        LimitTurn {
            keeping: Keeping::new(alloc, LimitOperator::new(alloc, count), Vec::new(alloc)),
        }
    }
}

impl Turn for LimitTurn {
    ghost turning = { limit_turning };

    ghost positioned = { λ t sound. (limit_positioned t sound, tt) };

    ghost ordered = { λ t named rows are. limit_ordered (limit_count t) rows are };

    ghost even = { λ t named rows are one. limit_even (limit_count t) rows one };

    ghost empty = { λ t named. limit_empty (limit_count t) };

    fn named(&self) -> usize {
        0
    }

    fn change(
        &mut self,
        input: Input,
        change: Change,
        ticks: &mut Ticks,
        out: &mut Vec<Change>,
    ) -> Result<(), NoMemory> {
        self.keeping.change(input, change, ticks, out)
    }
}
