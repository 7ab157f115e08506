//! `$lookup`, updated by changes.

ghost use Rattle.std.specs.Prelude.{◌≡◌, ◌∷◌, [], refl, IfOk};
ghost use Rattle.dv_join.specs.Inner.Placed.{looked_up_even, looked_up_ordered};
ghost use Rattle.dv_join.specs.Turning.{first_input};
ghost use Rattle.dv_join.specs.Inner.Turning.{IsSoundJoin, join_positioned, lookup_kept, lookup_left, lookup_others, lookup_turning};

use crate::operator::LookupOperator;
use dv_change::{Change, Input, Keeping, Ticks, Turn};
use dv_gather::Lookup;
use dv_value::NoMemory;
use std::alloc::Global;
use std::collections::BTreeMap;

/// Rows with the documents of another list that they are joined with, updated by changes of both. Of the rows, it reads only the
/// changed one, or those that share a key with a changed document.
#[derive(Drop)]
pub struct LookupTurn {
    keeping: Keeping<LookupOperator>,
}

impl LookupTurn {
    /// The look-up, which has taken in nothing. Fails with `NoMemory` when memory runs out.
    pub fn new(alloc: Global, lookup: &Lookup) -> Result<Self, NoMemory>
        ensures lookup { IfOk result (λ t. lookup_kept t ≡ lookup.now) }
        ensures left { IfOk result (λ t. lookup_left t ≡ []) }
        ensures others { IfOk result (λ t. lookup_others t ≡ [] ∷ []) }
        ensures sound { IfOk result (λ t. IsSoundJoin t) }
    {
        let operator = LookupOperator::new(alloc, lookup)?;
        let mut lists = Vec::with_capacity(alloc, 1)?;
        lists.push(BTreeMap::new(alloc))?;
        Ok(LookupTurn {
            keeping: Keeping::new(alloc, operator, lists),
        })
    }
}

impl Turn for LookupTurn {
    ghost turning = { lookup_turning };

    ghost positioned = { λ t sound. (sound.left, join_positioned t.keeping.operator (lookup_others t) (lookup_left t) sound) };

    ghost ordered = { λ t named rows are. looked_up_ordered (lookup_kept t) (first_input named) rows are };

    ghost even = { λ t named rows are one. looked_up_even (lookup_kept t) (first_input named) rows one };

    ghost empty = { λ t named. refl };

    fn named(&self) -> usize {
        self.keeping.named()
    }

    fn change(
        &mut self,
        input: Input,
        change: Change,
        ticks: &mut Ticks,
        out: &mut Vec<Change>,
    ) -> Result<(), NoMemory> {
        self.keeping.change(input, change, ticks, out)
    }
}
