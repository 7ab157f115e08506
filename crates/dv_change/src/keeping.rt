//! Operators that store the rows that they have taken in, and so need not receive the old row with each change.

ghost use Rattle.std.specs.Prelude.{◌≡◌, ◌≤◌, ◌<◌, ◌++◌, [], IfOk, OnErr, OnOk, length, map};
ghost use Rattle.std.specs.List.{AllByRecursion};
ghost use Rattle.dv_change.specs.Inner.Beginning.{BeginsWith};
ghost use Rattle.dv_change.specs.Changes.{Positioned};
ghost use Rattle.dv_change.specs.Inner.Changes.{IsExactChange, IsPositioned};
ghost use Rattle.dv_change.specs.Inner.Kept.{kept_turning};
ghost use Rattle.dv_change.specs.Inputs.{input_changed_at};
ghost use Rattle.dv_change.specs.Inner.Told.{CountsChanges, ReturnsChanges, TakesIn, WhateverIsHeld, changes_told, list_at, with_old};

use crate::change::Change;
use crate::input::Input;
use crate::operator::Operator;
use crate::position::Pos;
use crate::taking::{Taken, take_in};
use crate::ticks::Ticks;
use crate::turn::Turn;
use dv_value::{Document, NoMemory};
use std::alloc::Global;
use std::collections::BTreeMap;

/// An operator with the rows that it has taken in and the lists that it reads by `$lookup`, so that it need not receive the old row
/// with each change.
#[derive(Drop)]
pub struct Keeping<O> {
    alloc: Global,
    operator: O,
    rows: BTreeMap<Pos, Document>,
    lists: Vec<BTreeMap<Pos, Document>>,
}

impl<O: Operator> Keeping<O> {
    /// The operator before it takes in anything. `lists` are the lists that it reads by `$lookup`, each without rows.
    pub fn new(alloc: Global, operator: O, lists: Vec<BTreeMap<Pos, Document>>) -> Self
        requires sound { O.sound operator }
        requires fresh { O.holds operator (map (λ m. m.entries) lists.items) [] }
        ensures operator { result.operator ≡ operator }
        ensures left { result.rows.entries ≡ [] }
        ensures others { result.lists ≡ lists }
        ensures sound { O.sound result.operator × O.holds result.operator (map (λ m. m.entries) result.lists.items) result.rows.entries }
    {
        Keeping {
            alloc,
            operator,
            rows: BTreeMap::new(alloc),
            lists,
        }
    }

    /// Passes a change to the operator, and appends the changes that it returns to `out`.
    fn hand_on(
        &mut self,
        input: Input,
        taken: Taken,
        ticks: &mut Ticks,
        out: &mut Vec<Change>,
    ) -> Result<(), NoMemory>
        requires { O.sound self.old.operator }
        ensures sound { OnOk result (O.sound self.new.operator) }
        ensures makes { OnOk result (O.makes self.new.operator ≡ O.makes self.old.operator) }
        ensures rows { OnOk result (self.new.rows ≡ self.old.rows) }
        ensures lists { OnOk result (self.new.lists ≡ self.old.lists) }
        ensures holds { OnOk result (TakesIn (O.holds self.old.operator) input taken (O.holds self.new.operator)) }
        ensures out { OnOk result (ReturnsChanges (O.holds self.old.operator) input taken (O.makes self.old.operator) out.old.items out.new.items) }
        ensures ticks { OnOk result (CountsChanges (O.holds self.old.operator) input taken (O.makes self.old.operator) ticks.old ticks.new) }
        ensures begins { OnErr result (BeginsWith out.new.items out.old.items) }
        ensures no_fewer { OnErr result (WhateverIsHeld (O.holds self.old.operator) input taken (λ others left change. ticks.old ≤ ticks.new)) }
    {
        let mut told = Vec::new(self.alloc);
        self.operator.take(input, taken, ticks, &mut told)?;
        push_changes(told, out)
    }
}

impl<O: Operator> Turn for Keeping<O> {
    ghost turning = { kept_turning O.makes O.sound O.holds };

    ghost positioned = { λ t sound. O.positioned t.operator (map (λ m. m.entries) t.lists.items) t.rows.entries sound.1 };

    ghost ordered = { λ t named rows are. O.ordered t.operator named rows are };

    ghost even = { λ t named rows are one. O.even t.operator named rows are one };

    ghost empty = { λ t named. O.empty t.operator named };

    fn named(&self) -> usize {
        self.lists.len()
    }

    fn change(
        &mut self,
        input: Input,
        change: Change,
        ticks: &mut Ticks,
        out: &mut Vec<Change>,
    ) -> Result<(), NoMemory> {
        match input {
            Input::Left => {
                let taken = take_in(&mut self.rows, change)?;
                self.hand_on(Input::Left, taken, ticks, out)
            }
            Input::Named(place) => {
                let taken = take_in_at(self.lists.as_mut_slice(), place, change)?;
                self.hand_on(Input::Named(place), taken, ticks, out)
            }
        }
    }
}

/// Applies a change to the list at the place.
pub(crate) fn take_in_at(
    lists: &mut [BTreeMap<Pos, Document>],
    place: usize,
    change: Change,
) -> Result<Taken, NoMemory>
    requires place { place < length lists.old }
    requires positioned { AllByRecursion (λ (rows : Positioned). IsPositioned rows) (map (λ m. m.entries) lists.old) }
    ensures exact { IsExactChange change }
    ensures lists { OnOk result (map (λ m. m.entries) lists.new ≡ input_changed_at place change (map (λ m. m.entries) lists.old)) }
    ensures told { IfOk result (λ taken. taken ≡ with_old (list_at place (map (λ m. m.entries) lists.old)) change) }
{
    take_in(&mut lists[place], change)
}

/// Appends the changes to `out`, without their old rows.
fn push_changes(told: Vec<Taken>, out: &mut Vec<Change>) -> Result<(), NoMemory>
    ensures out { OnOk result (out.new.items ≡ out.old.items ++ changes_told told.items) }
    ensures begins { OnErr result (BeginsWith out.new.items out.old.items) }
{
    'told: for taken in told {
        out.push(taken.into_change())?;
    }
    Ok(())
}
