//! Operators one after the other.

ghost use Rattle.std.specs.Prelude.{◌≡◌, ◌<◌, ◌≤◌, ◌++◌, [], OnErr, OnOk};
ghost use Rattle.std.specs.List.{AllByRecursion};
ghost use Rattle.dv_change.specs.Inner.Beginning.{BeginsWith};
ghost use Rattle.dv_change.specs.Changes.{with_changes};
ghost use Rattle.dv_change.specs.Inner.Changes.{IsExactChange};
ghost use Rattle.dv_change.specs.declared.input.Input.TheVariants.{Named};
ghost use Rattle.dv_change.specs.Inner.Linked.{AreLinked, HaveTakenNothing, IsLinked, LeadOn, MakeAsStages, StagesFollow, StagesStay, StayLinked, StayLinkedAlong};
ghost use Rattle.dv_change.specs.Inner.Linked.{changes_of_one, changes_returned, changes_returned_in, forms_of, work_done, work_done_in, work_of_one};
ghost use Rattle.dv_change.specs.Raised.{raised};
ghost use Rattle.dv_change.specs.Inner.Work.{HasAny, named_in};

use crate::change::Change;
use crate::input::Input;
use crate::ticks::Ticks;
use crate::turn::Turn;
use dv_value::NoMemory;
use std::alloc::Global;
use std::marker::Model;

/// Operators one after the other. Each takes in the changes that the one before it returns.
#[derive(Drop)]
pub struct Chain<T: Turn + Drop> {
    alloc: Global,
    turns: Vec<T>,
}

impl<T: Turn + Drop> Model for Chain<T> {
    ghost use Rattle.std.specs.Prelude.{List};

    ghost Value = { List T };

    ghost view = { λ c. c.turns.items };
}

impl<T: Turn + Drop> Chain<T> {
    /// A chain of operators that have taken in nothing.
    pub fn new(alloc: Global, turns: Vec<T>) -> Self
        requires { HaveTakenNothing T.turning turns.items }
        ensures turns { result ≡ turns.items }
        ensures linked { IsLinked T.turning result [] }
    {
        Chain { alloc, turns }
    }

    /// Takes in a change of an input, and appends the changes that the last operator returns to `out`. The lists that operators
    /// read by `$lookup` are counted from 0 through all of them. Fails with `NoMemory` when memory runs out; then it is spent and
    /// may only be dropped, `out` may have grown at its end, and `ticks` may have risen.
    pub fn change(
        &mut self,
        input: Input,
        change: Change,
        ticks: &mut Ticks,
        out: &mut Vec<Change>,
    ) -> Result<(), NoMemory>
        requires linked { AreLinked T.turning self.old }
        requires input { HasAny input (forms_of T.turning self.old) }
        ensures forms { OnOk result (StagesFollow T.turning input change self.old self.new) }
        ensures linked { OnOk result (StayLinked T.turning input change self.old self.new) }
        ensures outs { OnOk result (MakeAsStages T.turning input change self.old self.new) }
        ensures leads { OnOk result (LeadOn T.turning input change self.old self.new) }
        ensures out { OnOk result (out.new.items ≡ out.old.items ++ changes_returned_in T.turning input change self.old) }
        ensures ticks { OnOk result (ticks.new ≡ raised ticks.old (work_done_in T.turning input change self.old)) }
        ensures begins { OnErr result (BeginsWith out.new.items out.old.items) }
        ensures no_fewer { OnErr result (ticks.old ≤ ticks.new) }
    {
        feed_input(
            self.alloc,
            self.turns.as_mut_slice(),
            input,
            change,
            ticks,
            out,
        )
    }
}

/// Passes the change to the operator whose input it changes, and the changes that each operator returns to the next one.
fn feed_input<T: Turn>(
    alloc: Global,
    turns: &mut [T],
    input: Input,
    change: Change,
    ticks: &mut Ticks,
    out: &mut Vec<Change>,
) -> Result<(), NoMemory>
    requires linked { AreLinked T.turning turns.old }
    requires input { HasAny input (forms_of T.turning turns.old) }
    ensures forms { OnOk result (StagesFollow T.turning input change turns.old turns.new) }
    ensures linked { OnOk result (StayLinked T.turning input change turns.old turns.new) }
    ensures outs { OnOk result (MakeAsStages T.turning input change turns.old turns.new) }
    ensures leads { OnOk result (LeadOn T.turning input change turns.old turns.new) }
    ensures out { OnOk result (out.new.items ≡ out.old.items ++ changes_returned_in T.turning input change turns.old) }
    ensures ticks { OnOk result (ticks.new ≡ raised ticks.old (work_done_in T.turning input change turns.old)) }
    ensures begins { OnErr result (BeginsWith out.new.items out.old.items) }
    ensures no_fewer { OnErr result (ticks.old ≤ ticks.new) }
{
    change.law_exact();
    match input {
        Input::Left => {
            let mut changes = Vec::with_capacity(alloc, 1)?;
            changes.push(change)?;
            feed_all(alloc, turns, changes, ticks, out)
        }
        Input::Named(place) => feed_named(alloc, turns, place, change, ticks, out),
    }
}

/// Passes the changes to the operator, one after the other.
fn feed<T: Turn>(
    turn: &mut T,
    changes: Vec<Change>,
    ticks: &mut Ticks,
    out: &mut Vec<Change>,
) -> Result<(), NoMemory>
    requires { T.turning.sound turn.old }
    ensures sound { OnOk result (T.turning.sound turn.new) }
    ensures makes { OnOk result ((T.turning.form turn.new).makes ≡ (T.turning.form turn.old).makes) }
    ensures left { OnOk result (T.turning.left turn.new ≡ with_changes (T.turning.left turn.old) changes.items) }
    ensures others { OnOk result ((T.turning.form turn.new).named ≡ (T.turning.form turn.old).named) }
    ensures out { OnOk result (out.new.items ≡ out.old.items ++ changes_of_one T.turning changes.items turn.old) }
    ensures ticks { OnOk result (ticks.new ≡ raised ticks.old (work_of_one T.turning changes.items turn.old)) }
    ensures begins { OnErr result (BeginsWith out.new.items out.old.items) }
    ensures no_fewer { OnErr result (ticks.old ≤ ticks.new) }
{
    'changes: for change in changes {
        turn.change(Input::Left, change, ticks, out)?;
    }
    Ok(())
}

/// Passes the changes to the first operator, and the changes that each operator returns to the next one.
fn feed_all<T: Turn>(
    alloc: Global,
    turns: &mut [T],
    changes: Vec<Change>,
    ticks: &mut Ticks,
    out: &mut Vec<Change>,
) -> Result<(), NoMemory>
    requires linked { AreLinked T.turning turns.old }
    requires exact { AllByRecursion IsExactChange changes.items }
    ensures forms { OnOk result (StagesStay T.turning turns.old turns.new) }
    ensures linked { OnOk result (StayLinkedAlong T.turning changes.items turns.old turns.new) }
    ensures out { OnOk result (out.new.items ≡ out.old.items ++ changes_returned T.turning changes.items turns.old) }
    ensures ticks { OnOk result (ticks.new ≡ raised ticks.old (work_done T.turning changes.items turns.old)) }
    ensures begins { OnErr result (BeginsWith out.new.items out.old.items) }
    ensures no_fewer { OnErr result (ticks.old ≤ ticks.new) }
{
    let Some((first, behind)) = turns.split_first_mut() else {
        return push_all(changes, out);
    };
    let mut handed = Vec::new(alloc);
    feed(first, changes, ticks, &mut handed)?;
    feed_all(alloc, behind, handed, ticks, out)
}

/// Passes the change to the operator that reads the list, and the changes that each operator returns to the next one.
fn feed_named<T: Turn>(
    alloc: Global,
    turns: &mut [T],
    place: usize,
    change: Change,
    ticks: &mut Ticks,
    out: &mut Vec<Change>,
) -> Result<(), NoMemory>
    requires linked { AreLinked T.turning turns.old }
    requires input { place < named_in (forms_of T.turning turns.old) }
    ensures forms { OnOk result (StagesFollow T.turning (Named place) change turns.old turns.new) }
    ensures linked { OnOk result (StayLinked T.turning (Named place) change turns.old turns.new) }
    ensures out { OnOk result (out.new.items ≡ out.old.items ++ changes_returned_in T.turning (Named place) change turns.old) }
    ensures ticks { OnOk result (ticks.new ≡ raised ticks.old (work_done_in T.turning (Named place) change turns.old)) }
    ensures begins { OnErr result (BeginsWith out.new.items out.old.items) }
    ensures no_fewer { OnErr result (ticks.old ≤ ticks.new) }
{
    let Some((first, behind)) = turns.split_first_mut() else {
        unreachable!()
    };
    let named = first.named();
    if place < named {
        let mut handed = Vec::new(alloc);
        first.change(Input::Named(place), change, ticks, &mut handed)?;
        feed_all(alloc, behind, handed, ticks, out)
    } else {
        feed_named(alloc, behind, place - named, change, ticks, out)
    }
}

/// Appends the changes to `out`.
fn push_all(changes: Vec<Change>, out: &mut Vec<Change>) -> Result<(), NoMemory>
    ensures out { OnOk result (out.new.items ≡ out.old.items ++ changes.items) }
    ensures begins { OnErr result (BeginsWith out.new.items out.old.items) }
{
    'changes: for change in changes {
        out.push(change)?;
    }
    Ok(())
}
