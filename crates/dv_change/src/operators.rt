//! Operators one after the other, each of which receives the old row with each change.

ghost use Rattle.std.specs.Prelude.{◌≡◌, ◌∷◌, [], ◌++◌, IfOk, OnErr, OnOk, Some};
ghost use Rattle.std.specs.List.{AllByRecursion};
ghost use Rattle.std.specs.Option.{option_map};
ghost use Rattle.dv_change.specs.declared.input.Input.TheVariants.{Named};
ghost use Rattle.dv_change.specs.Inner.Beginning.{BeginsWith};
ghost use Rattle.dv_change.specs.Inner.Fed.{ChainFills, ChainStays, ChainTakes, ChainTakesIn, OperatorTakes, OperatorTakesOne};

use crate::input::Input;
use crate::operator::Operator;
use crate::position::Pos;
use crate::taking::Taken;
use crate::ticks::Ticks;
use dv_value::{Document, NoMemory};
use std::alloc::Global;
use std::collections::BTreeMap;
use std::marker::Model;

/// Operators one after the other. Each takes in the changes that the one before it returns.
#[derive(Drop)]
pub struct Operators<O: Operator + Drop> {
    alloc: Global,
    operators: Vec<O>,
}

impl<O: Operator + Drop> Model for Operators<O> {
    ghost use Rattle.std.specs.Prelude.{List};

    ghost Value = { List O };

    ghost view = { λ c. c.operators.items };
}

impl<O: Operator + Drop> Operators<O> {
    /// A chain of these operators.
    pub fn new(alloc: Global, operators: Vec<O>) -> Self
        ensures { result ≡ operators.items }
    {
        Operators { alloc, operators }
    }

    /// Takes in a change of an input, and appends the changes that the last operator returns to `out`. `made` has the rows of the
    /// last operator's result before the change. The lists that operators read by `$lookup` are counted from 0 through all of them.
    /// Fails with `NoMemory` when memory runs out; then it is spent and may only be dropped, `out` may have grown at its end, and
    /// nothing is said of what `ticks` counts.
    pub fn take(
        &mut self,
        input: Input,
        taken: Taken,
        made: &BTreeMap<Pos, Document>,
        ticks: &mut Ticks,
        out: &mut Vec<Taken>,
    ) -> Result<(), NoMemory>
        requires { AllByRecursion O.sound self.old }
        ensures sound { OnOk result (AllByRecursion O.sound self.new) }
        ensures passed { OnOk result (ChainTakesIn O.makes O.holds (Some made.now.entries) input taken self.old self.new out.old.items out.new.items ticks.old ticks.new) }
        ensures begins { OnErr result (BeginsWith out.new.items out.old.items) }
    {
        take_input(
            self.alloc,
            self.operators.as_mut_slice(),
            input,
            taken,
            Some(made),
            ticks,
            out,
        )
    }

    /// Takes in its first rows, given as the changes that insert them. Returns changes that lead from no rows to the last
    /// operator's result; counts nothing. Fails with `NoMemory` when memory runs out; then it is spent and may only be dropped.
    pub fn fill(&mut self, all: Vec<Taken>) -> Result<Vec<Taken>, NoMemory>
        requires { AllByRecursion O.sound self.old }
        ensures sound { OnOk result (AllByRecursion O.sound self.new) }
        ensures filled { IfOk result (λ made. ChainFills O.makes O.holds self.old self.new all.items made.items) }
    {
        fill_packed(self.alloc, self.operators.as_mut_slice(), all)
    }
}

/// Passes the change to the operator whose input it changes, and the changes that each operator returns to the next one.
fn take_input<O: Operator>(
    alloc: Global,
    operators: &mut [O],
    input: Input,
    taken: Taken,
    made: Option<&BTreeMap<Pos, Document>>,
    ticks: &mut Ticks,
    out: &mut Vec<Taken>,
) -> Result<(), NoMemory>
    requires { AllByRecursion O.sound operators.old }
    ensures sound { OnOk result (AllByRecursion O.sound operators.new) }
    ensures passed { OnOk result (ChainTakesIn O.makes O.holds (option_map (λ rows. rows.now.entries) made.entry) input taken operators.old operators.new out.old.items out.new.items ticks.old ticks.new) }
    ensures begins { OnErr result (BeginsWith out.new.items out.old.items) }
{
    match input {
        Input::Left => take_one(alloc, operators, taken, made, ticks, out),
        Input::Named(place) => take_named(alloc, operators, place, taken, made, ticks, out),
    }
}

/// Passes the changes to the operator, one after the other.
fn take_each<O: Operator>(
    operator: &mut O,
    all: Vec<Taken>,
    ticks: &mut Ticks,
    out: &mut Vec<Taken>,
) -> Result<(), NoMemory>
    requires { O.sound operator.old }
    ensures sound { OnOk result (O.sound operator.new) }
    ensures makes { OnOk result (O.makes operator.new ≡ O.makes operator.old) }
    ensures fed { OnOk result (OperatorTakes O.makes O.holds operator.old operator.new all.items out.old.items out.new.items ticks.old ticks.new) }
{
    'changes: for taken in all {
        operator.take(Input::Left, taken, ticks, out)?;
    }
    Ok(())
}

/// Passes a change to the last operator, with the rows of its result so far, if these are stored.
fn take_last<O: Operator>(
    operator: &mut O,
    taken: Taken,
    made: Option<&BTreeMap<Pos, Document>>,
    ticks: &mut Ticks,
    out: &mut Vec<Taken>,
) -> Result<(), NoMemory>
    requires { O.sound operator.old }
    ensures sound { OnOk result (O.sound operator.new) }
    ensures makes { OnOk result (O.makes operator.new ≡ O.makes operator.old) }
    ensures fed { OnOk result (OperatorTakesOne O.makes O.holds (option_map (λ rows. rows.now.entries) made.entry) operator.old operator.new taken out.old.items out.new.items ticks.old ticks.new) }
    ensures begins { OnErr result (BeginsWith out.new.items out.old.items) }
{
    match made {
        Some(rows) => operator.take_beside(Input::Left, taken, rows, ticks, out),
        None => operator.take(Input::Left, taken, ticks, out),
    }
}

/// Passes a change to the first operator, and the changes that each operator returns to the next one. `made` has the rows of the
/// last one's result so far, if these are stored.
#[cycle(passing)]
fn take_one<O: Operator>(
    alloc: Global,
    operators: &mut [O],
    taken: Taken,
    made: Option<&BTreeMap<Pos, Document>>,
    ticks: &mut Ticks,
    out: &mut Vec<Taken>,
) -> Result<(), NoMemory>
    requires { AllByRecursion O.sound operators.old }
    ensures sound { OnOk result (AllByRecursion O.sound operators.new) }
    ensures passed { OnOk result (ChainTakes O.makes O.holds (option_map (λ rows. rows.now.entries) made.entry) operators.old operators.new (taken ∷ []) out.old.items out.new.items ticks.old ticks.new) }
    ensures begins { OnErr result (BeginsWith out.new.items out.old.items) }
{
    let Some((first, behind)) = operators.split_first_mut() else {
        out.push(taken)?;
        return Ok(());
    };
    if behind.is_empty() {
        return take_last(first, taken, made, ticks, out);
    }
    let mut told = Vec::new(alloc);
    first.take(Input::Left, taken, ticks, &mut told)?;
    take_all(alloc, behind, told, made, ticks, out)
}

/// Does the same for several changes.
#[cycle(passing)]
fn take_all<O: Operator>(
    alloc: Global,
    operators: &mut [O],
    all: Vec<Taken>,
    made: Option<&BTreeMap<Pos, Document>>,
    ticks: &mut Ticks,
    out: &mut Vec<Taken>,
) -> Result<(), NoMemory>
    requires { AllByRecursion O.sound operators.old }
    ensures sound { OnOk result (AllByRecursion O.sound operators.new) }
    ensures passed { OnOk result (ChainTakes O.makes O.holds (option_map (λ rows. rows.now.entries) made.entry) operators.old operators.new all.items out.old.items out.new.items ticks.old ticks.new) }
    ensures begins { OnErr result (BeginsWith out.new.items out.old.items) }
{
    let mut all = all;
    if all.len() == 1 {
        let Some(taken) = all.pop() else {
            unreachable!()
        };
        return take_one(alloc, operators, taken, made, ticks, out);
    }
    let Some((first, behind)) = operators.split_first_mut() else {
        return push_all(all, out);
    };
    let mut told = Vec::new(alloc);
    take_each(first, all, ticks, &mut told)?;
    take_all(alloc, behind, told, made, ticks, out)
}

/// Passes the change to the operator that reads the list, and the changes that each operator returns to the next one.
fn take_named<O: Operator>(
    alloc: Global,
    operators: &mut [O],
    place: usize,
    taken: Taken,
    made: Option<&BTreeMap<Pos, Document>>,
    ticks: &mut Ticks,
    out: &mut Vec<Taken>,
) -> Result<(), NoMemory>
    requires { AllByRecursion O.sound operators.old }
    ensures sound { OnOk result (AllByRecursion O.sound operators.new) }
    ensures passed { OnOk result (ChainTakesIn O.makes O.holds (option_map (λ rows. rows.now.entries) made.entry) (Named place) taken operators.old operators.new out.old.items out.new.items ticks.old ticks.new) }
    ensures begins { OnErr result (BeginsWith out.new.items out.old.items) }
{
    let Some((first, behind)) = operators.split_first_mut() else {
        return Ok(());
    };
    let named = first.named();
    if place < named {
        let mut told = Vec::new(alloc);
        first.take(Input::Named(place), taken, ticks, &mut told)?;
        take_all(alloc, behind, told, made, ticks, out)
    } else {
        take_named(alloc, behind, place - named, taken, made, ticks, out)
    }
}

/// Has the operators take in their first rows, and returns the changes that the last one returns. What they store is packed into
/// less memory before that, so that the rows can use what this frees, and again afterwards.
fn fill_packed<O: Operator>(
    alloc: Global,
    operators: &mut [O],
    all: Vec<Taken>,
) -> Result<Vec<Taken>, NoMemory>
    requires { AllByRecursion O.sound operators.old }
    ensures sound { OnOk result (AllByRecursion O.sound operators.new) }
    ensures filled { IfOk result (λ made. ChainFills O.makes O.holds operators.old operators.new all.items made.items) }
{
    pack_all(operators)?;
    let made = fill_all(alloc, operators, all)?;
    pack_all(operators)?;
    Ok(made)
}

/// Has the operators take in their first rows: each row goes through all of them, so that the rows between operators are dropped
/// right away. But up to the last operator that takes its first rows in at once, each operator takes in all rows before the next
/// one does. Returns the changes that the last one returns.
fn fill_all<O: Operator>(
    alloc: Global,
    operators: &mut [O],
    all: Vec<Taken>,
) -> Result<Vec<Taken>, NoMemory>
    requires { AllByRecursion O.sound operators.old }
    ensures sound { OnOk result (AllByRecursion O.sound operators.new) }
    ensures filled { IfOk result (λ made. ChainFills O.makes O.holds operators.old operators.new all.items made.items) }
{
    if !is_one_filled_at_once(operators) {
        return fill_each(alloc, operators, all);
    }
    let Some((first, behind)) = operators.split_first_mut() else {
        return Ok(all);
    };
    let made = first.fill(all)?;
    fill_all(alloc, behind, made)
}

/// Whether one of the operators takes its first rows in at once.
fn is_one_filled_at_once<O: Operator>(operators: &[O]) -> bool {
    operators
        .iter()
        .any(|operator| operator.is_filled_at_once())
}

/// Has the operators take in their first rows, each row through all of them before the next row. Returns the changes that the last
/// one returns.
fn fill_each<O: Operator>(
    alloc: Global,
    operators: &mut [O],
    all: Vec<Taken>,
) -> Result<Vec<Taken>, NoMemory>
    requires { AllByRecursion O.sound operators.old }
    ensures sound { OnOk result (AllByRecursion O.sound operators.new) }
    ensures filled { IfOk result (λ made. ChainFills O.makes O.holds operators.old operators.new all.items made.items) }
{
    let mut ticks = Ticks::new();
    let mut made = Vec::new(alloc);
    'changes: for taken in all {
        take_one(alloc, operators, taken, None, &mut ticks, &mut made)?;
    }
    Ok(made)
}

/// Has the operators store what they keep in less memory, if they can.
fn pack_all<O: Operator>(operators: &mut [O]) -> Result<(), NoMemory>
    requires { AllByRecursion O.sound operators.old }
    ensures sound { OnOk result (AllByRecursion O.sound operators.new) }
    ensures held { OnOk result (ChainStays O.makes O.holds operators.old operators.new) }
{
    let Some((first, behind)) = operators.split_first_mut() else {
        return Ok(());
    };
    first.pack()?;
    pack_all(behind)
}

/// Appends the changes to `out`.
fn push_all(all: Vec<Taken>, out: &mut Vec<Taken>) -> Result<(), NoMemory>
    ensures out { OnOk result (out.new.items ≡ out.old.items ++ all.items) }
    ensures begins { OnErr result (BeginsWith out.new.items out.old.items) }
{
    'all: for taken in all {
        out.push(taken)?;
    }
    Ok(())
}
