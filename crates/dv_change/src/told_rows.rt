//! The rows of operators that receive the old row with each change.

ghost use Rattle.std.specs.Prelude.{◌≡◌, ◌↔◌, ◌++◌, List, [], filter, length, IfOk, IsTrue, OnErr, OnOk};
ghost use Rattle.std.specs.BTreeMap.Range.{IsLeBy, IsLtBy, range_contains};
ghost use Rattle.std.specs.Range.Bound.{IsForward};
ghost use Rattle.dv_change.specs.Changes.{Positioned, forget, with_change, with_changes};
ghost use Rattle.dv_change.specs.Inner.Beginning.{BeginsWith};
ghost use Rattle.dv_change.specs.Inner.Changes.{IsPositioned};
ghost use Rattle.dv_change.specs.Inner.Told.{changes_told};
ghost use Rattle.dv_change.specs.Inner.ToldRows.{AreSound, FillsTold, HasMade, StartsToldRows, TakesTold};
ghost use Rattle.dv_change.specs.Positions.{pos_order};
ghost use Rattle.dv_change.specs.Work.{Transform};

use crate::change::Change;
use crate::input::Input;
use crate::operator::Operator;
use crate::operators::Operators;
use crate::packed::packed;
use crate::position::Pos;
use crate::taking::Taken;
use crate::ticks::Ticks;
use dv_value::{Document, NoMemory};
use std::alloc::Global;
use std::collections::BTreeMap;
use std::collections::btree_map::{Iter, Range, Values};
use std::ops::Bound;

/// The rows that come out of operators, and the count of the work that their changes took. Each change comes with the row that was
/// at its position, so nothing of the input is stored except what the operators keep of it.
#[derive(Drop)]
pub struct ToldRows<O: Operator + Drop> {
    alloc: Global,
    operators: Operators<O>,
    /// The rows that come out of the last operator.
    rows: BTreeMap<Pos, Document>,
    ticks: Ticks,
}

impl<O: Operator + Drop> ToldRows<O> {
    /// The rows of operators that have taken in no rows.
    pub fn new(alloc: Global, operators: Vec<O>) -> Self
        ensures operators { result.operators ≡ operators.items }
        ensures rows { result.rows.entries ≡ [] }
        ensures ticks { result.ticks ≡ 0 }
        ensures made { StartsToldRows O.makes O.holds operators.items result }
    {
        ToldRows {
            alloc,
            operators: Operators::new(alloc, operators),
            rows: BTreeMap::new(alloc),
            ticks: Ticks::new(),
        }
    }

    /// Takes in a change of an input, and appends the changes of its rows to `told`. The lists that operators read by `$lookup` are
    /// counted from 0 through all of them. Fails with `NoMemory` when memory runs out; then all is dropped, and `told` may have
    /// grown at its end.
    pub fn take(self, input: Input, taken: Taken, told: &mut Vec<Taken>) -> Result<Self, NoMemory>
        requires { AreSound O.sound self }
        ensures sound { IfOk result (λ rows. AreSound O.sound rows) }
        ensures taken { IfOk result (λ rows. TakesTold O.makes O.holds input taken self rows told.old.items told.new.items) }
        ensures begins { OnErr result (BeginsWith told.new.items told.old.items) }
    {
        let mut live = self;
        taken.law_exact();
        let mut out = Vec::new(live.alloc);
        live.operators
            .take(input, taken, &live.rows, &mut live.ticks, &mut out)?;
        put_all(&mut live.rows, out, told)?;
        Ok(live)
    }

    /// Takes in its first rows, given as the changes that insert them, and counts nothing. Fails with `NoMemory` when memory runs
    /// out; then all is dropped.
    pub fn fill(self, all: Vec<Taken>) -> Result<Self, NoMemory>
        requires { AreSound O.sound self }
        ensures sound { IfOk result (λ rows. AreSound O.sound rows) }
        ensures made { IfOk result (λ rows. FillsTold O.makes O.holds all.items self rows) }
        ensures ticks { IfOk result (λ rows. rows.ticks ≡ self.ticks) }
    {
        let mut live = self;
        let made = live.operators.fill(all)?;
        put_each(&mut live.rows, made)?;
        live.rows = packed(live.alloc, live.rows)?;
        Ok(live)
    }

    /// The same rows, with a count of 0.
    pub fn counted_anew(self) -> Self
        ensures operators { result.operators ≡ self.operators }
        ensures rows { result.rows.entries ≡ self.rows.entries }
        ensures ticks { result.ticks ≡ 0 }
    {
        let mut live = self;
        live.ticks = Ticks::new();
        live
    }

    /// The rows, in the order of their positions.
    pub fn rows(&self) -> Values<'_, Pos, Document>
        ensures { result ≡ forget self.now.rows.entries }
    {
        self.rows.values()
    }

    /// The rows, each with its position, in the order of these.
    pub fn entries(&self) -> Iter<'_, Pos, Document>
        ensures { result ≡ self.now.rows.entries }
    {
        self.rows.iter()
    }

    /// The rows whose positions are between two ends, each with its position, in the order of these. Takes no memory.
    pub fn between(&self, low: Bound<Pos>, high: Bound<Pos>) -> Range<'_, Pos, Document>
        requires { IsForward (IsLeBy pos_order) (IsLtBy pos_order) low high }
        ensures { result ≡ filter (λ e. range_contains pos_order low high e.0) self.now.rows.entries }
    {
        self.rows.range((low, high))
    }

    /// How many rows there are.
    pub fn len(&self) -> usize
        ensures { result ≡ length self.now.rows.entries }
    {
        self.rows.len()
    }

    /// Whether there is no row.
    pub fn is_empty(&self) -> bool
        ensures { IsTrue result ↔ (self.now.rows.entries ≡ []) }
    {
        self.rows.is_empty()
    }

    /// The count of the work that its changes took: for each operator, 1 for each change that it took in and 1 for each that it
    /// returned.
    pub fn ticks(&self) -> u64
        ensures { result ≡ self.now.ticks }
    {
        self.ticks.count()
    }
}

/// Applies the changes to the rows, one after the other, and appends each to `told`.
fn put_all(
    rows: &mut BTreeMap<Pos, Document>,
    all: Vec<Taken>,
    told: &mut Vec<Taken>,
) -> Result<(), NoMemory>
    requires { IsPositioned rows.old.entries }
    ensures rows { OnOk result (rows.new.entries ≡ with_changes rows.old.entries (changes_told all.items)) }
    ensures positioned { OnOk result (IsPositioned rows.new.entries) }
    ensures told { OnOk result (told.new.items ≡ told.old.items ++ all.items) }
    ensures begins { OnErr result (BeginsWith told.new.items told.old.items) }
{
    'all: for taken in all {
        put(rows, taken.change()?)?;
        told.push(taken)?;
    }
    Ok(())
}

/// Applies the changes to the rows, one after the other.
fn put_each(rows: &mut BTreeMap<Pos, Document>, all: Vec<Taken>) -> Result<(), NoMemory>
    requires { IsPositioned rows.old.entries }
    ensures rows { OnOk result (rows.new.entries ≡ with_changes rows.old.entries (changes_told all.items)) }
    ensures positioned { OnOk result (IsPositioned rows.new.entries) }
{
    'all: for taken in all {
        put(rows, taken.into_change())?;
    }
    Ok(())
}

/// Applies the change to the rows.
fn put(rows: &mut BTreeMap<Pos, Document>, change: Change) -> Result<(), NoMemory>
    requires { IsPositioned rows.old.entries }
    ensures rows { OnOk result (rows.new.entries ≡ with_change rows.old.entries change) }
    ensures positioned { OnOk result (IsPositioned rows.new.entries) }
{
    change.law_exact();
    match change {
        Change::Put { pos, row } => drop(rows.insert(pos, row)?),
        Change::Gone { pos } => drop(rows.remove(&pos)),
    }
    Ok(())
}
