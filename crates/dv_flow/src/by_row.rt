//! Operators for stages that compute their rows from each row separately. Each change comes with the row that was at its position.

ghost use Rattle.std.specs.Prelude.{◌≡◌, ◌≤◌, ◌∷◌, [], Some, IfOk, IfSome, OnErr, OnOk};
ghost use Rattle.std.specs.Option.{option_map};
ghost use Rattle.std.specs.declared.cmp.Ordering.TheVariants.{Equal};
ghost use Rattle.dv_change.specs.Changes.{Positioned, at};
ghost use Rattle.dv_change.specs.Inner.Beginning.{BeginsWith};
ghost use Rattle.dv_change.specs.Inner.Changes.{HaveOneLength, IsPositioned, alone};
ghost use Rattle.dv_change.specs.Positions.{IsExact, PosTree, pos_order};
ghost use Rattle.dv_change.specs.Inner.Told.{TakesIn, no_lists};
ghost use Rattle.dv_flow.specs.Inner.Rows.{AreApart, AreMadeOf, CountsKept, HoldsRows, ReturnsKept, TellsApart, WereMadeOf, row_makes};

use dv_change::{Input, Operator, Ordered, Pos, Taken, Ticks, hand_over};
use dv_value::{Document, NoMemory};
use std::alloc::Global;
use std::collections::BTreeMap;

/// The rows that a stage returns for one row at a position, and those for another row there. Rows that both lists have may be left
/// out of both.
#[derive(Drop)]
pub struct RowsApart {
    /// The rows for the first row.
    pub old: Ordered<Document>,
    /// The rows for the other row.
    pub new: Ordered<Document>,
}

/// A stage that computes its rows from each row separately, at positions that say from which row they were computed.
pub trait ByRow {
    /// The rows that it returns for these rows.
    ghost makes: { Self → Positioned → Positioned };

    /// The position of the row from which it computes the row at this position.
    ghost origin: { Self → PosTree → PosTree };

    /// A copy of the stage. Fails with `NoMemory` when memory runs out.
    fn try_clone(&self) -> Result<Self, NoMemory>
    where
        Self: Sized,
        ensures { IfOk result (λ copy. copy ≡ self.now) };

    /// The rows that it returns for a row at a position. They may share names with `before`, a row that it returned earlier. Fails
    /// with `NoMemory` when memory runs out.
    fn rows_of(
        &self,
        alloc: Global,
        pos: &Pos,
        row: &Document,
        before: Option<&Document>,
    ) -> Result<Ordered<Document>, NoMemory>
        ensures { IfOk result (λ rows. rows ≡ makes self.now ((pos.now, row.now) ∷ [])) };

    /// The rows that it returned for the row at a position, if `made` has the rows that it returned for all its rows: it may take
    /// them from there. They may share names with `before`, a row that it returned earlier. Fails with `NoMemory` when memory runs
    /// out.
    fn rows_beside(
        &self,
        alloc: Global,
        pos: &Pos,
        row: &Document,
        made: &BTreeMap<Pos, Document>,
        before: Option<&Document>,
    ) -> Result<Ordered<Document>, NoMemory>
        ensures { IfOk result (λ rows. AreMadeOf (makes self.now) made.now.entries pos.now (Some row.now) rows) }
    {
        let _ = made;
        self.rows_of(alloc, pos, row, before)
    }

    /// The rows that it returns for one row at a position, and those for another row there, if it can find out which rows both
    /// lists have before it computes them; otherwise `None`. Fails with `NoMemory` when memory runs out.
    fn rows_apart(
        &self,
        alloc: Global,
        pos: &Pos,
        old: &Document,
        new: &Document,
    ) -> Result<Option<RowsApart>, NoMemory>
        ensures { IfOk result (λ apart. IfSome apart (AreApart (makes self.now ((pos.now, old.now) ∷ [])) (makes self.now ((pos.now, new.now) ∷ [])))) }
    {
        let _ = alloc;
        let _ = pos;
        let _ = old;
        let _ = new;
        Ok(None)
    }

    /// For rows at exact positions, in ascending order, it returns rows at exact positions, in ascending order.
    ghost ordered: { (s : Self) (rows : Positioned) → IsPositioned rows → IsPositioned (makes s rows) };

    /// For rows at positions of one length it returns rows at positions of one length.
    ghost even: { (s : Self) (rows : Positioned) → IsPositioned rows → HaveOneLength rows → HaveOneLength (makes s rows) };

    /// For no rows it returns none.
    ghost empty: { (s : Self) → makes s [] ≡ [] };

    /// If a position is exact, so is its origin.
    ghost exact: { (s : Self) (q : PosTree) → IsExact q → IsExact (origin s q) };

    /// The row at a position is computed from one row alone.
    ghost single: { (s : Self) (rows : Positioned) (q p : PosTree) → IsPositioned rows → IsExact q → IsExact p → pos_order (origin s q) p ≡ Equal → at q (makes s rows) ≡ at q (makes s (alone p (at p rows))) };
}

/// The operator for a stage that computes its rows from each row separately. It keeps none of the rows that it takes in.
#[derive(Drop)]
pub struct RowOperator<S> {
    alloc: Global,
    stage: S,
    /// A row that it returned, with which later rows share names.
    last: Option<Document>,
}

impl<S: ByRow> RowOperator<S> {
    /// The stage, which has taken in nothing. Fails with `NoMemory` when memory runs out.
    pub fn new(alloc: Global, stage: &S) -> Result<Self, NoMemory>
        ensures stage { IfOk result (λ o. o.stage ≡ stage.now) }
        ensures holds { IfOk result (λ o. HoldsRows o [] []) }
    {
        Ok(RowOperator {
            alloc,
            stage: stage.try_clone()?,
            last: None,
        })
    }

    /// Takes in a change of an input, and appends the changes of its rows to `out`. If `made` is given, it has the rows that the
    /// stage returned before the change, and the old rows may be taken from there. Counts 1 for the change and 1 for each change
    /// that it returns.
    fn take_change(
        &mut self,
        input: Input,
        taken: &Taken,
        made: Option<&BTreeMap<Pos, Document>>,
        ticks: &mut Ticks,
        out: &mut Vec<Taken>,
    ) -> Result<(), NoMemory>
        ensures makes { OnOk result (row_makes S.makes self.new ≡ row_makes S.makes self.old) }
        ensures holds { OnOk result (TakesIn (HoldsRows self.old) input taken.now (HoldsRows self.new)) }
        ensures out { OnOk result (ReturnsKept S.makes self.old input taken.now (option_map (λ m. m.now.entries) made.entry) out.old.items out.new.items) }
        ensures ticks { OnOk result (CountsKept S.makes self.old input taken.now (option_map (λ m. m.now.entries) made.entry) ticks.old ticks.new) }
        ensures begins { OnErr result (BeginsWith out.new.items out.old.items) }
        ensures no_fewer { OnErr result (ticks.old ≤ ticks.new) }
    {
        match input {
            Input::Left => {
                let rows = self.apart(taken, made)?;
                self.keep_last(&rows.new)?;
                hand_over(&rows.old, &rows.new, ticks, out)
            }
            Input::Named(_) => Ok(()),
        }
    }

    /// Keeps the first of these rows, if there is one, so that later rows can share its names.
    fn keep_last(&mut self, made: &Ordered<Document>) -> Result<(), NoMemory>
        ensures { self.new.stage ≡ self.old.stage }
    {
        if let Some((_, row)) = made.first() {
            self.last = Some(row.try_clone()?);
        }
        Ok(())
    }

    /// The rows that it returns for the row at the position, if there is one.
    fn made(&self, pos: &Pos, row: &Option<Document>) -> Result<Ordered<Document>, NoMemory>
        ensures { IfOk result (λ rows. rows ≡ S.makes self.now.stage (alone pos.now row.now)) }
    {
        match row {
            Some(row) => { self.stage.rows_of(self.alloc, pos, row, self.last.as_ref()) }
            None => Ok(Ordered::new(self.alloc)),
        }
    }

    /// The rows that it returned for the row at the position, if there is one. If `made` is given, it has all rows that it
    /// returned, and these may be taken from there.
    fn made_before(
        &self,
        pos: &Pos,
        row: &Option<Document>,
        made: Option<&BTreeMap<Pos, Document>>,
    ) -> Result<Ordered<Document>, NoMemory>
        ensures { IfOk result (λ rows. WereMadeOf (S.makes self.now.stage) (option_map (λ m. m.now.entries) made.entry) pos.now row.now rows) }
    {
        match (row, made) {
            (Some(row), Some(made)) => {
                let last = self.last.as_ref();
                self.stage.rows_beside(self.alloc, pos, row, made, last)
            }
            _ => self.made(pos, row),
        }
    }

    /// The rows that it returned for the row that was at the position of a change, and those that it returns for the row that is
    /// there now. If `made` is given, it has all rows that it returned, and the old rows may be taken from there.
    fn apart(
        &self,
        taken: &Taken,
        made: Option<&BTreeMap<Pos, Document>>,
    ) -> Result<RowsApart, NoMemory>
        ensures { IfOk result (λ rows. TellsApart (S.makes self.now.stage) (option_map (λ m. m.now.entries) made.entry) taken.now rows) }
    {
        if let (Some(old), Some(new)) = (&taken.old, &taken.new) {
            if let Some(rows) = self.stage.rows_apart(self.alloc, &taken.pos, old, new)? {
                return Ok(rows);
            }
        }
        Ok(RowsApart {
            old: self.made_before(&taken.pos, &taken.old, made)?,
            new: self.made(&taken.pos, &taken.new)?,
        })
    }
}

impl<S: ByRow> Operator for RowOperator<S> {
    ghost makes = { row_makes S.makes };

    ghost sound = { λ o. Unit {0} };

    ghost holds = { HoldsRows };

    ghost positioned = { λ o others left held. (held.positioned, no_lists others held.none) };

    ghost ordered = { λ o others rows are. S.ordered o.stage rows are };

    ghost even = { λ o others rows are one. S.even o.stage rows are one };

    ghost empty = { λ o others. S.empty o.stage };

    fn named(&self) -> usize {
        0
    }

    fn take(
        &mut self,
        input: Input,
        taken: Taken,
        ticks: &mut Ticks,
        out: &mut Vec<Taken>,
    ) -> Result<(), NoMemory> {
        self.take_change(input, &taken, None, ticks, out)
    }

    fn take_beside(
        &mut self,
        input: Input,
        taken: Taken,
        made: &BTreeMap<Pos, Document>,
        ticks: &mut Ticks,
        out: &mut Vec<Taken>,
    ) -> Result<(), NoMemory> {
        self.take_change(input, &taken, Some(made), ticks, out)
    }
}
