//! Operators that receive the old row with each change.

ghost use Rattle.std.specs.Prelude.{◌≡◌, ◌≤◌, List, [], length, IfOk, OnErr, OnOk};
ghost use Rattle.std.specs.List.{AllByRecursion};
ghost use Rattle.dv_change.specs.Inner.Beginning.{BeginsWith};
ghost use Rattle.dv_change.specs.Changes.{Positioned};
ghost use Rattle.dv_change.specs.Inner.Changes.{HaveOneLength, IsPositioned};
ghost use Rattle.dv_change.specs.Inner.Fed.{OperatorFills};
ghost use Rattle.dv_change.specs.Inner.Told.{CountsBeside, CountsChanges, ReturnsBeside, ReturnsTaken, StaysTaken, TakesIn};

use crate::input::Input;
use crate::position::Pos;
use crate::taking::Taken;
use crate::ticks::Ticks;
use dv_value::{Document, NoMemory};
use std::collections::BTreeMap;

/// An operator: a stage of a pipeline that receives each change with the row that was at its position, and returns the changes of
/// its result in the same way. Of what it has taken in, it stores only what it needs for that.
pub trait Operator {
    /// Its result for the lists that it reads by `$lookup` and for its rows.
    ghost makes: { Self → List Positioned → Positioned → Positioned };

    /// It isn't spent.
    ghost sound: { Self → Type 0 };

    /// It may have taken in these lists and these rows.
    ghost holds: { Self → List Positioned → Positioned → Type 0 };

    /// How many lists it reads by `$lookup`.
    fn named(&self) -> usize
        ensures { (others : List Positioned) (left : Positioned) → holds self.now others left → result ≡ length others };

    /// Takes in a change of an input, and appends the changes of its result to `out`. Counts 1 for the change and 1 for each that
    /// it returns. Fails with `NoMemory` when memory runs out; then it is spent and may only be dropped, `out` may have grown at
    /// its end, and `ticks` may have risen.
    fn take(
        &mut self,
        input: Input,
        taken: Taken,
        ticks: &mut Ticks,
        out: &mut Vec<Taken>,
    ) -> Result<(), NoMemory>
        requires { sound self.old }
        ensures sound { OnOk result (sound self.new) }
        ensures makes { OnOk result (makes self.new ≡ makes self.old) }
        ensures holds { OnOk result (TakesIn (holds self.old) input taken (holds self.new)) }
        ensures out { OnOk result (ReturnsTaken (holds self.old) input taken (makes self.old) out.old.items out.new.items) }
        ensures ticks { OnOk result (CountsChanges (holds self.old) input taken (makes self.old) ticks.old ticks.new) }
        ensures begins { OnErr result (BeginsWith out.new.items out.old.items) }
        ensures no_fewer { OnErr result (ticks.old ≤ ticks.new) };

    /// Takes in a change, as `take` does. `made` has the rows of its result before the change: it may take its old rows from these,
    /// and need not compute them again.
    fn take_beside(
        &mut self,
        input: Input,
        taken: Taken,
        made: &BTreeMap<Pos, Document>,
        ticks: &mut Ticks,
        out: &mut Vec<Taken>,
    ) -> Result<(), NoMemory>
        requires { sound self.old }
        ensures sound { OnOk result (sound self.new) }
        ensures makes { OnOk result (makes self.new ≡ makes self.old) }
        ensures holds { OnOk result (TakesIn (holds self.old) input taken (holds self.new)) }
        ensures out { OnOk result (ReturnsBeside (holds self.old) input taken made.now.entries (makes self.old) out.old.items out.new.items) }
        ensures ticks { OnOk result (CountsBeside (holds self.old) input taken made.now.entries (makes self.old) ticks.old ticks.new) }
        ensures begins { OnErr result (BeginsWith out.new.items out.old.items) }
        ensures no_fewer { OnErr result (ticks.old ≤ ticks.new) }
    {
        let _ = made;
        self.take(input, taken, ticks, out)
    }

    /// Whether taking in its first rows costs less if it gets them all at once, as when it makes one row of many.
    fn is_filled_at_once(&self) -> bool {
        false
    }

    /// Takes in its first rows, given as the changes that insert them. Returns changes that lead from no rows to its result for
    /// these rows; counts nothing. Fails with `NoMemory` when memory runs out; then it is spent and may only be dropped.
    fn fill(&mut self, all: Vec<Taken>) -> Result<Vec<Taken>, NoMemory>
        requires { sound self.old }
        ensures sound { OnOk result (sound self.new) }
        ensures makes { OnOk result (makes self.new ≡ makes self.old) }
        ensures filled { IfOk result (λ made. OperatorFills makes holds self.old self.new all.items made.items) }
    {
        let mut made = Vec::new(*all.allocator());
        let mut ticks = Ticks::new();
        'changes: for taken in all {
            self.take(Input::Left, taken, &mut ticks, &mut made)?;
        }
        Ok(made)
    }

    /// Stores what it keeps in less memory, if it can; what it has taken in stays the same. Called before and after its first rows.
    /// Fails with `NoMemory` when memory runs out; then it is spent and may only be dropped.
    fn pack(&mut self) -> Result<(), NoMemory>
        requires { sound self.old }
        ensures sound { OnOk result (sound self.new) }
        ensures makes { OnOk result (makes self.new ≡ makes self.old) }
        ensures holds { OnOk result (StaysTaken (holds self.old) (holds self.new)) }
    {
        Ok(())
    }

    /// What it may have taken in, rows and lists, is at exact positions, in their order.
    ghost positioned: { (o : Self) (others : List Positioned) (left : Positioned) → holds o others left → IsPositioned left × AllByRecursion (λ rows. IsPositioned rows) others };

    /// So is its result for such rows.
    ghost ordered: { (o : Self) (others : List Positioned) (rows : Positioned) → IsPositioned rows → IsPositioned (makes o others rows) };

    /// For rows at positions of one length, its result has positions of one length.
    ghost even: { (o : Self) (others : List Positioned) (rows : Positioned) → IsPositioned rows → HaveOneLength rows → HaveOneLength (makes o others rows) };

    /// Its result for no rows has no rows.
    ghost empty: { (o : Self) (others : List Positioned) → makes o others [] ≡ [] };
}
