//! Operators that receive changes alone.

ghost use Rattle.std.specs.Prelude.{◌≡◌, ◌≤◌, ◌+◌, ◌++◌, List, [], length, OnErr, OnOk};
ghost use Rattle.std.specs.List.{AllByRecursion};
ghost use Rattle.dv_change.specs.Inner.Beginning.{BeginsWith};
ghost use Rattle.dv_change.specs.Changes.{Positioned};
ghost use Rattle.dv_change.specs.Inner.Changes.{IsPositioned};
ghost use Rattle.dv_change.specs.Inputs.{HasInput, left_after, others_after};
ghost use Rattle.dv_change.specs.Raised.{raised};
ghost use Rattle.dv_change.specs.Inner.Turning.{KeepsOneLength, KeepsPositions, Turning};
ghost use Rattle.dv_change.specs.Work.{owed};

use crate::change::Change;
use crate::input::Input;
use crate::ticks::Ticks;
use dv_value::NoMemory;

/// An operator: a stage of a pipeline that stores what it has taken in, and returns the changes of its result.
pub trait Turn {
    /// Its stage, with the lists that this reads by `$lookup`; the rows that it has taken in; and that it isn't spent.
    ghost turning: { Turning Self };

    /// How many lists it reads by `$lookup`.
    fn named(&self) -> usize
        ensures { result ≡ length (turning.form self.now).named };

    /// Takes in a change of an input, and appends the changes of its result to `out`. Counts 1 for the change and 1 for each that
    /// it returns. Fails with `NoMemory` when memory runs out; then it is spent and may only be dropped, `out` may have grown at
    /// its end, and `ticks` may have risen.
    fn change(
        &mut self,
        input: Input,
        change: Change,
        ticks: &mut Ticks,
        out: &mut Vec<Change>,
    ) -> Result<(), NoMemory>
        requires sound { turning.sound self.old }
        requires input { HasInput input (turning.form self.old).named }
        ensures sound { OnOk result (turning.sound self.new) }
        ensures makes { OnOk result ((turning.form self.new).makes ≡ (turning.form self.old).makes) }
        ensures left { OnOk result (turning.left self.new ≡ left_after input change (turning.left self.old)) }
        ensures others { OnOk result ((turning.form self.new).named ≡ others_after input change (turning.form self.old).named) }
        ensures out { OnOk result (out.new.items ≡ out.old.items ++ owed input change (turning.form self.old) (turning.left self.old)) }
        ensures ticks { OnOk result (ticks.new ≡ raised ticks.old (1 + length (owed input change (turning.form self.old) (turning.left self.old)))) }
        ensures begins { OnErr result (BeginsWith out.new.items out.old.items) }
        ensures no_fewer { OnErr result (ticks.old ≤ ticks.new) };

    /// The rows that it has taken in, also those of the lists, are at exact positions, in their order.
    ghost positioned: { (t : Self) → turning.sound t → IsPositioned (turning.left t) × AllByRecursion (λ rows. IsPositioned rows) (turning.form t).named };

    /// So is its result for such rows.
    ghost ordered: { (t : Self) → KeepsPositions (turning.form t) };

    /// For rows at positions of one length, its result has positions of one length.
    ghost even: { (t : Self) → KeepsOneLength (turning.form t) };

    /// Its result for no rows has no rows.
    ghost empty: { (t : Self) (named : List Positioned) → (turning.form t).makes named [] ≡ [] };
}
