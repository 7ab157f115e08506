//! The rows of groups before a change, and after it.

ghost use Rattle.std.specs.Prelude.{◌≡◌, ◌≤◌, ◌+◌, ◌∷◌, ◌++◌, [], length, IfOk, OnErr, OnOk};
ghost use Rattle.dv_change.specs.Inner.Beginning.{BeginsWith};
ghost use Rattle.dv_change.specs.Inner.Told.{diff_told};
ghost use Rattle.dv_change.specs.Raised.{raised};
ghost use Rattle.dv_change.specs.declared.position.Part.TheVariants.{Up};
ghost use Rattle.dv_group.specs.Inner.Members as defined;
ghost use Rattle.dv_group.specs.Inner.Members.{ShowAlike, put_some, rows_after, rows_before};

use dv_change::{Ordered, Part, Pos, Taken, Ticks, hand_over, hand_over_at};
use dv_order::Key;
use dv_value::{Document, NoMemory};
use std::alloc::Global;

/// Whether the rows of groups are wanted before a change of their rows, and after it.
#[derive(Clone, Copy)]
pub(crate) enum RowsWanted<'r> {
    /// They aren't wanted.
    Unwanted,
    /// They are wanted. They may share names with this row, if there is one.
    Wanted(Option<&'r Document>),
}

impl<'r> RowsWanted<'r> {
    /// The same, but names may be shared with this row instead, if there is one.
    pub(crate) fn beside(self, row: &'r Option<Document>) -> Self
        ensures { ShowAlike self.entry result }
    {
        match (self, row) {
            (RowsWanted::Wanted(_), Some(row)) => RowsWanted::Wanted(Some(row)),
            _ => self,
        }
    }
}

/// The row of a group before a change of its rows, and after it; none if it isn't wanted.
#[derive(Drop)]
pub(crate) struct Transition {
    pub(crate) before: Option<Document>,
    pub(crate) after: Option<Document>,
}

/// The rows of groups before a change, and after it.
#[derive(Drop)]
pub(crate) enum Transitions {
    /// Those of one group, at its key.
    One(Pos, Transition),
    /// Those of several groups or of none, at their keys: before, and after.
    Several(Ordered<Document>, Ordered<Document>),
}

impl Transitions {
    /// Those of the group of the key, if there is a key. Fails when memory runs out.
    pub(crate) fn of_one(
        alloc: Global,
        key: &Option<Key>,
        transition: Transition,
    ) -> Result<Self, NoMemory>
        ensures before { IfOk result (λ one. rows_before one ≡ defined.with_row key.now transition.before []) }
        ensures after { IfOk result (λ one. rows_after one ≡ defined.with_row key.now transition.after []) }
    {
        match key {
            Some(key) => Ok(Transitions::One(place_of(alloc, key)?, transition)),
            None => Ok(Transitions::Several(Ordered::new(alloc), Ordered::new(alloc))),
        }
    }

    /// Those of the groups of two keys, if there are keys. Fails when memory runs out.
    pub(crate) fn of_two(
        alloc: Global,
        key: &Option<Key>,
        left: Transition,
        other: &Option<Key>,
        come: Transition,
    ) -> Result<Self, NoMemory>
        ensures before { IfOk result (λ both. rows_before both ≡ defined.with_row other.now come.before (defined.with_row key.now left.before [])) }
        ensures after { IfOk result (λ both. rows_after both ≡ defined.with_row other.now come.after (defined.with_row key.now left.after [])) }
    {
        match (key, other) {
            (Some(key), Some(other)) => Ok(Transitions::Several(
                rows_of_two(alloc, key, left.before, other, come.before)?,
                rows_of_two(alloc, key, left.after, other, come.after)?,
            )),
            (None, _) => Transitions::of_one(alloc, other, come),
            (_, None) => Transitions::of_one(alloc, key, left),
        }
    }

    /// One of the rows after the change, if there is one.
    pub(crate) fn row_after(&self) -> Option<&Document> {
        match self {
            Transitions::One(_, transition) => transition.after.as_ref(),
            Transitions::Several(_, after) => first_row(after),
        }
    }

    /// Appends to `out` the changes from the rows before to the rows after, as `hand_over` does.
    pub(crate) fn tell(&self, ticks: &mut Ticks, out: &mut Vec<Taken>) -> Result<(), NoMemory>
        ensures out { OnOk result (out.new.items ≡ out.old.items ++ diff_told (rows_before self.now) (rows_after self.now)) }
        ensures ticks { OnOk result (ticks.new ≡ raised ticks.old (1 + length (diff_told (rows_before self.now) (rows_after self.now)))) }
        ensures begins { OnErr result (BeginsWith out.new.items out.old.items) }
        ensures no_fewer { OnErr result (ticks.old ≤ ticks.new) }
    {
        match self {
            Transitions::One(place, transition) => {
                hand_over_at(place, &transition.before, &transition.after, ticks, out)
            }
            Transitions::Several(before, after) => hand_over(before, after, ticks, out),
        }
    }
}

/// The first of the rows, if there is one.
pub(crate) fn first_row(rows: &Ordered<Document>) -> Option<&Document> {
    match rows.first() {
        Some((_, row)) => Some(row),
        None => None,
    }
}

/// The rows of the groups of two keys, if they have one. Fails when memory runs out.
fn rows_of_two(
    alloc: Global,
    key: &Key,
    row: Option<Document>,
    other: &Key,
    beside: Option<Document>,
) -> Result<Ordered<Document>, NoMemory>
    ensures { IfOk result (λ rows. rows ≡ put_some (Up other.now ∷ []) beside (put_some (Up key.now ∷ []) row [])) }
{
    let rows = with_row(alloc, Ordered::new(alloc), key, row)?;
    with_row(alloc, rows, other, beside)
}

/// The rows, with the row of the group of the key, if it has one. Fails when memory runs out.
pub(crate) fn with_row(
    alloc: Global,
    rows: Ordered<Document>,
    key: &Key,
    row: Option<Document>,
) -> Result<Ordered<Document>, NoMemory>
    ensures { IfOk result (λ more. more ≡ put_some (Up key.now ∷ []) row rows) }
{
    match row {
        Some(row) => rows.with(place_of(alloc, key)?, row),
        None => Ok(rows),
    }
}

/// The position of the row of the group of the key. Fails when memory runs out.
fn place_of(alloc: Global, key: &Key) -> Result<Pos, NoMemory>
    ensures { IfOk result (λ pos. pos ≡ Up key.now ∷ []) }
{
    Pos::of_part(alloc, Part::Up(key.try_clone()?))
}
