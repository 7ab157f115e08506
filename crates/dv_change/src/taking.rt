//! How a stage takes in a change of its rows.

ghost use Rattle.std.specs.Prelude.{◌≡◌, IfOk, OnOk};
ghost use Rattle.dv_change.specs.Changes.{at, with_change};
ghost use Rattle.dv_change.specs.Inner.Changes.{IsExactChange, IsPositioned, alone, position_changed, row_in};
ghost use Rattle.dv_change.specs.Inner.Told.{change_told};
ghost use Rattle.dv_change.specs.Positions.{IsExact};

use crate::change::Change;
use crate::ordered::Ordered;
use crate::position::Pos;
use dv_value::{Document, NoMemory};
use std::alloc::Global;
use std::collections::BTreeMap;

/// What a change did to rows: at which position, which row was there, and which one is there now.
#[derive(Debug, Drop)]
pub struct Taken {
    /// The position.
    pub pos: Pos,
    /// The row that was there, if any.
    pub old: Option<Document>,
    /// The row that is there now, if any.
    pub new: Option<Document>,
}

impl Taken {
    /// A copy, which shares the memory of the rows. Fails with `NoMemory` when memory runs out.
    pub fn try_clone(&self) -> Result<Self, NoMemory>
        ensures { IfOk result (λ copy. copy ≡ self.now) }
    {
        Ok(Taken {
            pos: self.pos.try_clone()?,
            old: copied(&self.old)?,
            new: copied(&self.new)?,
        })
    }

    /// The change, which shares the memory of the row. Fails with `NoMemory` when memory runs out.
    pub fn change(&self) -> Result<Change, NoMemory>
        ensures { IfOk result (λ change. change ≡ change_told self.now) }
    {
        let pos = self.pos.try_clone()?;
        match &self.new {
            Some(row) => Ok(Change::Put {
                pos,
                row: row.try_clone()?,
            }),
            None => Ok(Change::Gone { pos }),
        }
    }

    /// Each key of its position is the key of some value, or the one key that no value has. Does nothing.
    pub fn law_exact(&self)
        ensures { IsExact self.now.pos }
    {
        self.pos.law_exact();
    }

    /// The change.
    pub(crate) fn into_change(self) -> Change
        ensures { result ≡ change_told self }
    {
        let Taken { pos, new, .. } = self;
        match new {
            Some(row) => Change::Put { pos, row },
            None => Change::Gone { pos },
        }
    }
}

/// The row, if there is one; its memory is shared.
pub(crate) fn copied(row: &Option<Document>) -> Result<Option<Document>, NoMemory>
    ensures { IfOk result (λ copy. copy ≡ row.now) }
{
    match row {
        Some(row) => Ok(Some(row.try_clone()?)),
        None => Ok(None),
    }
}

/// Applies a change to the rows, which are in the order of their positions. Fails with `NoMemory` when memory runs out.
pub fn take_in(rows: &mut BTreeMap<Pos, Document>, change: Change) -> Result<Taken, NoMemory>
    requires { IsPositioned rows.old.entries }
    ensures exact { IsExactChange change }
    ensures rows { OnOk result (rows.new.entries ≡ with_change rows.old.entries change) }
    ensures positioned { OnOk result (IsPositioned rows.new.entries) }
    ensures pos { IfOk result (λ taken. taken.pos ≡ position_changed change) }
    ensures old { IfOk result (λ taken. taken.old ≡ at (position_changed change) rows.old.entries) }
    ensures new { IfOk result (λ taken. taken.new ≡ row_in change) }
{
    change.law_exact();
    match change {
        Change::Put { pos, row } => {
            let old = rows.insert(pos.try_clone()?, row.try_clone()?)?;
            Ok(Taken {
                pos,
                old,
                new: Some(row),
            })
        }
        Change::Gone { pos } => {
            let old = rows.remove(&pos);
            Ok(Taken {
                pos,
                old,
                new: None,
            })
        }
    }
}

/// A list of only the row at the position, if there is one; its memory is shared. Fails with `NoMemory` when memory runs out.
pub fn row_alone(
    alloc: Global,
    rows: &BTreeMap<Pos, Document>,
    pos: &Pos,
) -> Result<Ordered<Document>, NoMemory>
    ensures { IfOk result (λ row. row ≡ alone pos.now (at pos.now rows.now.entries)) }
{
    let none = Ordered::new(alloc);
    match rows.get(pos) {
        Some(row) => none.with(pos.try_clone()?, row.try_clone()?),
        None => Ok(none),
    }
}
