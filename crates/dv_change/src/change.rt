//! Changes of a list of rows at positions.

ghost use Rattle.std.specs.Prelude.{◌≡◌, IfOk};
ghost use Rattle.dv_change.specs.Inner.Changes.{IsExactChange};

use crate::position::Pos;
use dv_value::{Document, NoMemory};

/// What changed in a list of rows at positions.
#[derive(Debug, Drop)]
pub enum Change {
    /// From now on the row is at the position, in place of the one that was there, if any.
    Put {
        /// The position.
        pos: Pos,
        /// The row.
        row: Document,
    },
    /// There is no row at the position any more.
    Gone {
        /// The position.
        pos: Pos,
    },
}

impl Change {
    /// A copy, which shares the row's memory. Fails with `NoMemory` when memory runs out.
    pub fn try_clone(&self) -> Result<Self, NoMemory>
        ensures { IfOk result (λ copy. copy ≡ self.now) }
    {
        match self {
            Change::Put { pos, row } => Ok(Change::Put {
                pos: pos.try_clone()?,
                row: row.try_clone()?,
            }),
            Change::Gone { pos } => Ok(Change::Gone {
                pos: pos.try_clone()?,
            }),
        }
    }

    /// Each key of its position is the key of some value, or the one key that no value has. Does nothing.
    pub fn law_exact(&self)
        ensures { IsExactChange self.now }
    {
        match self {
            Change::Put { pos, .. } => pos.law_exact(),
            Change::Gone { pos } => pos.law_exact(),
        }
    }
}
