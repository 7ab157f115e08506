//! The code of a position's first part.

ghost use Rattle.std.specs.Prelude.{◌≡◌};
ghost use Rattle.dv_change.specs.Inner.Places.{IsFirstCode};

use crate::position::Part;

/// The code of the first part, zeros if there is none. Positions are compared by it first.
#[derive(Clone, Copy, Debug, Drop)]
pub(crate) struct Head {
    pub top: u8,
    pub high: u64,
    pub low: u32,
}

impl Head {
    /// The code of the first of these parts, zeros if there is none. Takes no memory.
    pub(crate) fn of_first(parts: &[Part]) -> Self
        ensures { IsFirstCode parts.now result.top result.high result.low }
    {
        match parts.first() {
            Some(part) => {
                let code = part.code();
                Head {
                    top: code.top,
                    high: code.high,
                    low: code.low,
                }
            }
            None => Head {
                top: 0,
                high: 0,
                low: 0,
            },
        }
    }
}
