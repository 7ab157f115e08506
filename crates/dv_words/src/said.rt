//! What a line of a script says.

ghost use Rattle.std.specs.Prelude.{◌≡◌};

use dv_value::Bytes;
use std::alloc::AllocError;

/// What a line of a script says.
#[derive(Debug, Drop)]
pub enum Line {
    /// Nothing: it is empty, or a comment.
    Skip,
    /// These bytes come from the session of this number.
    Bytes(u32, Bytes),
    /// The session of this number ends.
    End(u32),
}

/// Why a line is not read.
#[derive(Clone, Copy, Debug, PartialEq, Eq)]
pub enum LineFault {
    /// It has none of the forms, or is too long.
    BadLine,
    /// Memory ran out for its bytes.
    NoMemory,
}

impl From<AllocError> for LineFault {
    ghost use Rattle.dv_words.specs.declared.said.LineFault.TheVariants.{NoMemory};

    ghost from_gives = { λ _ e. e ≡ NoMemory };

    fn from(_e: AllocError) -> LineFault {
        LineFault::NoMemory
    }
}
