//! Why a new view is refused.

ghost use Rattle.std.specs.Prelude.{◌≡◌};
ghost use Rattle.dv_views.specs.declared.fault.ViewFault.TheVariants.{NoMemory};

use std::alloc::{AllocError, AllocFailed};
use std::error::Error;
use std::fmt;

/// Why a new view is refused. Its text is its name.
#[derive(Clone, Copy, Debug, PartialEq, Eq)]
pub enum ViewFault {
    /// A view has the name.
    Exists,
    /// A view reads the name, or the new view would read its own name.
    ReadByView,
    /// There are a thousand views, or the new one would be over a view of height 8.
    LimitReached,
    /// Memory ran out.
    NoMemory,
}

impl ViewFault {
    ghost use Rattle.dv_views.specs.Inner.Fault.{view_fault_number};

    /// The fault's number: 1 for `Exists`, 2 for `ReadByView`, 4 for `LimitReached`, 5 for `NoMemory`.
    pub fn number(&self) -> u8
        ensures { result ≡ view_fault_number self.now }
    {
        match self {
            ViewFault::Exists => 1,
            ViewFault::ReadByView => 2,
            ViewFault::LimitReached => 4,
            ViewFault::NoMemory => 5,
        }
    }
}

impl fmt::Display for ViewFault {
    ghost use Rattle.std.specs.Prelude.{Some};
    ghost use Rattle.dv_views.specs.Inner.Fault.{view_fault_text};

    ghost output = { λ f. Some (view_fault_text f) };

    fn fmt<W: fmt::Write>(&self, f: &mut fmt::Formatter<W>) -> fmt::Result {
        match *self {
            ViewFault::Exists => write!(f, "Exists"),
            ViewFault::ReadByView => write!(f, "ReadByView"),
            ViewFault::LimitReached => write!(f, "LimitReached"),
            ViewFault::NoMemory => write!(f, "NoMemory"),
        }
    }
}

impl Error for ViewFault {}

impl From<AllocError> for ViewFault {
    ghost from_gives = { λ _ e. e ≡ NoMemory };

    fn from(_e: AllocError) -> ViewFault {
        ViewFault::NoMemory
    }
}

impl<T: Drop> From<AllocFailed<T>> for ViewFault {
    ghost from_gives = { λ _ e. e ≡ NoMemory };

    fn from(_e: AllocFailed<T>) -> ViewFault {
        ViewFault::NoMemory
    }
}
