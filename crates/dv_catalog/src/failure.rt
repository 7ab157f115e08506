//! How a statement that isn't carried out ends.

ghost use Rattle.std.specs.Prelude.{◌≡◌};
ghost use Rattle.dv_catalog.specs.Views.{view_refusal};
ghost use Rattle.dv_refusal.specs.Refusals.{insert_refusal};
ghost use Rattle.dv_refusal.specs.declared.refusal.Refusal.TheVariants.{WantOfMemory};

use dv_coll::InsertFault;
use dv_command::Refusal;
use dv_views::ViewFault;
use std::alloc::{AllocError, AllocFailed};

/// Why a statement isn't carried out, and how many of its changes were made.
#[derive(Clone, Copy, Debug)]
pub struct Stopped {
    pub refusal: Refusal,
    /// How many of its changes were made before, one after the other: none unless memory ran out, and never all of them.
    pub done: usize,
}

impl From<Refusal> for Stopped {
    ghost from_gives = { λ refusal stopped. stopped ≡ record { refusal = refusal; done = 0 } };

    fn from(refusal: Refusal) -> Stopped {
        Stopped { refusal, done: 0 }
    }
}

impl From<AllocError> for Stopped {
    ghost from_gives = { λ _ stopped. stopped ≡ record { refusal = WantOfMemory; done = 0 } };

    fn from(_e: AllocError) -> Stopped {
        Stopped {
            refusal: Refusal::WantOfMemory,
            done: 0,
        }
    }
}

impl<T: Drop> From<AllocFailed<T>> for Stopped {
    ghost from_gives = { λ _ stopped. stopped ≡ record { refusal = WantOfMemory; done = 0 } };

    fn from(_e: AllocFailed<T>) -> Stopped {
        Stopped {
            refusal: Refusal::WantOfMemory,
            done: 0,
        }
    }
}

impl From<InsertFault> for Stopped {
    ghost from_gives = { λ fault stopped. stopped ≡ record { refusal = insert_refusal fault; done = 0 } };

    fn from(fault: InsertFault) -> Stopped {
        Stopped {
            refusal: Refusal::from(fault),
            done: 0,
        }
    }
}

/// The refusal of a command for the fault of a new view.
pub(crate) fn refusal_of(fault: ViewFault) -> Refusal
    ensures { result ≡ view_refusal fault }
{
    match fault {
        ViewFault::Exists => Refusal::NamespaceExists,
        ViewFault::ReadByView => Refusal::ReadByView,
        ViewFault::LimitReached => Refusal::LimitReached,
        ViewFault::NoMemory => Refusal::WantOfMemory,
    }
}
