//! Why reading stops.

ghost use Rattle.std.specs.Prelude.{◌≡◌};
ghost use Rattle.dv_bson.specs.declared.fault.ReadError.TheVariants.{Memory};

use dv_value::BsonFault;
use std::alloc::{AllocError, AllocFailed};

/// Why reading stopped.
#[derive(Debug, Drop)]
pub enum ReadError {
    /// Memory ran out.
    Memory,
    /// The bytes have a fault.
    Fault(BsonFault),
}

impl From<AllocError> for ReadError {
    ghost from_gives = { λ _ e. e ≡ Memory };

    fn from(_e: AllocError) -> ReadError {
        ReadError::Memory
    }
}

impl<T: Drop> From<AllocFailed<T>> for ReadError {
    ghost from_gives = { λ _ e. e ≡ Memory };

    fn from(_e: AllocFailed<T>) -> ReadError {
        ReadError::Memory
    }
}

impl From<ReadError> for BsonFault {
    ghost use Rattle.dv_bson.specs.Inner.Parts.{public_fault};

    ghost from_gives = { λ e fault. fault ≡ public_fault e };

    fn from(e: ReadError) -> BsonFault {
        match e {
            ReadError::Memory => BsonFault::NoMemory,
            ReadError::Fault(fault) => fault,
        }
    }
}
