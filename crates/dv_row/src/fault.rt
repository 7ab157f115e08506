//! Why a list is no pipeline.

ghost use Rattle.std.specs.Prelude.{◌≡◌};
ghost use Rattle.dv_row.specs.declared.fault.PipelineFault.TheVariants.{NoMemory};

use dv_candidates::PathFault;
use std::alloc::{AllocError, AllocFailed};
use std::error::Error;
use std::fmt;

/// Why a list is no pipeline. Its text is its name.
#[derive(Clone, Copy, Debug, PartialEq, Eq)]
pub enum PipelineFault {
    /// A stage that doesn't exist.
    UnknownStage,
    /// A stage that isn't a document of one name, or an operand that its stage doesn't take.
    BadSpec,
    /// A `$match` whose operand is no filter.
    Filter,
    /// Two paths of a `$project` that are equal, or of which one begins the other.
    Conflict,
    /// A seventeenth stage.
    TooMany,
    /// Memory ran out.
    NoMemory,
}

impl PipelineFault {
    ghost use Rattle.dv_row.specs.Fault.{pipeline_fault_number};

    /// The fault's number, from 1 in the order in which the faults are declared.
    pub fn number(&self) -> u8
        ensures { result ≡ pipeline_fault_number self.now }
    {
        match self {
            PipelineFault::UnknownStage => 1,
            PipelineFault::BadSpec => 2,
            PipelineFault::Filter => 3,
            PipelineFault::Conflict => 4,
            PipelineFault::TooMany => 5,
            PipelineFault::NoMemory => 6,
        }
    }
}

impl fmt::Display for PipelineFault {
    ghost use Rattle.std.specs.Prelude.{Some};
    ghost use Rattle.dv_row.specs.Fault.{pipeline_fault_text};

    ghost output = { λ f. Some (pipeline_fault_text f) };

    fn fmt<W: fmt::Write>(&self, f: &mut fmt::Formatter<W>) -> fmt::Result {
        match *self {
            PipelineFault::UnknownStage => write!(f, "UnknownStage"),
            PipelineFault::BadSpec => write!(f, "BadSpec"),
            PipelineFault::Filter => write!(f, "Filter"),
            PipelineFault::Conflict => write!(f, "Conflict"),
            PipelineFault::TooMany => write!(f, "TooMany"),
            PipelineFault::NoMemory => write!(f, "NoMemory"),
        }
    }
}

impl Error for PipelineFault {}

impl From<AllocError> for PipelineFault {
    ghost from_gives = { λ _ e. e ≡ NoMemory };

    fn from(_e: AllocError) -> PipelineFault {
        PipelineFault::NoMemory
    }
}

impl<T: Drop> From<AllocFailed<T>> for PipelineFault {
    ghost from_gives = { λ _ e. e ≡ NoMemory };

    fn from(_e: AllocFailed<T>) -> PipelineFault {
        PipelineFault::NoMemory
    }
}

impl From<PathFault> for PipelineFault {
    ghost use Rattle.dv_row.specs.Fault.{pipeline_fault_of_path};

    ghost from_gives = { λ fault e. e ≡ pipeline_fault_of_path fault };

    fn from(fault: PathFault) -> PipelineFault {
        match fault {
            PathFault::NoMemory => PipelineFault::NoMemory,
            _ => PipelineFault::BadSpec,
        }
    }
}
