//! Why the program ends, from why a session or serving ended.

ghost use Rattle.std.specs.Prelude.{◌≡◌};
ghost use Rattle.dv_message.specs.Fault.{close_number};
ghost use Rattle.dv_serving.specs.Inner.Faults.{fault_of_run};

use crate::serve::ServeFault;
use dv_wire::{CloseFault, HubFault, RunFault};
use dv_words::fault::DocdFault;

/// Why the program ends after its one session was closed.
pub(crate) fn of_close(fault: CloseFault) -> DocdFault
    ensures { result ≡ DocdFault.Closed (close_number fault) }
{
    DocdFault::Closed(fault.number())
}

/// Why the program ends after its one session ended before the end of input.
pub(crate) fn of_run(fault: RunFault) -> DocdFault
    ensures { result ≡ fault_of_run fault }
{
    match fault {
        RunFault::Read | RunFault::TooManyReads => DocdFault::Read,
        RunFault::Write => DocdFault::Write,
        RunFault::Hub(HubFault::TooManySessions) => DocdFault::Sessions,
        RunFault::Hub(HubFault::NoMemory) => DocdFault::NoMemory,
    }
}

impl From<ServeFault> for DocdFault {
    ghost use Rattle.dv_serving.specs.Inner.Faults.{fault_of_serve};

    ghost from_gives = { λ fault e. e ≡ fault_of_serve fault };

    fn from(fault: ServeFault) -> DocdFault {
        match fault {
            ServeFault::Accept => DocdFault::Serve,
            ServeFault::Write => DocdFault::Write,
        }
    }
}
