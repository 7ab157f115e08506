//! What comes after a statement that was refused.

ghost use Rattle.std.specs.Prelude.{◌≡◌, ◌<◌, ◌^◌, IfOk};
ghost use Rattle.dv_core.specs.Inner.WriteParts as parts;

use dv_catalog::Stopped;
use dv_command::Refusal;
use dv_command::replies::{cut_error, write_error};
use dv_value::{Document, NoMemory};
use std::alloc::Global;

/// What comes after a statement.
pub(crate) enum Next {
    /// The next statement is due.
    Due,
    /// No other statement is carried out.
    Ended,
    /// The statement ran out of memory, and ended the command.
    Cut,
}

/// The error of a statement that was refused. If the statement ran out of memory, the error has the number of changes that it made.
/// Fails when memory runs out.
pub(crate) fn error_of(alloc: Global, place: usize, stopped: &Stopped) -> Result<Document, NoMemory>
    requires { place < 2 ^ 31 }
    ensures { IfOk result (λ error. error ≡ parts.error_of place stopped.now) }
{
    match stopped.refusal {
        Refusal::WantOfMemory => cut_error(alloc, place, stopped.done),
        _ => write_error(alloc, place, &stopped.refusal),
    }
}

/// What comes after a statement that was refused.
pub(crate) fn next_behind(ordered: bool, refusal: &Refusal) -> Next
    ensures { result ≡ parts.next_behind ordered refusal.now }
{
    match refusal {
        Refusal::WantOfMemory => Next::Cut,
        _ if ordered => Next::Ended,
        _ => Next::Due,
    }
}
