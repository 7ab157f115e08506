//! Why a file is not loaded.

ghost use Rattle.std.specs.Prelude.{◌≡◌};

use crate::file::FileFault;
use dv_value::BsonFault;

/// Why a file's documents are not all loaded.
#[derive(Clone, Copy, Debug, PartialEq, Eq)]
pub enum LoadFault {
    /// The reader failed.
    Read,
    /// The file has more than 1,073,741,824 bytes.
    TooLarge,
    /// A document has a fault.
    Document {
        /// Which document it is, from 1.
        number: usize,
        /// The offset of its first byte in the file, from 0.
        at: usize,
        fault: BsonFault,
    },
    /// A document is refused, as an insert of it would be.
    Refused {
        /// Which document it is, from 1.
        number: usize,
        /// The offset of its first byte in the file, from 0.
        at: usize,
        /// The code of the refusal.
        code: i32,
    },
    /// Memory ran out.
    NoMemory,
}

impl From<FileFault> for LoadFault {
    ghost use Rattle.dv_files.specs.Inner.Fault.{unread};

    ghost from_gives = { λ fault e. e ≡ unread fault };

    fn from(fault: FileFault) -> LoadFault {
        match fault {
            FileFault::Read => LoadFault::Read,
            FileFault::TooLarge => LoadFault::TooLarge,
            FileFault::NoMemory => LoadFault::NoMemory,
        }
    }
}
