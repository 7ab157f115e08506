//! Why bytes are no document, or a document can't be made or written.

ghost use Rattle.std.specs.Prelude.{◌≡◌};
ghost use Rattle.dv_value.specs.declared.fault.BsonFault.TheVariants.{NoMemory};

use std::alloc::{AllocError, AllocFailed};
use std::error::Error;
use std::fmt;

/// A fault. Its text is its name. The text of a refused type also says which byte is at which place.
#[derive(Clone, Copy, Debug, PartialEq, Eq)]
pub enum BsonFault {
    /// Fewer bytes than a length, or than the outermost document's length says.
    Truncated,
    /// A length or count that is too small or doesn't fit, a name or value that doesn't end in its
    /// document, or a closing zero that is missing or out of place.
    BadLength,
    /// A type byte that isn't supported.
    RefusedType {
        /// The type byte.
        byte: u8,
        /// The byte's place, counted from the outermost document's first byte.
        at: usize,
    },
    /// A name or a text that isn't UTF-8.
    BadUtf8,
    /// A boolean that is neither 0 nor 1.
    BadBool,
    /// An array whose names aren't the decimal numbers from 0 on, in order.
    BadArrayName,
    /// A name that an earlier field of the same document has.
    RepeatedName,
    /// More than 100 levels.
    TooDeep,
    /// More than 16,777,216 bytes to read, or 2,147,483,647 to write.
    TooLarge,
    /// Memory ran out.
    NoMemory,
    /// A name with a zero byte.
    BadName,
}

impl BsonFault {
    ghost use Rattle.dv_value.specs.Fault.{fault_name, fault_number};

    /// The fault's name.
    fn name(&self) -> &'static str
        ensures { result.now ≡ fault_name self.now }
    {
        match self {
            BsonFault::Truncated => "Truncated",
            BsonFault::BadLength => "BadLength",
            BsonFault::RefusedType { .. } => "RefusedType",
            BsonFault::BadUtf8 => "BadUtf8",
            BsonFault::BadBool => "BadBool",
            BsonFault::BadArrayName => "BadArrayName",
            BsonFault::RepeatedName => "RepeatedName",
            BsonFault::TooDeep => "TooDeep",
            BsonFault::TooLarge => "TooLarge",
            BsonFault::NoMemory => "NoMemory",
            BsonFault::BadName => "BadName",
        }
    }

    /// The fault's number, from 1 to 11 in the order in which the faults are declared.
    pub fn number(&self) -> u8
        ensures { result ≡ fault_number self.now }
    {
        match self {
            BsonFault::Truncated => 1,
            BsonFault::BadLength => 2,
            BsonFault::RefusedType { .. } => 3,
            BsonFault::BadUtf8 => 4,
            BsonFault::BadBool => 5,
            BsonFault::BadArrayName => 6,
            BsonFault::RepeatedName => 7,
            BsonFault::TooDeep => 8,
            BsonFault::TooLarge => 9,
            BsonFault::NoMemory => 10,
            BsonFault::BadName => 11,
        }
    }
}

impl fmt::Display for BsonFault {
    ghost use Rattle.std.specs.Prelude.{Some};
    ghost use Rattle.dv_value.specs.Fault.{fault_text};

    ghost output = { λ f. Some (fault_text f) };

    fn fmt<W: fmt::Write>(&self, f: &mut fmt::Formatter<W>) -> fmt::Result {
        match *self {
            BsonFault::RefusedType { byte, at } => write!(f, "RefusedType 0x{byte:02x} at {at}"),
            _ => f.write_str(self.name()),
        }
    }
}

impl Error for BsonFault {}

impl From<AllocError> for BsonFault {
    ghost from_gives = { λ _ e. e ≡ NoMemory };

    fn from(_e: AllocError) -> BsonFault {
        BsonFault::NoMemory
    }
}

impl<T: Drop> From<AllocFailed<T>> for BsonFault {
    ghost from_gives = { λ _ e. e ≡ NoMemory };

    fn from(_e: AllocFailed<T>) -> BsonFault {
        BsonFault::NoMemory
    }
}
