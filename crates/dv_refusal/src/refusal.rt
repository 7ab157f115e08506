//! Why a command is refused.

ghost use Rattle.std.specs.Prelude.{◌≡◌, IfOk, pos};
ghost use Rattle.std.specs.String.{string_bytes};
ghost use Rattle.dv_refusal.specs.Refusals as refusals;
ghost use Rattle.dv_refusal.specs.declared.refusal.Refusal.TheVariants.{WantOfMemory};

use dv_coll::InsertFault;
use dv_match::FilterFault;
use dv_row::PipelineFault;
use dv_update::UpdateFault;
use dv_value::{BsonFault, NoMemory};
use std::alloc::{AllocError, AllocFailed, Global};

/// Why a command is refused: the server error codes of the MongoDB manual, and this server's own from 900 on.
#[derive(Clone, Copy, Debug, PartialEq, Eq)]
pub enum Refusal {
    /// A name, a number, a filter, a sort or an index's key breaks its rules; a document can't be stored as it is; or an update meets a
    /// value that it can't change (2).
    BadValue,
    /// A field is missing or unknown, is both in the body and in a list next to it, or asks for what is not supported; or an update
    /// or a stage has none of the valid forms (9).
    FailedToParse,
    /// A field has a wrong type, or `$inc` meets a value that is no number (14).
    TypeMismatch,
    /// A document of the message can't be read (22).
    InvalidBson(BsonFault),
    /// There is nothing under a namespace, or no view although one is asked for (26).
    NamespaceNotFound,
    /// A collection has no index of a name (27).
    IndexNotFound,
    /// A path of an update leads to no place for a value (28).
    PathNotViable,
    /// Two paths of an update, or of a stage, are in conflict, or another index has the name or the path of a new one (40).
    ConflictingUpdateOperators,
    /// A session has no cursor of an id over a namespace (43).
    CursorNotFound,
    /// There is something under a namespace (48).
    NamespaceExists,
    /// There is no such command, or it is an explain of anything but a find (59).
    CommandNotFound,
    /// An update changes a document's `_id`, or its encoding (66).
    ImmutableField,
    /// A document has an equal `_id`, or a key of a unique index would be in two documents (11000).
    DuplicateKey,
    /// Memory ran out (900).
    WantOfMemory,
    /// A document, or what a reply would hold, is over a limit (901).
    TooLarge,
    /// There is a view where only a collection may be (902).
    OnView,
    /// There are more statements, stages, views, indexes or cursors than there may be, or a view would be too high (903).
    LimitReached,
    /// A view reads the namespace of a view that is to be made or dropped, or a new view would read itself (904).
    ReadByView,
}

impl Refusal {
    /// The code's number.
    pub fn code(&self) -> i32
        ensures { result ≡ pos (refusals.code self.now) }
    {
        match self {
            Refusal::BadValue => 2,
            Refusal::FailedToParse => 9,
            Refusal::TypeMismatch => 14,
            Refusal::InvalidBson(_) => 22,
            Refusal::NamespaceNotFound => 26,
            Refusal::IndexNotFound => 27,
            Refusal::PathNotViable => 28,
            Refusal::ConflictingUpdateOperators => 40,
            Refusal::CursorNotFound => 43,
            Refusal::NamespaceExists => 48,
            Refusal::CommandNotFound => 59,
            Refusal::ImmutableField => 66,
            Refusal::DuplicateKey => 11000,
            Refusal::WantOfMemory => 900,
            Refusal::TooLarge => 901,
            Refusal::OnView => 902,
            Refusal::LimitReached => 903,
            Refusal::ReadByView => 904,
        }
    }

    /// The code's name.
    pub fn name(&self) -> &'static str
        ensures { result.now ≡ refusals.code_name self.now }
    {
        match self {
            Refusal::BadValue => "BadValue",
            Refusal::FailedToParse => "FailedToParse",
            Refusal::TypeMismatch => "TypeMismatch",
            Refusal::InvalidBson(_) => "InvalidBSON",
            Refusal::NamespaceNotFound => "NamespaceNotFound",
            Refusal::IndexNotFound => "IndexNotFound",
            Refusal::PathNotViable => "PathNotViable",
            Refusal::ConflictingUpdateOperators => "ConflictingUpdateOperators",
            Refusal::CursorNotFound => "CursorNotFound",
            Refusal::NamespaceExists => "NamespaceExists",
            Refusal::CommandNotFound => "CommandNotFound",
            Refusal::ImmutableField => "ImmutableField",
            Refusal::DuplicateKey => "DuplicateKey",
            Refusal::WantOfMemory => "WantOfMemory",
            Refusal::TooLarge => "TooLarge",
            Refusal::OnView => "OnView",
            Refusal::LimitReached => "LimitReached",
            Refusal::ReadByView => "ReadByView",
        }
    }

    /// The refusal in words: the code's name, and after it why a document can't be read. Fails with `NoMemory` when memory runs
    /// out.
    pub fn message(&self, alloc: Global) -> Result<String, NoMemory>
        ensures { IfOk result (λ message. string_bytes message ≡ refusals.message_of self.now) }
    {
        match self {
            Refusal::InvalidBson(fault) => format!(in alloc; "InvalidBSON: {fault}"),
            refusal => String::from_str(alloc, refusal.name()),
        }
    }
}

impl From<BsonFault> for Refusal {
    ghost use Rattle.dv_refusal.specs.Refusals as refusals;

    ghost from_gives = { λ fault refusal. refusal ≡ refusals.refusal_of fault };

    fn from(fault: BsonFault) -> Refusal {
        match fault {
            BsonFault::NoMemory => Refusal::WantOfMemory,
            _ => Refusal::InvalidBson(fault),
        }
    }
}

impl From<AllocError> for Refusal {
    ghost from_gives = { λ _ refusal. refusal ≡ WantOfMemory };

    fn from(_e: AllocError) -> Refusal {
        Refusal::WantOfMemory
    }
}

impl<T: Drop> From<AllocFailed<T>> for Refusal {
    ghost from_gives = { λ _ refusal. refusal ≡ WantOfMemory };

    fn from(_e: AllocFailed<T>) -> Refusal {
        Refusal::WantOfMemory
    }
}

impl From<InsertFault> for Refusal {
    ghost use Rattle.dv_refusal.specs.Refusals as refusals;

    ghost from_gives = { λ fault refusal. refusal ≡ refusals.insert_refusal fault };

    fn from(fault: InsertFault) -> Refusal {
        match fault {
            InsertFault::Duplicate => Refusal::DuplicateKey,
            InsertFault::NoMemory => Refusal::WantOfMemory,
        }
    }
}

impl From<FilterFault> for Refusal {
    ghost use Rattle.dv_refusal.specs.Refusals as refusals;

    ghost from_gives = { λ fault refusal. refusal ≡ refusals.filter_refusal fault };

    fn from(fault: FilterFault) -> Refusal {
        match fault {
            FilterFault::NoMemory => Refusal::WantOfMemory,
            _ => Refusal::BadValue,
        }
    }
}

impl From<UpdateFault> for Refusal {
    ghost use Rattle.dv_refusal.specs.Refusals as refusals;

    ghost from_gives = { λ fault refusal. refusal ≡ refusals.update_refusal fault };

    fn from(fault: UpdateFault) -> Refusal {
        match fault {
            UpdateFault::UnknownOperator | UpdateFault::BadOperand => Refusal::FailedToParse,
            UpdateFault::NotNumber => Refusal::TypeMismatch,
            UpdateFault::NotViable => Refusal::PathNotViable,
            UpdateFault::Conflict => Refusal::ConflictingUpdateOperators,
            UpdateFault::IdChanged => Refusal::ImmutableField,
            UpdateFault::Overflow
            | UpdateFault::NotArray
            | UpdateFault::TooDeep
            | UpdateFault::BadName => Refusal::BadValue,
            UpdateFault::TooLarge => Refusal::TooLarge,
            UpdateFault::NoMemory => Refusal::WantOfMemory,
        }
    }
}

impl From<PipelineFault> for Refusal {
    ghost use Rattle.dv_refusal.specs.Refusals as refusals;

    ghost from_gives = { λ fault refusal. refusal ≡ refusals.pipeline_refusal fault };

    fn from(fault: PipelineFault) -> Refusal {
        match fault {
            PipelineFault::UnknownStage | PipelineFault::BadSpec => Refusal::FailedToParse,
            PipelineFault::Filter => Refusal::BadValue,
            PipelineFault::Conflict => Refusal::ConflictingUpdateOperators,
            PipelineFault::TooMany => Refusal::LimitReached,
            PipelineFault::NoMemory => Refusal::WantOfMemory,
        }
    }
}
