//! Files of documents, read to their ends.

ghost use Rattle.std.specs.Prelude.{◌≡◌, ◌⊎◌, ◌<◌, ◌≤◌, List, Err, Some, length, IfErr, IfOk, IfSome, MatchResult};
ghost use Rattle.dv_bson.specs.Reading.{first_fault};
ghost use Rattle.dv_value.specs.Tree.{Field};
ghost use Rattle.dv_files.specs.File.{Begins, EachBegun, file_read_failed};
ghost use Rattle.dv_streams.specs.Failures.{failures_told};

use dv_bson::{check_document, read_document};
use dv_streams::{ByteIn, piece};
use dv_value::{BsonFault, Document};
use std::alloc::{AllocError, Global};

/// The most bytes that a file may have.
const LARGEST_FILE: usize = 1_073_741_824;

/// Why a file is not read to its end.
#[derive(Clone, Copy, Debug, PartialEq, Eq)]
pub enum FileFault {
    /// The reader failed.
    Read,
    /// The file has more than 1,073,741,824 bytes.
    TooLarge,
    /// Memory ran out for its bytes.
    NoMemory,
}

impl From<AllocError> for FileFault {
    ghost use Rattle.dv_files.specs.declared.file.FileFault.TheVariants.{NoMemory};

    ghost from_gives = { λ _ e. e ≡ NoMemory };

    fn from(_e: AllocError) -> FileFault {
        FileFault::NoMemory
    }
}

/// All bytes of a file. Fails with `Read` if the reader fails, with `TooLarge` if the file has more than 1,073,741,824 bytes, of
/// which at most 65,536 more are read, and with `NoMemory` when memory runs out.
pub fn read_file<R: ByteIn>(alloc: Global, reader: &mut R) -> Result<Vec<u8>, FileFault>
    ensures whole { IfOk result (λ bytes. IfSome (R.remaining reader.old) (λ file. bytes.items ≡ file)) }
    ensures limit { IfOk result (λ bytes. length bytes.items ≤ 1073741824) }
    ensures large { result ≡ Err FileFault.TooLarge → IfSome (R.remaining reader.old) (λ file. 1073741824 < length file) }
    ensures reader { R.failures reader.new ≡ failures_told file_read_failed result (R.failures reader.old) }
{
    let mut piece = piece(alloc)?;
    let mut bytes = Vec::new(alloc);
    'reads: while bytes.len() <= LARGEST_FILE {
        let Ok(count) = reader.take(&mut piece) else {
            return Err(FileFault::Read);
        };
        if count == 0 {
            return Ok(bytes);
        }
        bytes.extend_from_slice(&piece[..count])?;
    }
    Err(FileFault::TooLarge)
}

/// The first document of the bytes, and the bytes after it. Fails as `read_document` does.
pub fn first_document(alloc: Global, bytes: &[u8]) -> Result<(Document, &[u8]), BsonFault>
    ensures found { IfOk result (λ found. Begins bytes.now found.0 found.1.now) }
    ensures only { EachBegun bytes.now (λ document behind.
        MatchResult result (λ found. (found.0 ≡ document) × (found.1.now ≡ behind)) (λ e. e ≡ BsonFault.NoMemory)) }
    ensures refused { IfErr result (λ e. (e ≡ BsonFault.NoMemory) ⊎ (first_fault bytes.now ≡ Some e)) }
{
    let (document, length) = read_document(alloc, bytes)?;
    Ok((document, &bytes[length..]))
}

/// The bytes after the first document, which is checked but not built. Fails as `read_document` does.
pub(crate) fn behind_document(alloc: Global, bytes: &[u8]) -> Result<&[u8], BsonFault>
    ensures found { IfOk result (λ behind. (document : List Field) × Begins bytes.now document behind.now) }
    ensures only { EachBegun bytes.now (λ document behind. MatchResult result (λ rest. rest.now ≡ behind) (λ e. e ≡ BsonFault.NoMemory)) }
    ensures refused { IfErr result (λ e. (e ≡ BsonFault.NoMemory) ⊎ (first_fault bytes.now ≡ Some e)) }
{
    let length = check_document(alloc, bytes)?;
    Ok(&bytes[length..])
}
