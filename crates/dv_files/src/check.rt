//! Checking a file of documents.

ghost use Rattle.std.specs.Prelude.{◌≡◌, ◌≢◌, ◌⊎◌, ◌<◌, ◌≤◌, ℕ, List, Ok, Err, length, IfErr, IfOk, IfSome, OnOk};
ghost use Rattle.std.specs.Io.KnownBytes.{Appends, Keeps};
ghost use Rattle.dv_value.specs.Tree.{Field};
ghost use Rattle.dv_files.specs.Check.{IsCounted, IsOutside, IsReadable, IsRefusedFor, check_read_failed, check_write_failed};
ghost use Rattle.dv_files.specs.File.{FirstFault, Holds, ok_line};
ghost use Rattle.dv_streams.specs.Failures.{failures_behind, failures_told};
ghost use Rattle.dv_value.specs.declared.fault.BsonFault.{BsonFault};

use crate::file::{FileFault, behind_document, read_file};
use dv_streams::{ByteIn, Failed, TextOut};
use dv_value::BsonFault;
use dv_value::laws::what_a_field_adds;
use std::alloc::Global;

/// Why a file is not `ok`.
#[derive(Clone, Copy, Debug, PartialEq, Eq)]
pub enum CheckFault {
    /// The reader failed.
    Read,
    /// The writer failed.
    Write,
    /// A document has a fault, and those before it have none.
    Document {
        /// Which document it is, from 1.
        number: usize,
        /// The offset of its first byte in the file, from 0.
        at: usize,
        fault: BsonFault,
    },
    /// The file has more than 1,073,741,824 bytes.
    TooLarge,
    /// Memory ran out.
    NoMemory,
}

impl CheckFault {
    /// What a fault of the document of this number, which begins at this byte, comes to.
    fn of_document(number: usize, at: usize, fault: BsonFault) -> CheckFault
        ensures memory { fault ≡ BsonFault.NoMemory → result ≡ CheckFault.NoMemory }
        ensures other { fault ≢ BsonFault.NoMemory → result ≡ CheckFault.Document number at fault }
        ensures streams { (n : ℕ) → (failures_told {A = ℕ} check_read_failed (Err result) n ≡ n) × (failures_told {A = ℕ} check_write_failed (Err result) n ≡ n) }
        ensures small { result ≢ CheckFault.TooLarge }
        ensures read { result ≢ CheckFault.Write }
        ensures told { (n a : ℕ) (f : BsonFault) → result ≡ CheckFault.Document n a f → (n ≡ number) × (a ≡ at) × (f ≡ fault) }
    {
        match fault {
            BsonFault::NoMemory => CheckFault::NoMemory,
            _ => CheckFault::Document { number, at, fault },
        }
    }
}

impl From<FileFault> for CheckFault {
    ghost use Rattle.dv_files.specs.Check.{read_fault};

    ghost from_gives = { λ fault e. e ≡ read_fault fault };

    fn from(fault: FileFault) -> CheckFault {
        match fault {
            FileFault::Read => CheckFault::Read,
            FileFault::TooLarge => CheckFault::TooLarge,
            FileFault::NoMemory => CheckFault::NoMemory,
        }
    }
}

/// Writes `ok N` as a line, if the file is N documents that fit, one after the other. Otherwise nothing is written, and the fault
/// is that of the first document that has one. The file is read to its end before its documents are read, and nothing is written
/// before these are found to fit.
pub fn check<R: ByteIn, W: TextOut>(
    alloc: Global,
    reader: &mut R,
    writer: &mut W,
) -> Result<(), CheckFault>
    ensures ok { OnOk result (IfSome (R.remaining reader.old) (IsCounted (W.contents writer.old) (W.contents writer.new))) }
    ensures only { (documents : List (List Field)) → IfSome (R.remaining reader.old) (λ file. Holds documents file → length file ≤ 1073741824
        → IfErr result IsOutside) }
    ensures refused { (number at : ℕ) (fault : BsonFault) → result ≡ Err (CheckFault.Document number at fault)
        → IfSome (R.remaining reader.old) (IsRefusedFor number at fault) }
    ensures large { result ≡ Err CheckFault.TooLarge → IfSome (R.remaining reader.old) (λ file. 1073741824 < length file) }
    ensures tried { result ≡ Err CheckFault.Write → IfSome (R.remaining reader.old) IsReadable }
    ensures unwritten { IfErr result (λ e. (e ≡ CheckFault.Write) ⊎ Keeps (W.contents writer.old) (W.contents writer.new)) }
    ensures reader { R.failures reader.new ≡ failures_told check_read_failed result (R.failures reader.old) }
    ensures writer { W.failures writer.new ≡ failures_told check_write_failed result (W.failures writer.old) }
{
    let bytes = read_file(alloc, reader)?;
    let count = count(alloc, bytes.as_slice())?;
    tell(writer, count).map_err(|_| CheckFault::Write)
}

/// Writes that a file is so many documents, and flushes it.
fn tell<W: TextOut>(writer: &mut W, count: usize) -> Result<(), Failed>
    ensures told { OnOk result (Appends (W.contents writer.old) (W.contents writer.new) (ok_line count)) }
    ensures failures { W.failures writer.new ≡ failures_behind result (W.failures writer.old) }
{
    write!(writer, "ok {count}\n")?;
    writer.flush()
}

/// How many documents the bytes are.
fn count(alloc: Global, bytes: &[u8]) -> Result<usize, CheckFault>
    ensures counted { IfOk result (λ n. (documents : List (List Field)) × Holds documents bytes.now × (n ≡ length documents)) }
    ensures only { (documents : List (List Field)) → Holds documents bytes.now → (result ≡ Ok (length documents)) ⊎ (result ≡ Err CheckFault.NoMemory) }
    ensures refused { (number at : ℕ) (fault : BsonFault) → result ≡ Err (CheckFault.Document number at fault) → FirstFault bytes.now number at fault }
    ensures streams { (n : ℕ) → (failures_told check_read_failed result n ≡ n) × (failures_told check_write_failed result n ≡ n) }
    ensures small { result ≢ Err CheckFault.TooLarge }
    ensures read { result ≢ Err CheckFault.Write }
{
    what_a_field_adds();
    let mut count = 0;
    let mut rest = bytes;
    'documents: while !rest.is_empty() {
        rest = match behind_document(alloc, rest) {
            Ok(behind) => behind,
            Err(fault) => {
                let at = bytes.len() - rest.len();
                return Err(CheckFault::of_document(count + 1, at, fault));
            }
        };
        count += 1;
    }
    Ok(count)
}
