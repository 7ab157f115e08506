//! Loading a file of documents into a store.

ghost use Rattle.std.specs.Prelude.{◌≡◌, ◌≢◌, ◌⊎◌, ◌≤◌, ℕ, List, Ok, Err, length, pos, IfErr, IfOk, IfSome, OnErr};
ghost use Rattle.dv_value.specs.declared.fault.BsonFault.{BsonFault};
ghost use Rattle.dv_value.specs.Tree.{Field};
ghost use Rattle.dv_core.specs.Load.{IsLoaded};
ghost use Rattle.dv_files.specs.File.{Begins};
ghost use Rattle.dv_load.specs.Load.{IsWhy, LoadsFile, load_read_failed};
ghost use Rattle.dv_streams.specs.Failures.{failures_told};

use crate::progress::{Progress, Untold};
use dv_core::Store;
use dv_files::fault::LoadFault;
use dv_files::file::{first_document, read_file};
use dv_files::laws::documents_come_one_by_one;
use dv_streams::ByteIn;
use dv_value::BsonFault;
use std::alloc::Global;

/// The code of a document that is refused because memory ran out.
const WANT_OF_MEMORY: i32 = 900;

/// Loads the documents of a file, one after the other, under a namespace: each as an insert of only that document, in order. The
/// first fault ends it, and the documents before it stay: `Document` or `Refused` with the document's number and its offset in bytes.
/// Fails with `Read` if the reader does, with `TooLarge` over 1,073,741,824 bytes, both before anything is loaded, and with
/// `NoMemory` when memory runs out.
pub fn load_file<R: ByteIn>(
    alloc: Global,
    store: &mut Store,
    namespace: &str,
    reader: &mut R,
) -> Result<(), LoadFault>
    ensures loads { (file : List ℕ) × IfSome (R.remaining reader.old) (λ known. file ≡ known) × LoadsFile file namespace.now store.old result store.new }
    ensures reader { R.failures reader.new ≡ failures_told load_read_failed result (R.failures reader.old) }
{
    load_file_telling(alloc, store, namespace, reader, &mut Untold)
}

/// Loads a file as `load_file` does, and reports after each document how many are loaded.
pub(crate) fn load_file_telling<R: ByteIn, P: Progress>(
    alloc: Global,
    store: &mut Store,
    namespace: &str,
    reader: &mut R,
    progress: &mut P,
) -> Result<(), LoadFault>
    ensures loads { (file : List ℕ) × IfSome (R.remaining reader.old) (λ known. file ≡ known) × LoadsFile file namespace.now store.old result store.new }
    ensures reader { R.failures reader.new ≡ failures_told load_read_failed result (R.failures reader.old) }
{
    let bytes = read_file(alloc, reader)?;
    load_documents(alloc, store, namespace, bytes.as_slice(), progress)
}

/// Loads the documents that the bytes are.
fn load_documents<P: Progress>(
    alloc: Global,
    store: &mut Store,
    namespace: &str,
    bytes: &[u8],
    progress: &mut P,
) -> Result<(), LoadFault>
    requires { length bytes.now ≤ 1073741824 }
    ensures loads { LoadsFile bytes.now namespace.now store.old result store.new }
    ensures reader { (n : ℕ) → failures_told load_read_failed result n ≡ n }
{
    documents_come_one_by_one();
    let mut number = 1;
    let mut rest = bytes;
    'documents: while !rest.is_empty() {
        let at = bytes.len() - rest.len();
        let behind = load_first(alloc, store, namespace, number, at, rest)?;
        rest = behind;
        progress.loaded(number);
        number += 1;
    }
    Ok(())
}

/// Loads the first document of the bytes, which has this number and this offset in the file, and returns the bytes after it. If it
/// fails, nothing is changed.
fn load_first<'a>(
    alloc: Global,
    store: &mut Store,
    namespace: &str,
    number: usize,
    at: usize,
    bytes: &'a [u8],
) -> Result<&'a [u8], LoadFault>
    ensures loaded { IfOk result (λ behind. (document : List Field) × Begins bytes.now document behind.now × IsLoaded namespace.now document store.old store.new) }
    ensures kept { OnErr result (store.new ≡ store.old) }
    ensures why { IfErr result (λ fault. IsWhy fault namespace.now store.old bytes.now number at) }
    ensures reader { (n : ℕ) → failures_told load_read_failed result n ≡ n }
{
    match first_document(alloc, bytes) {
        Ok((document, behind)) => match store.load(namespace, document) {
            Ok(()) => Ok(behind),
            Err(code) => Err(fault_of_code(number, at, code)),
        },
        Err(fault) => Err(fault_of_document(number, at, fault)),
    }
}

/// What a fault of the document of this number, which begins at this byte, comes to.
fn fault_of_document(number: usize, at: usize, fault: BsonFault) -> LoadFault
    ensures memory { fault ≡ BsonFault.NoMemory → result ≡ LoadFault.NoMemory }
    ensures other { fault ≢ BsonFault.NoMemory → result ≡ LoadFault.Document number at fault }
    ensures reader { (n : ℕ) → failures_told {A = ℕ} load_read_failed (Err result) n ≡ n }
{
    match fault {
        BsonFault::NoMemory => LoadFault::NoMemory,
        _ => LoadFault::Document { number, at, fault },
    }
}

/// What the code with which it is refused comes to.
fn fault_of_code(number: usize, at: usize, code: i32) -> LoadFault
    ensures memory { code ≡ pos 900 → result ≡ LoadFault.NoMemory }
    ensures either { (result ≡ LoadFault.NoMemory) ⊎ ((result ≡ LoadFault.Refused number at code) × (code ≢ pos 900)) }
    ensures reader { (n : ℕ) → failures_told {A = ℕ} load_read_failed (Err result) n ≡ n }
{
    if code == WANT_OF_MEMORY {
        LoadFault::NoMemory
    } else {
        LoadFault::Refused { number, at, code }
    }
}
