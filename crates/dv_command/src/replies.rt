//! The documents of replies.

ghost use Rattle.std.specs.Prelude.{◌≡◌, ◌∷◌, [], ◌++◌, ◌^◌, ◌<◌, false, IfOk, OnErr, OnOk, codes, map};
ghost use Rattle.std.specs.Option.{option_map};
ghost use Rattle.std.specs.Str.{bytes_eq};
ghost use Rattle.std.specs.String.{string_bytes};
ghost use Rattle.dv_value.specs.Names.{has_name, has_zero};
ghost use Rattle.dv_value.specs.Tree.{string};
ghost use Rattle.dv_value.specs.View.{tree};
ghost use Rattle.dv_command.specs.Replies as replies;

use crate::reply_names::ReplyNames;
use dv_refusal::Refusal;
use dv_value::{Document, List, NoMemory, Str, Value};
use std::alloc::{AllocError, Global};

/// The reply to a command that was carried out: these fields, and `ok: 1`. Fails with `NoMemory` when memory runs out.
pub fn reply_of(mut fields: Document) -> Result<Document, NoMemory>
    requires { has_name (codes "ok") fields ≡ false }
    ensures { IfOk result (λ reply. reply ≡ replies.reply_of fields) }
{
    add(&mut fields, "ok", Value::Int32(1))?;
    Ok(fields)
}

/// The reply to a hello: the size limits of this server, and the protocol versions that it supports. Fails with `NoMemory` when
/// memory runs out.
pub fn hello_reply(alloc: Global) -> Result<Document, NoMemory>
    ensures { IfOk result (λ reply. reply ≡ replies.hello_reply) }
{
    let mut fields = Document::new(alloc);
    add(&mut fields, "isWritablePrimary", Value::Bool(true))?;
    add(&mut fields, "maxBsonObjectSize", Value::Int32(16_777_216))?;
    add(&mut fields, "maxMessageSizeBytes", Value::Int32(48_000_000))?;
    add(&mut fields, "maxWriteBatchSize", Value::Int32(100_000))?;
    add(&mut fields, "minWireVersion", Value::Int32(0))?;
    add(&mut fields, "maxWireVersion", Value::Int32(17))?;
    add(&mut fields, "readOnly", Value::Bool(false))?;
    reply_of(fields)
}

/// The reply to a command that is refused. Fails with `NoMemory` when memory runs out.
pub fn refusal_reply(alloc: Global, refusal: &Refusal) -> Result<Document, NoMemory>
    ensures { IfOk result (λ reply. reply ≡ replies.refusal_reply refusal.now) }
{
    let mut reply = Document::new(alloc);
    add(&mut reply, "ok", Value::Int32(0))?;
    let message = refusal.message(alloc)?;
    add(&mut reply, "errmsg", Value::Text(Str::of(message)))?;
    add(&mut reply, "code", Value::Int32(refusal.code()))?;
    let name = String::from_str(alloc, refusal.name())?;
    add(&mut reply, "codeName", Value::Text(Str::of(name)))?;
    Ok(reply)
}

/// The error of the statement at a place, counted from 0 and below 2^31. Fails with `NoMemory` when memory runs out.
pub fn write_error(alloc: Global, place: usize, refusal: &Refusal) -> Result<Document, NoMemory>
    requires { place < 2 ^ 31 }
    ensures { IfOk result (λ error. error ≡ replies.write_error place refusal.now) }
{
    let mut error = Document::new(alloc);
    add(&mut error, "index", Value::Int32(place as i32))?;
    add(&mut error, "code", Value::Int32(refusal.code()))?;
    let message = refusal.message(alloc)?;
    add(&mut error, "errmsg", Value::Text(Str::of(message)))?;
    Ok(error)
}

/// The error of the statement at a place, counted from 0 and below 2^31, that ran out of memory after this many of its changes.
/// Fails with `NoMemory` when memory runs out.
pub fn cut_error(alloc: Global, place: usize, changes: usize) -> Result<Document, NoMemory>
    requires { place < 2 ^ 31 }
    ensures { IfOk result (λ error. error ≡ replies.cut_error place changes) }
{
    let mut error = write_error(alloc, place, &Refusal::WantOfMemory)?;
    add(&mut error, "done", count(changes as u128))?;
    Ok(error)
}

/// The reply to a write: the number that it counts, and the errors of its statements if there are any. Fails with `NoMemory` when
/// memory runs out.
#[tactic(auto, using(crate::proofs::Errors::none_is_ok))]
pub fn write_reply(
    alloc: Global,
    names: &ReplyNames,
    n: u128,
    errors: Vec<Value>,
) -> Result<Document, NoMemory>
    ensures { IfOk result (λ reply. reply ≡ replies.write_reply n (map tree errors.items)) }
{
    if n == 1 && errors.is_empty() {
        if let Some(reply) = &names.one_written {
            return reply.try_clone();
        }
    }
    let mut fields = Document::expecting(alloc, &names.write)?;
    add(&mut fields, "n", count(n))?;
    add_errors(&mut fields, errors)?;
    reply_of(fields)
}

/// The reply to an update: how many documents matched, how many of them changed, and the errors of its statements if there are any.
/// Fails with `NoMemory` when memory runs out.
#[tactic(auto, using(crate::proofs::Errors::none_is_ok))]
pub fn update_reply(
    alloc: Global,
    names: &ReplyNames,
    n: u128,
    changed: u128,
    errors: Vec<Value>,
) -> Result<Document, NoMemory>
    ensures { IfOk result (λ reply. reply ≡ replies.update_reply n changed (map tree errors.items)) }
{
    if n == 1 && changed == 1 && errors.is_empty() {
        if let Some(reply) = &names.one_updated {
            return reply.try_clone();
        }
    }
    let mut fields = Document::expecting(alloc, &names.update)?;
    add(&mut fields, "n", count(n))?;
    add(&mut fields, "nModified", count(changed))?;
    add_errors(&mut fields, errors)?;
    reply_of(fields)
}

/// Adds the errors of statements, if there are any. Fails when memory runs out.
#[tactic(auto, using(crate::proofs::Errors::no_errors, crate::proofs::Errors::some_errors))]
fn add_errors(fields: &mut Document, errors: Vec<Value>) -> Result<(), NoMemory>
    requires { has_name (codes "writeErrors") fields.old ≡ false }
    ensures { OnOk result (fields.new ≡ fields.old ++ replies.errors_field (map tree errors.items)) }
{
    if !errors.is_empty() {
        add(fields, "writeErrors", Value::Array(List::of(errors)))?;
    }
    Ok(())
}

/// The reply to a drop: the namespace that was dropped. Fails with `NoMemory` when memory runs out.
pub fn drop_reply(alloc: Global, namespace: String) -> Result<Document, NoMemory>
    ensures { IfOk result (λ reply. reply ≡ replies.drop_reply (string_bytes namespace)) }
{
    let mut fields = Document::new(alloc);
    add(&mut fields, "ns", Value::Text(Str::of(namespace)))?;
    reply_of(fields)
}

/// The reply to a find or an aggregation: the first of its rows, and the cursor that has the others, 0 if there is none. Fails with
/// `NoMemory` when memory runs out.
pub fn first_batch_reply(
    alloc: Global,
    names: &ReplyNames,
    namespace: String,
    id: u64,
    rows: List,
) -> Result<Document, NoMemory>
    requires { id < 2 ^ 63 }
    ensures { IfOk result (λ reply. reply ≡ replies.first_batch_reply (string_bytes namespace) id rows) }
{
    let cursor = cursor_of(alloc, &names.first_batch, "firstBatch", namespace, id, rows)?;
    cursor_reply(alloc, names, cursor)
}

/// The reply to a getMore: the next rows of a cursor, and the cursor that has the others, 0 if there is none. Fails with `NoMemory`
/// when memory runs out.
pub fn next_batch_reply(
    alloc: Global,
    names: &ReplyNames,
    namespace: String,
    id: u64,
    rows: List,
) -> Result<Document, NoMemory>
    requires { id < 2 ^ 63 }
    ensures { IfOk result (λ reply. reply ≡ replies.next_batch_reply (string_bytes namespace) id rows) }
{
    let cursor = cursor_of(alloc, &names.next_batch, "nextBatch", namespace, id, rows)?;
    cursor_reply(alloc, names, cursor)
}

/// The cursor of an id and a namespace, with a batch of rows under the name `batch`, which no other field has. It may share the
/// names of `like`.
fn cursor_of(
    alloc: Global,
    like: &Document,
    batch: &str,
    namespace: String,
    id: u64,
    rows: List,
) -> Result<Document, NoMemory>
    requires fits { id < 2 ^ 63 }
    requires whole { has_zero batch.now ≡ false }
    requires no_id { bytes_eq (codes "id") batch.now ≡ false }
    requires no_ns { bytes_eq (codes "ns") batch.now ≡ false }
    ensures { IfOk result (λ cursor. cursor ≡ replies.cursor_of batch.now (string_bytes namespace) id rows) }
{
    let mut cursor = Document::expecting(alloc, like)?;
    add(&mut cursor, batch, Value::Array(rows))?;
    add(&mut cursor, "id", Value::Int64(id as i64))?;
    add(&mut cursor, "ns", Value::Text(Str::of(namespace)))?;
    Ok(cursor)
}

/// The reply with a cursor.
fn cursor_reply(alloc: Global, names: &ReplyNames, cursor: Document) -> Result<Document, NoMemory>
    ensures { IfOk result (λ reply. reply ≡ replies.reply_of ((codes "cursor", replies.document_of cursor) ∷ [])) }
{
    let mut fields = Document::expecting(alloc, &names.cursor)?;
    add(&mut fields, "cursor", Value::Doc(cursor))?;
    reply_of(fields)
}

/// The reply to a killCursors: the ids of the closed cursors, and of those that were not found. Fails with `NoMemory` when memory
/// runs out.
pub fn kill_cursors_reply(alloc: Global, killed: List, missing: List) -> Result<Document, NoMemory>
    ensures { IfOk result (λ reply. reply ≡ replies.kill_cursors_reply killed missing) }
{
    let mut fields = Document::new(alloc);
    add(&mut fields, "cursorsKilled", Value::Array(killed))?;
    add(&mut fields, "cursorsNotFound", Value::Array(missing))?;
    reply_of(fields)
}

/// The reply to a createIndexes: how many indexes the collection had, and how many it has. Fails with `NoMemory` when memory runs
/// out.
pub fn create_indexes_reply(
    alloc: Global,
    before: usize,
    after: usize,
) -> Result<Document, NoMemory>
    ensures { IfOk result (λ reply. reply ≡ replies.create_indexes_reply before after) }
{
    let mut fields = Document::new(alloc);
    add(&mut fields, "numIndexesBefore", count(before as u128))?;
    add(&mut fields, "numIndexesAfter", count(after as u128))?;
    reply_of(fields)
}

/// The reply to a dropIndexes: how many indexes the collection had. Fails with `NoMemory` when memory runs out.
pub fn drop_indexes_reply(alloc: Global, before: usize) -> Result<Document, NoMemory>
    ensures { IfOk result (λ reply. reply ≡ replies.drop_indexes_reply before) }
{
    let mut fields = Document::new(alloc);
    add(&mut fields, "nIndexesWas", count(before as u128))?;
    reply_of(fields)
}

/// The reply to an explain: the stage that finds the documents, the index by which it does if there is one, and how many documents
/// it covers. Fails with `NoMemory` when memory runs out.
pub fn explain_reply(
    alloc: Global,
    stage: &str,
    index: Option<&str>,
    documents: usize,
) -> Result<Document, NoMemory>
    ensures { IfOk result (λ reply. reply ≡ replies.explain_reply stage.now (option_map (λ name. name.now) index.entry) documents) }
{
    let mut fields = Document::new(alloc);
    add(&mut fields, "stage", text_value(alloc, stage)?)?;
    if let Some(name) = index {
        add(&mut fields, "index", text_value(alloc, name)?)?;
    }
    add(&mut fields, "docs", long_count(documents as u128))?;
    reply_of(fields)
}

/// The reply to a viewStats. `state` is `live` if the view has its rows, and `stale` if it has none and is recomputed when it is
/// read. `rows` is how many rows it has, and `ticks` the count of the work that changes of what it reads took since it was made:
/// for each stage, 1 for each change that it took in, and 1 for each that it returned. For a stale view the caller gives 0 for
/// both. They are returned as int64; a number beyond the greatest int64 is returned as that. Fails with `NoMemory` when memory runs
/// out.
pub fn view_stats_reply(
    alloc: Global,
    is_live: bool,
    rows: usize,
    ticks: u64,
) -> Result<Document, NoMemory>
    ensures { IfOk result (λ reply. reply ≡ replies.view_stats_reply is_live rows ticks) }
{
    let state = text_value(alloc, view_state(is_live))?;
    let mut fields = Document::new(alloc);
    add(&mut fields, "state", state)?;
    add(&mut fields, "rows", long_count(rows as u128))?;
    add(&mut fields, "ticks", long_count(ticks as u128))?;
    reply_of(fields)
}

/// The name of a view's state.
fn view_state(is_live: bool) -> &'static str
    ensures { result.now ≡ replies.view_state is_live }
{
    if is_live { "live" } else { "stale" }
}

/// A text as a value. Fails when memory runs out.
fn text_value(alloc: Global, text: &str) -> Result<Value, NoMemory>
    ensures { IfOk result (λ value. tree value ≡ string text.now) }
{
    Ok(Value::Text(Str::of(String::from_str(alloc, text)?)))
}

/// A number as int32 if it fits, else as int64.
fn count(number: u128) -> Value
    ensures { tree result ≡ replies.count number }
{
    match i32::try_from(number) {
        Ok(number) => Value::Int32(number),
        Err(_) => long_count(number),
    }
}

/// A number as int64; one beyond the greatest int64 is returned as that.
fn long_count(number: u128) -> Value
    ensures { tree result ≡ replies.long_count number }
{
    Value::Int64(number.min(i64::MAX as u128) as i64)
}

/// Adds a field whose name is known to be new and without a zero byte. Fails with `NoMemory` when memory runs out; then the fields
/// are as they were.
pub fn add(document: &mut Document, name: &str, value: Value) -> Result<(), NoMemory>
    requires whole { has_zero name.now ≡ false }
    requires fresh { has_name name.now document.old ≡ false }
    ensures ok { OnOk result (document.new ≡ document.old ++ (name.now, tree value) ∷ []) }
    ensures err { OnErr result (document.new ≡ document.old) }
{
    document.push(name, value).map_err(|_| AllocError)
}
