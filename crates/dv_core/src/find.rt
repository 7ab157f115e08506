//! First batches of rows, and the cursors that keep the rows after them.

ghost use Rattle.std.specs.Prelude.{◌≡◌, ◌<◌, ◌^◌, List as Sequence, IfOk, map};
ghost use Rattle.std.specs.String.{string_bytes};
ghost use Rattle.dv_catalog.specs.Scan.{limited};
ghost use Rattle.dv_core.specs.Find as finding;
ghost use Rattle.dv_core.specs.Inner.StepParts.{GivesBatch};
ghost use Rattle.dv_core.specs.Told.{batch_told};
ghost use Rattle.dv_command.specs.Replies.{document_of};
ghost use Rattle.dv_cursor.specs.Batch.{batch, rows_behind};
ghost use Rattle.dv_pipe.specs.Sources.{Row};

use crate::outcome::Batch;
use dv_command::replies::{first_batch_reply, next_batch_reply};
use dv_command::{Refusal, ReplyNames};
use dv_cursor::laws::a_batch_needs_no_later_row;
use dv_cursor::{Cursors, Rows};
use dv_value::{Document, List, NoMemory, Value, fits};
use std::alloc::Global;

/// A first batch, except its rows.
pub(crate) struct First {
    pub(crate) session: u32,
    pub(crate) namespace: String,
    /// How many rows there are in it at most.
    pub(crate) count: u64,
    /// Whether it is the only one.
    pub(crate) single: bool,
}

/// How many documents a find needs if its first batch is the only one: the smaller of its batch size and its limit, where 0 means
/// no limit.
pub(crate) fn rows_needed(limit: u64, batch_size: u64) -> u64
    ensures { (rows : Sequence Row) → batch batch_size (limited result rows) ≡ batch batch_size (limited limit rows) }
{
    a_batch_needs_no_later_row();
    if batch_size > 0 && (limit == 0 || batch_size < limit) {
        batch_size
    } else {
        limit
    }
}

/// The reply with the first batch of these rows. If rows are left after it, and it isn't the only one, a cursor keeps them. Refused
/// with `LimitReached` if there is no room for this cursor; then with `TooLarge` if one of the rows is over 16,777,216 bytes or 100
/// levels; and with `WantOfMemory`. Then nothing is changed.
pub(crate) fn first_batch(
    alloc: Global,
    cursors: &mut Cursors,
    first: First,
    rows: Vec<Document>,
) -> Result<Batch, Refusal>
    ensures reply { GivesBatch (finding.first_batch first.session (string_bytes first.namespace) first.count first.single rows.items)
        cursors.old result cursors.new }
    ensures id { IfOk result (λ batch. batch.id < 2 ^ 63) }
{
    let First {
        session,
        namespace,
        count,
        single,
    } = first;
    let too_large = has_too_large(&rows);
    let (batch, rows) = first_rows(alloc, rows, count)?;
    if single || rows.is_empty() {
        if too_large {
            return Err(Refusal::TooLarge);
        }
        return Ok(Batch {
            is_first: true,
            namespace,
            id: 0,
            rows: batch,
        });
    }
    let Some(id) = cursors.free_id() else {
        return Err(Refusal::LimitReached);
    };
    if too_large {
        return Err(Refusal::TooLarge);
    }
    // After the change nothing may run out of memory.
    let told = String::from_str(alloc, &namespace)?;
    cursors.add(session, namespace, rows)?;
    Ok(Batch {
        is_first: true,
        namespace: told,
        id,
        rows: batch,
    })
}

/// The rows of the first batch, and the rows after it. Fails when memory runs out.
#[tactic(auto, using(crate::proofs::Firsts::few_are_all, crate::proofs::Firsts::none_behind))]
fn first_rows(
    alloc: Global,
    rows: Vec<Document>,
    count: u64,
) -> Result<(Vec<Document>, Rows), NoMemory>
    ensures { IfOk result (λ parts. (parts.0.items ≡ batch count rows.items) × (parts.1 ≡ rows_behind count rows.items)) }
{
    // Most finds have one row at most.
    if rows.len() <= 1 && count > 0 {
        return Ok((rows, Rows::of(Vec::new(alloc))));
    }
    let mut behind = Rows::of(rows);
    let batch = behind.batch(count)?;
    behind.skip(batch.len());
    Ok((batch, behind))
}

/// The body of the reply with a batch. Fails when memory runs out.
pub(crate) fn body_of(alloc: Global, names: &ReplyNames, batch: Batch) -> Result<Document, NoMemory>
    requires { batch.id < 2 ^ 63 }
    ensures { IfOk result (λ body. body ≡ batch_told batch) }
{
    let Batch {
        is_first,
        namespace,
        id,
        rows,
    } = batch;
    let rows = values_of(alloc, rows)?;
    if is_first {
        first_batch_reply(alloc, names, namespace, id, rows)
    } else {
        next_batch_reply(alloc, names, namespace, id, rows)
    }
}

/// Whether one of the rows is over the limits for documents. Takes no memory.
fn has_too_large(rows: &[Document]) -> bool
    ensures { result ≡ finding.has_too_large rows.now }
{
    'rows: for row in rows {
        if !fits(row) {
            return true;
        }
    }
    false
}

/// The documents as values, in order. Fails when memory runs out.
fn values_of(alloc: Global, documents: Vec<Document>) -> Result<List, NoMemory>
    ensures { IfOk result (λ values. values ≡ map document_of documents.items) }
{
    let mut values = Vec::with_capacity(alloc, documents.len())?;
    'documents: for document in documents {
        values.push(Value::Doc(document))?;
    }
    Ok(List::of(values))
}
