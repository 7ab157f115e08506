//! Commands on existing cursors.

ghost use Rattle.std.specs.Prelude.{◌≡◌, ◌<◌, ◌^◌, Ok, IfOk, OnErr, OnOk, is_some, length};
ghost use Rattle.std.specs.Option.{option_map};
ghost use Rattle.dv_command.specs.Inner.View.{get_more_seen, kill_cursors_seen};
ghost use Rattle.dv_core.specs.More as more;
ghost use Rattle.dv_command.specs.Replies as replies;
ghost use Rattle.dv_core.specs.Inner.StepParts.{Ends, GivesBatch};

use crate::answers::{refuse, told};
use crate::outcome::{Batch, Outcome};
use crate::reserve::Reserve;
use dv_command::replies::kill_cursors_reply;
use dv_command::{GetMore, KillCursors, Refusal};
use dv_cursor::{Cursors, Rows};
use dv_value::{Document, List, NoMemory, Value};
use std::alloc::Global;

/// The reply with the next rows of a cursor, which is closed when no rows are left. Refused with `CursorNotFound` if the session
/// has no such cursor over the namespace, and with `WantOfMemory`; then nothing is changed.
pub(crate) fn next_batch(
    cursors: &mut Cursors,
    session: u32,
    asked: GetMore,
) -> Result<Batch, Refusal>
    ensures reply { GivesBatch (more.next_batch session (get_more_seen asked)) cursors.old result cursors.new }
    ensures id { IfOk result (λ batch. batch.id < 2 ^ 63) }
{
    let GetMore {
        id,
        namespace,
        batch_size,
    } = asked;
    let Some(rows) = rows_asked(cursors, session, &namespace, id) else {
        return Err(Refusal::CursorNotFound);
    };
    let batch = rows.batch(wanted(batch_size, rows))?;
    let taken = batch.len();
    let id = number_of(id);
    let told = if taken < rows.len() { id } else { 0 };
    cursors.advance(session, id, taken);
    Ok(Batch {
        is_first: false,
        namespace,
        id: told,
        rows: batch,
    })
}

/// Ends the cursors of a session over a namespace that have one of these ids, and reports which ids had a cursor and which had
/// none.
pub(crate) fn kill_all(
    alloc: Global,
    reserve: &mut Reserve,
    cursors: &mut Cursors,
    session: u32,
    asked: KillCursors,
) -> Outcome
    ensures { Ends (Ok (more.killed session (kill_cursors_seen asked) cursors.old)) cursors.old result cursors.new }
{
    let KillCursors { namespace, ids } = asked;
    match kill_each(alloc, cursors, session, &namespace, &ids) {
        Ok(went) => told(kill_reply(alloc, &ids, &went)),
        Err(_) => refuse(alloc, reserve, Refusal::WantOfMemory),
    }
}

/// Ends the cursors that have one of these ids, one after the other, and returns for each id whether there was one. Fails when
/// memory runs out; then nothing is changed.
fn kill_each(
    alloc: Global,
    cursors: &mut Cursors,
    session: u32,
    namespace: &str,
    ids: &[i64],
) -> Result<Vec<bool>, NoMemory>
    ensures went { IfOk result (λ went. went.items ≡ more.went_each session namespace.now ids.now cursors.old) }
    ensures left { OnOk result (cursors.new ≡ more.without_cursors session namespace.now ids.now cursors.old) }
    ensures err { OnErr result (cursors.new ≡ cursors.old) }
{
    // After the first change nothing may run out of memory.
    let mut went = vec![in alloc; false; ids.len()]?;
    'ids: for (place, id) in ids.iter().enumerate() {
        went[place] = kill_one(cursors, session, namespace, *id);
    }
    Ok(went)
}

/// Ends the cursor of an id, and returns whether there was one.
fn kill_one(cursors: &mut Cursors, session: u32, namespace: &str, id: i64) -> bool
    ensures found { result ≡ is_some (more.rows_asked session namespace.now id cursors.old) }
    ensures left { cursors.new ≡ more.without_cursor session namespace.now id cursors.old }
{
    match u64::try_from(id) {
        Ok(number) => cursors.kill(session, namespace, number),
        Err(_) => false,
    }
}

/// The reply that says which of the ids had a cursor. Fails when memory runs out.
fn kill_reply(alloc: Global, ids: &[i64], went: &[bool]) -> Result<Document, NoMemory>
    requires { length went.now ≡ length ids.now }
    ensures { IfOk result (λ reply. reply ≡ replies.kill_cursors_reply (more.gone_ids ids.now went.now) (more.missing_ids ids.now went.now)) }
{
    let mut gone = Vec::new(alloc);
    let mut missing = Vec::new(alloc);
    'ids: for (place, id) in ids.iter().enumerate() {
        if went[place] {
            gone.push(Value::Int64(*id))?;
        } else {
            missing.push(Value::Int64(*id))?;
        }
    }
    kill_cursors_reply(alloc, List::of(gone), List::of(missing))
}

/// The rows not yet returned by the cursor with this session, namespace and id, if there is one.
fn rows_asked<'a>(cursors: &'a Cursors, session: u32, namespace: &str, id: i64) -> Option<&'a Rows>
    ensures { option_map (λ rows. rows.now) result ≡ more.rows_asked session namespace.now id cursors.now }
{
    match u64::try_from(id) {
        Ok(number) => cursors.rows(session, namespace, number),
        Err(_) => None,
    }
}

/// The number of an id; 0 for a negative one, which no cursor has.
fn number_of(id: i64) -> u64
    ensures number { result ≡ more.cursor_number id }
    ensures fits { result < 2 ^ 63 }
{
    u64::try_from(id).unwrap_or(0)
}

/// How many rows a batch may have; for 0, as many as the limit of bytes allows.
fn wanted(count: u64, rows: &Rows) -> u64
    ensures { result ≡ more.rows_wanted count rows.now }
{
    if count == 0 { rows.len() as u64 } else { count }
}
