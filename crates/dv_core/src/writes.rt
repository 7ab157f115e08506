//! Writes: their statements one after the other.

ghost use Rattle.std.specs.Prelude.{◌≡◌, ◌<◌, true, false, map};
ghost use Rattle.std.specs.String.{string_bytes};
ghost use Rattle.dv_value.specs.View.{tree};
ghost use Rattle.dv_command.specs.Asked.{statement_limit};
ghost use Rattle.dv_command.specs.Inner.View.{write_seen};
ghost use Rattle.dv_core.specs.Statements.{is_due};
ghost use Rattle.dv_catalog.specs.Inner.Parts.{MakesCounted, StandBehind};
ghost use Rattle.dv_catalog.specs.State.{is_view};
ghost use Rattle.dv_core.specs.Inner.WriteParts.{WritesNext, WritesOrCuts, outcome_of};
ghost use Rattle.dv_core.specs.Writes.{statement_of, write_by};

use crate::next::Next;
use crate::outcome::Outcome;
use crate::reserve::Reserve;
use crate::storable::storable;
use crate::written::Written;
use dv_catalog::{Catalog, Counted, Stopped};
use dv_command::{ReplyNames, Write, WriteKind, deletion_of, updating_of};
use dv_value::{Document, NoMemory};
use std::alloc::Global;

/// Carries out the statements of a write one after the other. If memory runs out for a statement, the command ends with it, and the
/// reserve is given back for the reply. If memory runs out for the reply too, there is no reply.
pub(crate) fn write_all(
    alloc: Global,
    reserve: &mut Reserve,
    names: &ReplyNames,
    catalog: &mut Catalog,
    write: Write<'_>,
) -> Outcome
    requires { is_view (string_bytes write.namespace) catalog.old.state.views ≡ false }
    ensures writes { WritesOrCuts (write_by (write_seen write.entry)) catalog.old result catalog.new }
    ensures views { catalog.new.state.views ≡ catalog.old.state.views }
{
    match write_each(alloc, reserve, names, catalog, write) {
        Ok(outcome) => outcome,
        Err(_) => Outcome::NoReply,
    }
}

/// Carries out the statements one after the other. Fails when memory runs out for the reply.
fn write_each(
    alloc: Global,
    reserve: &mut Reserve,
    names: &ReplyNames,
    catalog: &mut Catalog,
    write: Write<'_>,
) -> Result<Outcome, NoMemory>
    requires { is_view (string_bytes write.namespace) catalog.old.state.views ≡ false }
    ensures writes { WritesOrCuts (write_by (write_seen write.entry)) catalog.old (outcome_of result) catalog.new }
    ensures views { catalog.new.state.views ≡ catalog.old.state.views }
{
    let Write {
        kind,
        namespace,
        entries,
        ordered,
    } = write;
    let mut written = Written::new(alloc);
    'entries: for entry in entries {
        match write_next(
            alloc,
            reserve,
            catalog,
            kind,
            &namespace,
            ordered,
            entry,
            &mut written,
        )? {
            Next::Due => {}
            Next::Ended => break,
            Next::Cut => return Ok(Outcome::Wanting(written.reply(alloc, reserve, names, kind)?)),
        }
    }
    Ok(Outcome::Reply(written.reply(alloc, reserve, names, kind)?))
}

/// Carries out the next statement, and notes its result. Returns what comes after it; fails if memory runs out for the statement's
/// error.
fn write_next(
    alloc: Global,
    reserve: &mut Reserve,
    catalog: &mut Catalog,
    kind: WriteKind,
    namespace: &str,
    ordered: bool,
    entry: &Document,
    written: &mut Written,
) -> Result<Next, NoMemory>
    requires room { written.old.statements < statement_limit }
    requires due { is_due ordered (map tree written.old.errors.items) ≡ true }
    requires collection { is_view namespace.now catalog.old.state.views ≡ false }
    ensures step { WritesNext namespace.now ordered (statement_of kind entry.now) written.old catalog.old result written.new catalog.new }
    ensures views { catalog.new.state.views ≡ catalog.old.state.views }
{
    match write_one(alloc, reserve, catalog, kind, namespace, entry) {
        Ok(counted) => {
            written.count(counted);
            Ok(Next::Due)
        }
        Err(stopped) => {
            reserve.make_room_for(&stopped.refusal);
            written.note(alloc, ordered, &stopped)
        }
    }
}

/// Carries out one statement, and returns how many documents it matched and changed. If it is refused, nothing is changed. If
/// memory runs out, it ends after the first of its changes, or before them. If a delete runs out of memory before its first change,
/// the reserve is given back, and the delete is carried out once more.
fn write_one(
    alloc: Global,
    reserve: &mut Reserve,
    catalog: &mut Catalog,
    kind: WriteKind,
    namespace: &str,
    entry: &Document,
) -> Result<Counted, Stopped>
    requires { is_view namespace.now catalog.old.state.views ≡ false }
    ensures makes { MakesCounted namespace.now (statement_of kind entry.now) catalog.old result catalog.new }
    ensures views { catalog.new.state.views ≡ catalog.old.state.views }
    ensures marks { StandBehind namespace.now (statement_of kind entry.now) catalog.old result catalog.new.marks }
{
    match write_once(alloc, reserve, catalog, kind, namespace, entry) {
        Ok(counted) => Ok(counted),
        Err(stopped) => {
            if stopped.done > 0 || !reserve.makes_room_behind(kind, &stopped.refusal) {
                return Err(stopped);
            }
            write_once(alloc, reserve, catalog, kind, namespace, entry)
        }
    }
}

/// Carries out one statement as `write_one` does, but not once more if memory runs out.
fn write_once(
    alloc: Global,
    reserve: &mut Reserve,
    catalog: &mut Catalog,
    kind: WriteKind,
    namespace: &str,
    entry: &Document,
) -> Result<Counted, Stopped>
    requires { is_view namespace.now catalog.old.state.views ≡ false }
    ensures makes { MakesCounted namespace.now (statement_of kind entry.now) catalog.old result catalog.new }
    ensures views { catalog.new.state.views ≡ catalog.old.state.views }
    ensures marks { StandBehind namespace.now (statement_of kind entry.now) catalog.old result catalog.new.marks }
{
    match kind {
        WriteKind::Insert => {
            catalog.insert(namespace, storable(alloc, entry)?)?;
            Ok(Counted {
                matched: 1,
                changed: 1,
            })
        }
        WriteKind::Update => catalog.update(namespace, &updating_of(alloc, entry)?),
        WriteKind::Delete => {
            let deletion = deletion_of(alloc, entry)?;
            // If memory runs out, a delete of several documents may remove only some of them.
            if !deletion.only_first {
                reserve.make_room();
            }
            catalog.delete(namespace, &deletion)
        }
    }
}
