//! What the statements of a write did.

ghost use Rattle.std.specs.Prelude.{◌≡◌, ◌*◌, ◌≤◌, ◌^◌, IfOk, map};
ghost use Rattle.dv_core.specs.Writes.{reply_by};
ghost use Rattle.dv_value.specs.View.{tree};

use crate::next::{Next, error_of, next_behind};
use crate::reserve::Reserve;
use dv_catalog::{Counted, Stopped};
use dv_command::replies::{update_reply, write_reply};
use dv_command::{ReplyNames, WriteKind};
use dv_value::{Document, NoMemory, Value};
use std::alloc::Global;

/// How many statements were carried out or refused, how many documents the former matched and changed, and the errors of the
/// latter, in order.
#[derive(Drop)]
pub(crate) struct Written {
    statements: usize,
    n: u128,
    changed: u128,
    errors: Vec<Value>,
    // Each statement matches no more documents than a collection can have, and changes no more.
    ghost few_counted: { n ≤ statements * 2 ^ 64 },
    ghost few_changed: { changed ≤ statements * 2 ^ 64 },
}

impl Written {
    ghost use Rattle.std.specs.Prelude.{◌<◌};
    ghost use Rattle.dv_command.specs.Asked.{statement_limit};
    ghost use Rattle.dv_catalog.specs.State.{Namespaces};
    ghost use Rattle.dv_core.specs.Statements.{nothing_written};
    ghost use Rattle.dv_core.specs.Inner.WriteParts.{written_seen, with_counted, Notes};

    /// No statement so far.
    pub(crate) fn new(alloc: Global) -> Self
        ensures { (namespaces : Namespaces) → written_seen result namespaces ≡ nothing_written namespaces }
    {
        Written {
            statements: 0,
            n: 0,
            changed: 0,
            errors: Vec::new(alloc),
        }
    }

    /// Counts a statement that was carried out. Fewer than 100,000 statements came before.
    pub(crate) fn count(&mut self, counted: Counted)
        requires { self.old.statements < statement_limit }
        ensures { (namespaces : Namespaces) → written_seen self.new namespaces ≡ with_counted (written_seen self.old namespaces) counted }
    {
        self.statements += 1;
        self.n += counted.matched as u128;
        self.changed += counted.changed as u128;
    }

    /// Notes a statement that was refused, and returns what comes after it. Fewer than 100,000 statements came before. Fails when
    /// memory runs out.
    pub(crate) fn note(
        &mut self,
        alloc: Global,
        ordered: bool,
        stopped: &Stopped,
    ) -> Result<Next, NoMemory>
        requires { self.old.statements < statement_limit }
        ensures { (namespaces : Namespaces) → Notes ordered stopped.now (written_seen self.old namespaces) result (written_seen self.new namespaces) }
    {
        let error = error_of(alloc, self.statements, stopped)?;
        self.errors.push(Value::Doc(error))?;
        self.statements += 1;
        Ok(next_behind(ordered, &stopped.refusal))
    }

    /// The reply of a write. If memory runs out for it and there are no errors, the reserve is given back and the reply is made
    /// again. Fails if memory still runs out.
    pub(crate) fn reply(
        self,
        alloc: Global,
        reserve: &mut Reserve,
        names: &ReplyNames,
        kind: WriteKind,
    ) -> Result<Document, NoMemory>
        ensures { IfOk result (λ reply. reply ≡ reply_by kind self.n self.changed (map tree self.errors.items)) }
    {
        let Written {
            n,
            changed,
            errors,
            ..
        } = self;
        if errors.is_empty() {
            let reply = reply_with(alloc, names, kind, n, changed, Vec::new(alloc));
            if reply.is_ok() {
                return reply;
            }
            reserve.give_back();
        }
        reply_with(alloc, names, kind, n, changed, errors)
    }
}

/// The reply of a write with these counts and these errors. Fails when memory runs out.
fn reply_with(
    alloc: Global,
    names: &ReplyNames,
    kind: WriteKind,
    n: u128,
    changed: u128,
    errors: Vec<Value>,
) -> Result<Document, NoMemory>
    ensures { IfOk result (λ reply. reply ≡ reply_by kind n changed (map tree errors.items)) }
{
    match kind {
        WriteKind::Insert | WriteKind::Delete => write_reply(alloc, names, n, errors),
        WriteKind::Update => update_reply(alloc, names, n, changed, errors),
    }
}
