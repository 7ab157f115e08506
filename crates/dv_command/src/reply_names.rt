//! The names of replies.

ghost use Rattle.std.specs.Prelude.{◌≡◌, []};
ghost use Rattle.std.specs.Option.{ForSome};
ghost use Rattle.dv_command.specs.Replies as replies;

use crate::replies::{update_reply, write_reply};
use dv_value::{Document, Value};
use std::alloc::Global;

/// The field names of the most frequent replies, a document for each kind: a reply shares the names of its document, and takes no
/// memory for names. Also the replies to writes of one document themselves, which are shared too.
#[derive(Debug, Drop)]
pub struct ReplyNames {
    /// Of a cursor with its first rows.
    pub(crate) first_batch: Document,
    /// Of a cursor with its next rows.
    pub(crate) next_batch: Document,
    /// Of the reply that has a cursor.
    pub(crate) cursor: Document,
    /// Of the reply to an insert or a delete.
    pub(crate) write: Document,
    /// Of the reply to an update.
    pub(crate) update: Document,
    /// The reply to an insert or a delete of one document.
    pub(crate) one_written: Option<Document>,
    /// The reply to an update that changed the one document that matched.
    pub(crate) one_updated: Option<Document>,
    ghost written_is: { ForSome one_written (λ reply. reply ≡ replies.write_reply 1 []) },
    ghost updated_is: { ForSome one_updated (λ reply. reply ≡ replies.update_reply 1 1 []) },
}

impl ReplyNames {
    /// None yet. Takes no memory.
    pub fn new(alloc: Global) -> Self {
        ReplyNames {
            first_batch: Document::new(alloc),
            next_batch: Document::new(alloc),
            cursor: Document::new(alloc),
            write: Document::new(alloc),
            update: Document::new(alloc),
            one_written: None,
            one_updated: None,
        }
    }

    /// Makes the names and replies that aren't there. If memory runs out some are left out, and replies have names of their own.
    pub fn prepare(&mut self, alloc: Global) {
        if self.update.is_empty() {
            self.first_batch = nulls(alloc, &["firstBatch", "id", "ns"]);
            self.next_batch = nulls(alloc, &["nextBatch", "id", "ns"]);
            self.cursor = nulls(alloc, &["cursor", "ok"]);
            self.write = nulls(alloc, &["n", "ok"]);
            self.update = nulls(alloc, &["n", "nModified", "ok"]);
            self.one_written = one_written(alloc, self);
            self.one_updated = one_updated(alloc, self);
        }
    }
}

/// The reply to an insert or a delete of one document, with its length kept for those who write it. `None` when memory runs out.
fn one_written(alloc: Global, names: &ReplyNames) -> Option<Document>
    ensures { ForSome result (λ reply. reply ≡ replies.write_reply 1 []) }
{
    let mut reply = write_reply(alloc, names, 1, Vec::new(alloc)).ok()?;
    reply.keep_size();
    Some(reply)
}

/// The same for an update that changed the one document that matched.
fn one_updated(alloc: Global, names: &ReplyNames) -> Option<Document>
    ensures { ForSome result (λ reply. reply ≡ replies.update_reply 1 1 []) }
{
    let mut reply = update_reply(alloc, names, 1, 1, Vec::new(alloc)).ok()?;
    reply.keep_size();
    Some(reply)
}

/// A document with null under each of the names, or under the first of them when memory runs out.
fn nulls(alloc: Global, names: &[&str]) -> Document {
    let mut document = Document::new(alloc);
    for name in names {
        let _ = document.push(name, Value::Null);
    }
    document
}
