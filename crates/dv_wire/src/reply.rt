//! The bodies of replies, as they are sent.

ghost use Rattle.std.specs.Prelude.{◌≡◌, ◌∷◌, ◌++◌, OnErr, OnOk};
ghost use Rattle.dv_value.specs.Spelling.{spelling};
ghost use Rattle.dv_message.specs.Message.{message_spelling};

use dv_core::Batch;
use dv_message::{append_batch, append_reply};
use dv_value::{Document, NoMemory};

/// The body of a reply.
#[derive(Debug, Drop)]
pub(crate) enum Body {
    Whole(Document),
    /// That of a reply with rows, which is made only as it is sent.
    Batch(Batch),
}

impl Body {
    ghost use Rattle.dv_wire.specs.Inner.View.{body_seen};

    /// Appends a message with this body as the reply to a request. If memory runs out nothing is appended.
    pub(crate) fn append(&self, request_id: u32, out: &mut Vec<u8>) -> Result<(), NoMemory>
        ensures ok { OnOk result (out.new.items ≡ out.old.items ++ message_spelling 0 request_id 0 (0 ∷ spelling (body_seen self.now))) }
        ensures err { OnErr result (out.new.items ≡ out.old.items) }
    {
        match self {
            Body::Whole(document) => append_reply(request_id, document, out),
            Body::Batch(batch) => append_batch(
                request_id,
                batch.name(),
                &batch.namespace,
                batch.id,
                &batch.rows,
                out,
            ),
        }
    }
}
