//! The result of carrying out a command.

ghost use Rattle.std.specs.Prelude.{◌≡◌};
ghost use Rattle.dv_core.specs.Told.{batch_name};

use dv_value::Document;

/// The result of carrying out a command.
#[derive(Debug, Drop)]
pub enum Outcome {
    /// The reply's body.
    Reply(Document),
    /// The body of a reply that reports that memory ran out: the command was refused for it and nothing changed, or it is a write
    /// that was cut at one of its statements.
    Wanting(Document),
    /// The step was made, also if memory ran out in it, and there was no memory for its reply.
    NoReply,
}

/// The reply with a batch of a cursor's rows, before its body is made.
#[derive(Debug, Drop)]
pub struct Batch {
    /// Whether it is the first batch.
    pub is_first: bool,
    pub namespace: String,
    /// The cursor that has the other rows; 0 if there is none.
    pub id: u64,
    pub rows: Vec<Document>,
}

impl Batch {
    /// The name under which the reply has the rows.
    pub fn name(&self) -> &'static str
        ensures { result.now ≡ batch_name self.now.is_first }
    {
        if self.is_first {
            "firstBatch"
        } else {
            "nextBatch"
        }
    }
}

/// The result of carrying out a command, before the body of a reply with rows is made.
#[derive(Debug, Drop)]
pub enum Told {
    /// The reply with a batch of rows.
    Batch(Batch),
    /// Another reply, or none.
    Outcome(Outcome),
}
