//! The outcomes of commands: their replies, or why they are refused.

ghost use Rattle.std.specs.Prelude.{◌≡◌, ◌<◌, ◌^◌, [], Ok, IfOk, OnErr};
ghost use Rattle.dv_refusal.specs.declared.refusal.Refusal.TheVariants.{WantOfMemory};
ghost use Rattle.dv_refusal.specs.Refusals.{UnlessWanting};
ghost use Rattle.dv_command.specs.Replies as replies;
ghost use Rattle.dv_core.specs.declared.outcome.Outcome.TheVariants.{Reply, NoReply};
ghost use Rattle.dv_core.specs.Inner.StepParts.{Refuses, TellsReply, reply_told};
ghost use Rattle.dv_core.specs.Told.{HasLongId, outcome_told};

use crate::outcome::{Batch, Outcome, Told};
use crate::reserve::Reserve;
use dv_command::Refusal;
use dv_command::replies::{hello_reply, refusal_reply, reply_of};
use dv_value::{Document, NoMemory};
use std::alloc::Global;

/// The outcome of a command: its reply, or why it is refused.
pub(crate) fn outcome_of(
    alloc: Global,
    reserve: &mut Reserve,
    reply: Result<Document, Refusal>,
) -> Outcome
    ensures { TellsReply reply result }
{
    match reply {
        Ok(reply) => Outcome::Reply(reply),
        Err(refusal) => refuse(alloc, reserve, refusal),
    }
}

/// The result of a command that replies with rows: its batch, or why it is refused.
pub(crate) fn batch_or_refusal(
    alloc: Global,
    reserve: &mut Reserve,
    reply: Result<Batch, Refusal>,
) -> Told
    requires { IfOk reply (λ batch. batch.id < 2 ^ 63) }
    ensures reply { TellsReply (reply_told reply) (outcome_told result) }
    ensures id { HasLongId result }
{
    match reply {
        Ok(batch) => Told::Batch(batch),
        Err(refusal) => Told::Outcome(refuse(alloc, reserve, refusal)),
    }
}

/// The outcome of a command that was carried out, and for whose reply memory may have run out.
pub(crate) fn told(reply: Result<Document, NoMemory>) -> Outcome
    ensures ok { IfOk reply (λ told. result ≡ Reply told) }
    ensures err { OnErr reply (result ≡ NoReply) }
{
    match reply {
        Ok(reply) => Outcome::Reply(reply),
        Err(_) => Outcome::NoReply,
    }
}

/// The outcome of a command that is refused: when memory runs out for the reply, it is refused for that.
pub(crate) fn refuse(alloc: Global, reserve: &mut Reserve, refusal: Refusal) -> Outcome
    ensures { Refuses refusal result }
{
    if matches!(refusal, Refusal::WantOfMemory) {
        return refuse_for_memory(alloc, reserve);
    }
    match refusal_reply(alloc, &refusal) {
        Ok(reply) => Outcome::Reply(reply),
        Err(_) => refuse_for_memory(alloc, reserve),
    }
}

/// The outcome of a command that is refused because memory ran out. The reserve is given back for its reply.
fn refuse_for_memory(alloc: Global, reserve: &mut Reserve) -> Outcome
    ensures { Refuses WantOfMemory result }
{
    reserve.give_back();
    match refusal_reply(alloc, &Refusal::WantOfMemory) {
        Ok(reply) => Outcome::Wanting(reply),
        Err(_) => Outcome::NoReply,
    }
}

/// The reply to a ping. Refused when memory runs out.
pub(crate) fn ping(alloc: Global) -> Result<Document, Refusal>
    ensures { UnlessWanting (λ reply. reply) (Ok (replies.reply_of [])) result }
{
    Ok(reply_of(Document::new(alloc))?)
}

/// The reply to a greeting. Refused when memory runs out.
pub(crate) fn hello(alloc: Global) -> Result<Document, Refusal>
    ensures { UnlessWanting (λ reply. reply) (Ok replies.hello_reply) result }
{
    Ok(hello_reply(alloc)?)
}
