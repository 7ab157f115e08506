//! Commands on indexes.

ghost use Rattle.std.specs.Prelude.{◌≡◌, IfOk, map};
ghost use Rattle.dv_catalog.specs.Inner.IndexParts.{explained_seen};
ghost use Rattle.dv_command.specs.Inner.View.{index_seen};
ghost use Rattle.dv_core.specs.Indexes.{explained_reply, form_asked};
ghost use Rattle.dv_keyed.specs.Inner.View.{form_of_new};
ghost use Rattle.dv_refusal.specs.Refusals.{UnlessWanting};
ghost use Rattle.std.specs.Prelude.{Ok};

use dv_catalog::{Access, Explained};
use dv_command::replies::explain_reply;
use dv_command::{IndexAsked, Refusal};
use dv_index::NewIndex;
use dv_value::{Document, NoMemory};
use std::alloc::Global;

/// The reply that says how a find is answered. Refused when memory runs out.
pub(crate) fn explained(alloc: Global, told: Explained) -> Result<Document, Refusal>
    ensures { UnlessWanting (λ reply. reply) (Ok (explained_reply (explained_seen told))) result }
{
    let Explained { way, documents } = told;
    let reply = match way {
        Access::View => explain_reply(alloc, "VIEW", None, documents)?,
        Access::Index(name) => explain_reply(alloc, "IXSCAN", Some(&name), documents)?,
        Access::All => explain_reply(alloc, "COLLSCAN", None, documents)?,
    };
    Ok(reply)
}

/// The indexes that are asked for, in order. Fails when memory runs out.
pub(crate) fn new_indexes(
    alloc: Global,
    indexes: Vec<IndexAsked>,
) -> Result<Vec<NewIndex>, NoMemory>
    ensures { IfOk result (λ made. map form_of_new made.items ≡ map form_asked (map index_seen indexes.items)) }
{
    let mut made = Vec::with_capacity(alloc, indexes.len())?;
    'indexes: for asked in indexes {
        let IndexAsked { name, path, unique } = asked;
        made.push(NewIndex { name, path, unique })?;
    }
    Ok(made)
}
