//! The namespace into which documents are loaded.

ghost use Rattle.std.specs.Prelude.{◌≡◌, ◌&&◌, not, nat_lt, length};
ghost use Rattle.std.specs.String.{string_bytes};
ghost use Rattle.dv_value.specs.Names.{has_zero};
ghost use Rattle.dv_core.specs.Load as defined;
ghost use Rattle.dv_refusal.specs.Refusals.{UnlessWanting};

use dv_command::Refusal;
use dv_command::namespaces::namespace;
use std::alloc::Global;

/// The namespace that a text names: the name of a database, a dot, and the name of a collection. Refused with `BadValue` if one of
/// them is no such name, if there is no dot, or if the text is over 120 bytes; and with `WantOfMemory`.
pub(crate) fn namespace_in(alloc: Global, text: &str) -> Result<String, Refusal>
    ensures { UnlessWanting string_bytes (defined.namespace_in text.now) result }
{
    match text.split_once('.') {
        // There is no dot before the first one.
        Some((database, collection)) if is_filled(database) => {
            namespace(alloc, database, collection)
        }
        _ => Err(Refusal::BadValue),
    }
}

/// Whether the name is not empty, and without a zero byte.
fn is_filled(name: &str) -> bool
    ensures { result ≡ (nat_lt 0 (length name.now) && not (has_zero name.now)) }
{
    !name.is_empty() && !name.as_bytes().contains(&0)
}
