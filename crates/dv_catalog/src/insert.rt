//! Inserting documents.

ghost use Rattle.std.specs.Prelude.{◌≡◌, ◌∷◌, [], OnErr, OnOk};
ghost use Rattle.dv_coll.specs.Collection.{HasId};
ghost use Rattle.dv_refusal.specs.Refusals.{UnlessWanting};
ghost use Rattle.dv_catalog.specs.Changes.{done_to, put, with_put};
ghost use Rattle.dv_catalog.specs.Effects as effects;
ghost use Rattle.dv_index.specs.Inner.Indexed.{with_documents};

use dv_command::Refusal;
use dv_index::IndexedCollection;
use dv_value::Document;

/// Puts a document into a collection. Refused with `DuplicateKey` if another document has an equal `_id`, or has a key in common
/// with this one in a unique index, and with `WantOfMemory`; then nothing is changed.
pub(crate) fn put_new(collection: &mut IndexedCollection, document: Document) -> Result<(), Refusal>
    requires { HasId document }
    ensures done { UnlessWanting (λ _. record { matched = 1; changes = put document ∷ [] }) (done_to collection.old (effects.put_new document)) result }
    ensures ok { OnOk result (collection.new ≡ with_documents (with_put document collection.old.documents) collection.old) }
    ensures err { OnErr result (collection.new ≡ collection.old) }
{
    if collection.clashes(&document)? {
        return Err(Refusal::DuplicateKey);
    }
    collection.insert(document)?;
    Ok(())
}
