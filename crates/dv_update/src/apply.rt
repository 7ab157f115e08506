//! The result of an update for a document.

ghost use Rattle.std.specs.Prelude.{◌≡◌, [], nat_lt, ◌⊎◌, Err, length, codes, IfErr, IfOk};
ghost use Rattle.std.specs.Option.{option_map};
ghost use Rattle.dv_value.specs.Names.{value_under};
ghost use Rattle.dv_value.specs.Spelling.{spelling};
ghost use Rattle.dv_value.specs.View.{tree};
ghost use Rattle.dv_value.specs.Results.{Gives};
ghost use Rattle.dv_update.specs.declared.fault.UpdateFault.TheVariants.{NoMemory as no_memory};
ghost use Rattle.dv_update.specs.Apply as defined;
ghost use Rattle.dv_order.specs.Same.{both_same};
ghost use Rattle.dv_update.specs.Inner.Standing.{Likewise};
ghost use Rattle.dv_update.specs.UpdateView.{update};
ghost use Rattle.dv_update.specs.declared.fault.UpdateFault.TheVariants.{NoMemory as wanting};

use crate::fault::UpdateFault;
use crate::filling::refuse_too_large;
use crate::form::Update;
use crate::stand_in::edited_or_alike;
use dv_order::is_same;
use dv_value::{Document, MAX_DOCUMENT_LEN, NoMemory, Value, fits, size};
use std::alloc::Global;

/// The name of the field that a stored document begins with.
pub(crate) const ID: &str = "_id";

impl Update {
    /// The result of the update for the document, which is unchanged.
    ///
    /// Edits are made one after the other, and the first refusal is returned: `NotViable` if no value can be put at the path,
    /// `NotNumber` and `Overflow` of `$inc`, `NotArray` of `$push` and `$pull`. The result of a replacement begins with the
    /// replacement's `_id`, or else with the document's. Then `IdChanged` is returned if the result doesn't begin with the `_id`
    /// with which the document begins, in the same encoding, `TooLarge` above 16,777,216 bytes, and `TooDeep` above 100 levels.
    /// Fails with `NoMemory` when memory runs out.
    ///
    /// What isn't changed is shared with the document. If one of a document's fields is changed, these fields are copied once. A
    /// `$set`, `$unset` or `$pull` that changes nothing copies none.
    pub fn apply(&self, alloc: Global, document: &Document) -> Result<Document, UpdateFault>
        ensures { Gives no_memory (λ changed. changed) result (defined.applied (update self.now) document.now) }
    {
        self.refuse_too_large(alloc, document)?;
        let mut changed = self.change(alloc, document)?;
        changed.keep_size();
        if !keeps_id(document, &changed) {
            return Err(UpdateFault::IdChanged);
        }
        if fits(&changed) {
            return Ok(changed);
        }
        if is_too_large(&changed) {
            return Err(UpdateFault::TooLarge);
        }
        Err(UpdateFault::TooDeep)
    }

    /// Returns the fault of the result, if the result is surely too large.
    fn refuse_too_large(&self, alloc: Global, document: &Document) -> Result<(), UpdateFault>
        ensures { IfErr result (λ f. (f ≡ wanting) ⊎ (defined.applied (update self.now) document.now ≡ Err f)) }
    {
        match self {
            Update::Replacement(_) => Ok(()),
            Update::Operators(edits) => refuse_too_large(alloc, edits, document),
        }
    }

    /// The result before it is checked, or a document that is refused as the result is.
    fn change(&self, alloc: Global, document: &Document) -> Result<Document, UpdateFault>
        ensures { Likewise document.now result (defined.changed (update self.now) document.now) }
    {
        match self {
            Update::Replacement(fields) => Ok(replaced(alloc, fields, document)?),
            Update::Operators(edits) => edited_or_alike(alloc, edits, document),
        }
    }
}

/// The fields with their own `_id`, or else the document's, at the front. Fails when memory runs out.
fn replaced(alloc: Global, fields: &Document, document: &Document) -> Result<Document, NoMemory>
    ensures { IfOk result (λ changed. changed ≡ defined.replaced fields.now document.now) }
{
    let mut changed = id_alone(alloc, chosen_id(fields, document))?;
    'others: for (name, value) in fields.iter() {
        if name != ID {
            changed.add(name, value.try_clone()?)?;
        }
    }
    Ok(changed)
}

/// A document with this `_id`, if there is one, and nothing else. Fails when memory runs out.
fn id_alone(alloc: Global, id: Option<&Value>) -> Result<Document, NoMemory>
    ensures { IfOk result (λ document. document ≡ defined.with_id (option_map (λ id. tree id.now) id.entry) []) }
{
    let mut document = Document::new(alloc);
    if let Some(id) = id {
        document.add(ID, id.try_clone()?)?;
    }
    Ok(document)
}

/// The value under `_id` in the first document, or else in the second.
fn chosen_id<'a>(fields: &'a Document, document: &'a Document) -> Option<&'a Value>
    ensures { option_map (λ id. tree id.now) result ≡ defined.chosen (value_under (codes "_id") fields.now) (value_under (codes "_id") document.now) }
{
    match fields.get(ID) {
        Some(id) => Some(id),
        None => document.get(ID),
    }
}

/// Whether both documents begin with the same `_id`, or neither with one.
pub(crate) fn keeps_id(old: &Document, new: &Document) -> bool
    ensures { result ≡ both_same (defined.leading_id old.now) (defined.leading_id new.now) }
{
    match (leading_id(old), leading_id(new)) {
        (None, None) => true,
        (Some(a), Some(b)) => is_same(a, b),
        _ => false,
    }
}

/// The `_id` with which the document begins.
pub(crate) fn leading_id(document: &Document) -> Option<&Value>
    ensures { option_map (λ id. tree id.now) result ≡ defined.leading_id document.now }
{
    match document.entry(0) {
        Some((name, value)) if name == ID => Some(value),
        _ => None,
    }
}

/// Whether the document is longer than a stored one may be.
fn is_too_large(document: &Document) -> bool
    ensures { result ≡ nat_lt defined.document_limit (length (spelling document.now)) }
{
    match size(document) {
        Some(size) => size > MAX_DOCUMENT_LEN,
        None => true,
    }
}
