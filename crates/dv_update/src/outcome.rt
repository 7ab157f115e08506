//! What an update changes in a document: nothing, one field, or the whole document.

ghost use Rattle.std.specs.Prelude.{◌≡◌, ℕ, List, false, codes, IfOk, IfSome};
ghost use Rattle.std.specs.Option.{option_map};
ghost use Rattle.std.specs.Str.{bytes_eq};
ghost use Rattle.dv_value.specs.Names.{has_zero};
ghost use Rattle.dv_value.specs.Tree.{Field};
ghost use Rattle.dv_value.specs.Results.{Gives};
ghost use Rattle.dv_update.specs.declared.fault.UpdateFault.TheVariants.{NoMemory as no_memory};
ghost use Rattle.dv_update.specs.Apply.{applied};
ghost use Rattle.dv_update.specs.Inner.Outcome.{IsOutcome};
ghost use Rattle.dv_update.specs.Outcome as defined;
ghost use Rattle.dv_update.specs.UpdateView.{update};
ghost use Rattle.dv_update.specs.View.{operation};

use crate::apply::ID;
use crate::fault::UpdateFault;
use crate::form::{Operation, Update};
use dv_order::same_documents;
use dv_value::{Document, FieldChange, NoMemory};
use std::alloc::Global;

/// The result of an update for a document.
#[derive(Debug, Drop)]
pub enum Outcome {
    /// Its encoding stays as it is.
    Same,
    /// The field under the update's sole name is changed in this way.
    Field(FieldChange),
    /// It becomes this document.
    Whole(Document),
}

impl Outcome {
    /// Whether the document's encoding stays as it is. Takes no memory.
    pub fn stays(&self) -> bool
        ensures { result ≡ defined.stays self.now }
    {
        matches!(self, Outcome::Same)
    }

    /// Makes a whole document share the names of another one, if they are the same. A caller sees no change except in how much
    /// memory is taken.
    pub fn share_names(&mut self, with: &Outcome)
        ensures seen { (name : List ℕ) → (d : List Field) → defined.outcome_seen name d self.new ≡ defined.outcome_seen name d self.old }
        ensures stays { defined.stays self.new ≡ defined.stays self.old }
    {
        let Outcome::Whole(other) = with else {
            return;
        };
        if let Outcome::Whole(document) = self {
            document.share_names(other);
        }
    }
}

impl Update {
    /// The name of the one field that the update changes, if it has one edit, whose path is one name and not `_id`; else the empty
    /// name, which is in no path.
    pub fn sole_name(&self) -> &str
        ensures name { result.now ≡ defined.sole_name (update self.now) }
        ensures no_id { bytes_eq result.now (codes "_id") ≡ false }
        ensures whole { has_zero result.now ≡ false }
    {
        match self.sole_edit() {
            Some((name, _)) => name,
            None => "",
        }
    }

    /// The result of the update for the document, which is unchanged. It is the result of `apply`, and is refused as there. If one
    /// value is put under the sole name, or at the end of the array there, and surely has room, nothing else is copied: then a
    /// `Field` is returned. `Same` is returned exactly if the document's encoding stays as it is.
    pub fn outcome(&self, alloc: Global, document: &Document) -> Result<Outcome, UpdateFault>
        ensures applied { Gives no_memory (λ outcome. defined.document_seen (update self.now) document.now outcome) result (applied (update self.now) document.now) }
        ensures same { IfOk result (λ outcome. defined.stays outcome ≡ defined.stays_so (defined.sole_name (update self.now)) document.now outcome) }
    {
        match self.field_alone(document)? {
            Some(outcome) => Ok(outcome),
            None => self.whole_outcome(alloc, document),
        }
    }

    /// The result of the update, as `outcome` returns it, but always as a whole document or as `Same`.
    pub fn whole_outcome(&self, alloc: Global, document: &Document) -> Result<Outcome, UpdateFault>
        ensures applied { Gives no_memory (λ outcome. defined.document_seen (update self.now) document.now outcome) result (applied (update self.now) document.now) }
        ensures same { IfOk result (λ outcome. defined.stays outcome ≡ defined.stays_so (defined.sole_name (update self.now)) document.now outcome) }
        ensures whole { IfOk result (λ outcome. defined.is_field outcome ≡ false) }
    {
        let after = self.apply(alloc, document)?;
        if same_documents(document, &after) {
            return Ok(Outcome::Same);
        }
        Ok(Outcome::Whole(after))
    }

    /// The outcome if the field under the sole name is all that changes, and the document surely has room for it. Fails when memory
    /// runs out.
    fn field_alone(&self, document: &Document) -> Result<Option<Outcome>, NoMemory>
        ensures applied { IfOk result (λ found. IfSome found (λ outcome. IsOutcome (update self.now) document.now outcome)) }
        ensures same { IfOk result (λ found. IfSome found (λ outcome. defined.stays outcome ≡ defined.stays_so (defined.sole_name (update self.now)) document.now outcome)) }
    {
        match self.sole_edit() {
            Some((name, operation)) => operation.outcome_under(document, name),
            None => Ok(None),
        }
    }

    /// The name and the operation of the one edit, if its path is one name and not `_id`.
    fn sole_edit(&self) -> Option<(&str, &Operation)>
        ensures edit { option_map (λ edit. (edit.0.now, operation edit.1.now)) result ≡ defined.sole_edit (update self.now) }
        ensures no_id { IfSome result (λ edit. bytes_eq edit.0.now (codes "_id") ≡ false) }
        ensures whole { IfSome result (λ edit. has_zero edit.0.now ≡ false) }
    {
        let Update::Operators(edits) = self else {
            return None;
        };
        let [edit] = edits.as_slice() else {
            return None;
        };
        let [component] = edit.path.components() else {
            return None;
        };
        let name = component.as_str();
        if name == ID {
            return None;
        }
        Some((name, &edit.operation))
    }
}
