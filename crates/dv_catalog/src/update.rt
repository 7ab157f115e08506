//! Updating documents.

ghost use Rattle.std.specs.Prelude.{◌≡◌, ◌≤◌, ◌++◌, ℕ, List, Some, codes, false, filter, length, take, IfOk, OnErr, OnOk};
ghost use Rattle.std.specs.Str.{bytes_eq};
ghost use Rattle.dv_value.specs.Names.{has_zero};
ghost use Rattle.dv_coll.specs.Collection.{HasId, found, id_key, replaced};
ghost use Rattle.dv_refusal.specs.Refusals.{UnlessWanting};
ghost use Rattle.dv_command.specs.Inner.View.{updating_seen};
ghost use Rattle.dv_catalog.specs.Changes.{breaks, done_to, with_changes};
ghost use Rattle.dv_catalog.specs.Effects as effects;
ghost use Rattle.dv_catalog.specs.Inner.EffectView.{ArePlaced, AreUpdatesOf, StandsFor, after_of, changes_seen, effect_seen, new_documents, old_documents, unless_it_stays, update_changes};
ghost use Rattle.dv_catalog.specs.State.{AreOrdered};
ghost use Rattle.dv_index.specs.Inner.Indexed.{with_documents};
ghost use Rattle.dv_index.specs.Inner.View.{afters as documents_after, befores as documents_before};
ghost use Rattle.dv_pipe.specs.Sources.{rows_referred};
ghost use Rattle.dv_update.specs.Apply.{applied};
ghost use Rattle.dv_update.specs.Outcome as outcomes;
ghost use Rattle.dv_update.specs.declared.fault.UpdateFault.TheVariants.{NoMemory as no_memory};
ghost use Rattle.dv_value.specs.Results.{Gives};
ghost use Rattle.dv_update.specs.UpdateView as seen;

use crate::effect::{Changes, Effect, Updated, Updates};
use crate::selection::chosen;
use dv_coll::{key_of_id, laws};
use dv_command::{Refusal, Updating};
use dv_index::{IndexedCollection, Replacing};
use dv_update::{Outcome, Update, UpdateFault};
use dv_value::{Document, Name, NoMemory};
use std::alloc::Global;

/// What an updating does to a collection; if `whole` is true, each result is a whole document. Refused as the first refused
/// document is, then with `DuplicateKey` if one of the changes, made one after the other, would put a key of a unique index under
/// two `_id`s, and when memory runs out.
pub(crate) fn updated_in(
    alloc: Global,
    collection: &IndexedCollection,
    updating: &Updating,
    whole: bool,
) -> Result<Effect, Refusal>
    ensures effect { UnlessWanting effect_seen (done_to collection.now (effects.update_chosen (updating_seen updating.now))) result }
    ensures ordered { AreOrdered collection.now.documents }
    ensures placed { IfOk result (λ effect. ArePlaced collection.now.documents (changes_seen effect.changes)) }
    ensures standing { IfOk result (λ effect. StandsFor collection.now.documents effect.changes) }
{
    // The keys of a unique index are read from whole documents.
    let whole = whole || collection.has_unique();
    let effect = updated(alloc, collection, updating, whole)?;
    if effect.changes.clash_in(alloc, collection)? {
        return Err(Refusal::DuplicateKey);
    }
    Ok(effect)
}

/// What an updating does to the documents of a collection; if `whole` is true, each result is a whole document. Refused as the
/// first refused document is, and when memory runs out.
fn updated(
    alloc: Global,
    collection: &IndexedCollection,
    updating: &Updating,
    whole: bool,
) -> Result<Effect, Refusal>
    ensures effect { UnlessWanting effect_seen (effects.update_chosen (updating_seen updating.now) collection.now.documents) result }
    ensures ordered { AreOrdered collection.now.documents }
    ensures placed { IfOk result (λ effect. ArePlaced collection.now.documents (changes_seen effect.changes)) }
    ensures standing { IfOk result (λ effect. StandsFor collection.now.documents effect.changes) }
{
    laws::replaced_document_is_found();
    laws::documents_stand_where_they_are_found();
    dv_update::laws::the_id_stays();
    // The documents are in order.
    collection.law_ascending();
    let documents = chosen(collection, &updating.filter, !updating.multi)?;
    let each = changed_by(alloc, &updating.update, &documents, whole)?;
    let name = name_of(alloc, &updating.update)?;
    Ok(Effect {
        matched: documents.len(),
        changes: Changes::Put(Updates { name, each }),
    })
}

/// The sole name of an update. Fails when memory runs out.
fn name_of(alloc: Global, update: &Update) -> Result<Name, NoMemory>
    ensures name { IfOk result (λ name. name ≡ outcomes.sole_name (seen.update update.now)) }
    ensures no_id { IfOk result (λ name. bytes_eq name (codes "_id") ≡ false) }
    ensures whole { IfOk result (λ name. has_zero name ≡ false) }
{
    Name::of(alloc, update.sole_name())
}

/// The results of an update for the documents, in order, without those whose encoding stays the same. Refused as the first refused
/// document is, and when memory runs out.
fn changed_by(
    alloc: Global,
    update: &Update,
    documents: &[&Document],
    whole: bool,
) -> Result<Vec<Updated>, Refusal>
    ensures afters { UnlessWanting (λ changed. new_documents (outcomes.sole_name (seen.update update.now)) changed.items)
        (effects.changed_by (seen.update update.now) (rows_referred documents.now)) result }
    ensures befores { IfOk result (λ changed. old_documents changed.items ≡ filter (effects.changes (seen.update update.now)) (rows_referred documents.now)) }
{
    let mut changed = Vec::new(alloc);
    'documents: for document in documents {
        let outcome = outcome_of(alloc, update, document, whole)?;
        add_changed(&mut changed, document, outcome)?;
    }
    Ok(changed)
}

/// Adds a document to the changed ones, unless its encoding stays the same. A whole result shares the names of the result before
/// it, if they are the same. Fails when memory runs out.
fn add_changed(
    changed: &mut Vec<Updated>,
    document: &Document,
    mut outcome: Outcome,
) -> Result<(), NoMemory>
    ensures afters { OnOk result ((name : List ℕ) → new_documents name changed.new.items
        ≡ new_documents name changed.old.items ++ unless_it_stays outcome (outcomes.outcome_seen name document.now outcome)) }
    ensures befores { OnOk result (old_documents changed.new.items ≡ old_documents changed.old.items ++ unless_it_stays outcome document.now) }
{
    if outcome.stays() {
        return Ok(());
    }
    if let Some(last) = changed.last() {
        outcome.share_names(&last.outcome);
    }
    let before = document.try_clone()?;
    changed.push(Updated { before, outcome })?;
    Ok(())
}

/// The result of an update for a document, as `Update::outcome` returns it; if `whole` is true, as a whole document.
fn outcome_of(
    alloc: Global,
    update: &Update,
    document: &Document,
    whole: bool,
) -> Result<Outcome, UpdateFault>
    ensures applied { Gives no_memory (outcomes.outcome_seen (outcomes.sole_name (seen.update update.now)) document.now) result
        (applied (seen.update update.now) document.now) }
    ensures same { IfOk result (λ outcome. outcomes.stays outcome ≡ outcomes.stays_so (outcomes.sole_name (seen.update update.now)) document.now outcome) }
{
    if whole {
        update.whole_outcome(alloc, document)
    } else {
        update.outcome(alloc, document)
    }
}

/// Whether one of the updated documents, put one after the other, has a key of a unique index that a document with another `_id`
/// has. Fails when memory runs out.
pub(crate) fn updates_clash(
    alloc: Global,
    collection: &IndexedCollection,
    updates: &Updates,
) -> Result<bool, NoMemory>
    requires placed { ArePlaced collection.now.documents (update_changes updates.now.name updates.now.each.items) }
    requires standing { AreUpdatesOf collection.now.documents updates.now.name updates.now.each.items }
    ensures { IfOk result (λ clash. clash ≡ breaks collection.now.indexes (update_changes updates.now.name updates.now.each.items) collection.now.documents) }
{
    if !collection.has_unique() {
        return Ok(false);
    }
    let afters = afters_of(alloc, updates)?;
    let pairs = replacings(alloc, &updates.each, &afters)?;
    collection.replacing_clashes(&pairs)
}

/// The updated documents, as they are after the update. Fails when memory runs out.
fn afters_of(alloc: Global, updates: &Updates) -> Result<Vec<Document>, NoMemory>
    requires whole { has_zero updates.now.name ≡ false }
    ensures { IfOk result (λ afters. afters.items ≡ new_documents updates.now.name updates.now.each.items) }
{
    let mut afters = Vec::with_capacity(alloc, updates.each.len())?;
    'documents: for document in &updates.each {
        afters.push(document.after(updates.name.as_str())?)?;
    }
    Ok(afters)
}

/// Each updated document, before and after the update. Fails when memory runs out.
fn replacings<'d>(
    alloc: Global,
    each: &'d [Updated],
    afters: &'d [Document],
) -> Result<Vec<Replacing<'d>>, NoMemory>
    requires { length afters.now ≡ length each.now }
    ensures before { IfOk result (λ pairs. documents_before pairs.items ≡ old_documents each.now) }
    ensures after { IfOk result (λ pairs. documents_after pairs.items ≡ afters.now) }
{
    let mut pairs = Vec::with_capacity(alloc, each.len())?;
    'documents: for (document, after) in each.iter().zip(afters) {
        let before = &document.before;
        pairs.push(Replacing { before, after })?;
    }
    Ok(pairs)
}

/// Puts the updated documents in place of the old ones, until memory runs out, and returns how many were put. If only one field is
/// changed, it is the one under the name.
pub(crate) fn put_each(collection: &mut IndexedCollection, name: &str, each: Vec<Updated>) -> usize
    requires placed { ArePlaced collection.old.documents (update_changes name.now each.items) }
    requires standing { AreUpdatesOf collection.old.documents name.now each.items }
    ensures count { result ≤ length each.items }
    ensures made { collection.new ≡ with_documents (with_changes collection.old.documents (take result (update_changes name.now each.items))) collection.old }
{
    laws::documents_stand_where_they_are_found();
    let count = each.len();
    let mut made = 0;
    'documents: for document in each {
        let Ok(()) = put_one(collection, name, document) else {
            return made;
        };
        made += 1;
    }
    count
}

/// Puts an updated document in place of the old one. A single field is changed in place, if nothing else shares the fields. Fails
/// when memory runs out; then nothing is changed.
fn put_one(
    collection: &mut IndexedCollection,
    name: &str,
    document: Updated,
) -> Result<(), NoMemory>
    requires identified { HasId (after_of name.now document) }
    requires standing { found (id_key document.before) collection.old.documents ≡ Some document.before }
    requires no_id { bytes_eq name.now (codes "_id") ≡ false }
    requires whole { has_zero name.now ≡ false }
    ensures ok { OnOk result (collection.new ≡ with_documents (replaced (after_of name.now document) collection.old.documents) collection.old) }
    ensures err { OnErr result (collection.new ≡ collection.old) }
{
    laws::what_is_found_has_the_key();
    // The documents begin with their `_id`s.
    collection.law_ascending();
    let Updated { before, outcome } = document;
    let _ = match outcome {
        Outcome::Same => collection.replace(before)?,
        Outcome::Whole(after) => collection.replace(after)?,
        Outcome::Field(change) => {
            let key = key_of_id(&before)?;
            drop(before);
            collection.change_field(&key, name, change)?
        }
    };
    Ok(())
}
