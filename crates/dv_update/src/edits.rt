//! The result of an update's edits for a document.

ghost use Rattle.std.specs.Prelude.{◌≡◌, map, false, IfOk};
ghost use Rattle.dv_value.specs.Results.{Gives};
ghost use Rattle.dv_update.specs.declared.fault.UpdateFault.TheVariants.{NoMemory as no_memory};
ghost use Rattle.dv_update.specs.Apply as defined;
ghost use Rattle.dv_update.specs.Parsing.{has_conflict};
ghost use Rattle.dv_update.specs.Removals as last;
ghost use Rattle.dv_update.specs.View.{edit, operation};

use crate::fault::UpdateFault;
use crate::form::{Edit, Edits, Operation};
use crate::laws;
use crate::order::are_apart;
use dv_candidates::Path;
use dv_path::remove_each;
use dv_value::{Document, NoMemory};
use std::alloc::Global;

/// Makes the edits one after the other.
///
/// If there are several removals, and no path begins or equals another one, the removals are made last and all at once. The result
/// is the same. Made one after the other, each removal would copy the names of all fields that stay.
pub(crate) fn edited(
    alloc: Global,
    edits: &Edits,
    document: Document,
) -> Result<Document, UpdateFault>
    ensures { Gives no_memory (λ changed. changed) result (defined.edited edits.now document) }
{
    let edits = edits.as_slice();
    let removals = removals(alloc, edits)?;
    if removals.len() > 1 && are_apart(edits) {
        return removals_last(alloc, edits, &removals, document);
    }
    in_turn(alloc, edits, document)
}

/// Makes the edits, of which no path begins or equals another one, with the removals last.
fn removals_last(
    alloc: Global,
    edits: &[Edit],
    removals: &[&Path],
    document: Document,
) -> Result<Document, UpdateFault>
    requires apart { has_conflict (map edit edits.now) ≡ false }
    requires paths { map (λ path. path.now) removals.now ≡ last.removals (map edit edits.now) }
    ensures { Gives no_memory (λ changed. changed) result (defined.edited (map edit edits.now) document) }
{
    laws::removals_may_come_last();
    let changed = others_in_turn(alloc, edits, document)?;
    Ok(remove_each(alloc, changed, removals)?)
}

fn in_turn(alloc: Global, edits: &[Edit], document: Document) -> Result<Document, UpdateFault>
    ensures { Gives no_memory (λ changed. changed) result (defined.edited (map edit edits.now) document) }
{
    let mut changed = document;
    'edits: for edit in edits {
        changed = edit.make(alloc, changed)?;
    }
    Ok(changed)
}

/// Makes the edits that aren't removals one after the other.
fn others_in_turn(
    alloc: Global,
    edits: &[Edit],
    document: Document,
) -> Result<Document, UpdateFault>
    ensures { Gives no_memory (λ changed. changed) result (defined.edited (last.other_edits (map edit edits.now)) document) }
{
    let mut changed = document;
    'edits: for edit in edits {
        if !edit.is_removal() {
            changed = edit.make(alloc, changed)?;
        }
    }
    Ok(changed)
}

/// The paths of the removals.
pub(crate) fn removals(alloc: Global, edits: &[Edit]) -> Result<Vec<&Path>, NoMemory>
    ensures { IfOk result (λ paths. map (λ path. path.now) paths.items ≡ last.removals (map edit edits.now)) }
{
    let mut paths = Vec::new(alloc);
    'edits: for edit in edits {
        if edit.is_removal() {
            paths.push(&edit.path)?;
        }
    }
    Ok(paths)
}

impl Edit {
    pub(crate) fn is_removal(&self) -> bool
        ensures { result ≡ last.is_removal (operation self.now.operation) }
    {
        matches!(self.operation, Operation::Unset)
    }
}
