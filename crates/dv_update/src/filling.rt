//! Finds out that the result of edits is too large before any of it is made.
//!
//! A path may lead beyond an array's end, and nulls fill the array up to it: 100,000 of them for a few bytes of an update, which
//! may have many such paths. So if the paths may fill in many nulls, the least size of the filled arrays is counted first. If that
//! is too much, the edits are made without those that fill an array: whether a further edit is refused doesn't depend on these. An
//! edit that fills an array in `_id` changes the `_id`.

ghost use Rattle.std.specs.Prelude.{◌≡◌, ◌≤◌, ◌⊎◌, Some, Err, map, true, IfErr, IfOk, IsTrue};
ghost use Rattle.std.specs.List.{list_any};
ghost use Rattle.std.specs.Option.{option_map};
ghost use Rattle.dv_value.specs.Tree.{array, document as whole_document, elements_of, fields_of};
ghost use Rattle.dv_value.specs.View.{tree};
ghost use Rattle.dv_update.specs.Apply as defined;
ghost use Rattle.dv_update.specs.Inner.Filling as filling;
ghost use Rattle.dv_update.specs.Inner.Filling.{IsTooLarge, Unfilled, UnfillsOne, judged};
ghost use Rattle.dv_update.specs.Inner.FillView.{fill};
ghost use Rattle.dv_update.specs.Inner.Collected.{Steps};
ghost use Rattle.dv_update.specs.Removals as last_of;
ghost use Rattle.dv_update.specs.View.{edit as seen};
ghost use Rattle.dv_update.specs.declared.fault.UpdateFault.TheVariants.{NoMemory as wanting};

use crate::apply::{ID, keeps_id, leading_id};
use crate::edits::removals;
use crate::far::lead_far;
use crate::fault::UpdateFault;
use crate::form::{Edit, Edits};
use crate::laws;
use crate::order::{are_apart, is_beginning};
use dv_candidates::{Component, Path};
use dv_path::remove_each;
use dv_value::{Document, List, MAX_DOCUMENT_LEN, NoMemory, Value};
use std::alloc::Global;

/// The most nulls that are made without counting them first.
const FEW_NULLS: usize = 1_000_000;

/// How many nulls one path fills in at most.
const MOST_FILLED: usize = 100_000;

/// Where the path of an edit leads beyond the end of an array.
#[derive(Clone, Copy)]
pub(crate) struct Fill<'a> {
    path: &'a [Component],
    /// The rest of the path from the array on. It begins with the place beyond the array's end.
    rest: &'a [Component],
}

/// Returns the fault of the edits' result, if arrays are filled so far that the result is surely too large.
pub(crate) fn refuse_too_large(
    alloc: Global,
    edits: &Edits,
    document: &Document,
) -> Result<(), UpdateFault>
    ensures { IfErr result (λ f. (f ≡ wanting) ⊎ (judged document.now (defined.edited edits.now document.now) ≡ Err f)) }
{
    let all = edits.as_slice();
    if !may_fill_much(all) || lead_far(all) || !are_apart(all) {
        return Ok(());
    }
    laws::removals_may_come_first();
    let removals = removals(alloc, all)?;
    let left = remove_each(alloc, document.try_clone()?, &removals)?;
    refuse_filled(alloc, all, document, left)
}

/// Whether the paths may fill in many nulls.
fn may_fill_much(edits: &[Edit]) -> bool {
    let mut filled = 0usize;
    'edits: for edit in edits {
        filled = filled.saturating_add(most_filled(&edit.path));
    }
    filled > FEW_NULLS
}

/// How many nulls are filled in at most if the path leads beyond an array's end.
fn most_filled(path: &Path) -> usize {
    let mut most = 0;
    'components: for component in path.components() {
        if let Some(index) = component.index() {
            if index <= MOST_FILLED && index > most {
                most = index;
            }
        }
    }
    most
}

/// The same for the edits that aren't removals. The document is the old one after the removals.
fn refuse_filled(
    alloc: Global,
    edits: &[Edit],
    old: &Document,
    document: Document,
) -> Result<(), UpdateFault>
    requires { Steps (map seen edits.now) }
    ensures { IfErr result (λ f. (f ≡ wanting) ⊎ (judged old.now (defined.edited (last_of.other_edits (map seen edits.now)) document) ≡ Err f)) }
{
    if !fill_too_much(alloc, edits, &document)? {
        return Ok(());
    }
    dv_path::laws::paths_that_part_are_independent();
    dv_path::laws::what_was_put_is_there();
    if any_fills_id(edits, old) {
        made_without_fills(alloc, edits, document, true)?;
        return Err(UpdateFault::IdChanged);
    }
    let made = made_without_fills(alloc, edits, document, false)?;
    if keeps_id(old, &made) {
        Err(UpdateFault::TooLarge)
    } else {
        Err(UpdateFault::IdChanged)
    }
}

/// Whether one of the edits fills an array in the `_id` with which the document begins. The result then has another `_id`.
fn any_fills_id(edits: &[Edit], document: &Document) -> bool
    ensures { IsTrue result → list_any (filling.fills_id document.now) (map seen edits.now) ≡ true }
{
    'edits: for edit in edits {
        if fills_id(document, edit) {
            return true;
        }
    }
    false
}

/// Whether the edit fills an array in the `_id` with which the document begins.
fn fills_id(document: &Document, edit: &Edit) -> bool
    ensures { result ≡ filling.fills_id document.now (seen edit.now) }
{
    leading_id(document).is_some()
        && leads_into_id(edit.path.components())
        && fill_of(document, edit).is_some()
}

/// Whether the filled arrays are surely too long together, if no edit is refused. Fails when memory runs out.
fn fill_too_much(alloc: Global, edits: &[Edit], document: &Document) -> Result<bool, NoMemory>
    requires { Steps (map seen edits.now) }
    ensures { IfOk result (λ much. IsTrue much → IsTooLarge (defined.edited (last_of.other_edits (map seen edits.now)) document.now)) }
{
    dv_path::laws::paths_that_part_are_independent();
    dv_path::laws::what_was_put_is_there();
    dv_path::laws::slots_tell_what_is_put();
    let fills = fills(alloc, edits, document)?;
    Ok(least_size(&fills) > MAX_DOCUMENT_LEN as usize)
}

/// Where edits fill arrays of the document, in order. Fails when memory runs out.
fn fills<'a>(
    alloc: Global,
    edits: &'a [Edit],
    document: &Document,
) -> Result<Vec<Fill<'a>>, NoMemory>
    ensures { IfOk result (λ fills. map fill fills.items ≡ filling.fills document.now (map seen edits.now)) }
{
    let mut fills = Vec::new(alloc);
    'edits: for edit in edits {
        if let Some(fill) = fill_of(document, edit) {
            fills.push(fill)?;
        }
    }
    Ok(fills)
}

/// How many bytes the filled arrays have at least. Each array counts once: the last of the fills that lead into it counts.
fn least_size(fills: &[Fill<'_>]) -> usize
    ensures { result ≤ filling.least_size (map fill fills.now) }
{
    let mut size = 0usize;
    'fills: for place in 0..fills.len() {
        size = size.saturating_add(fills[place].least_size(&fills[place + 1..]));
    }
    size
}

impl<'a> Fill<'a> {
    /// Whether the next fill leads into the same array.
    fn leads_into_same(&self, further: &[Fill<'a>]) -> bool
        ensures { result ≡ filling.leads_into_same (fill self.now) (map fill further.now) }
    {
        match further.first() {
            Some(next) => is_beginning(self.array(), next.path),
            None => false,
        }
    }

    /// The components that lead to the array.
    fn array(&self) -> &'a [Component]
        ensures { result.now ≡ filling.array_of (fill self.now) }
    {
        &self.path[..self.path.len().saturating_sub(self.rest.len())]
    }

    /// How many bytes the array has at least, or 0 if the next fill leads into the same array. Each element has its type, the
    /// digits of its place and a zero.
    fn least_size(&self, further: &[Fill<'a>]) -> usize
        ensures { result ≡ filling.first_least (fill self.now) (map fill further.now) }
    {
        if self.leads_into_same(further) {
            return 0;
        }
        let count = self.place().min(MOST_FILLED) + 1;
        3 * count
            + count.saturating_sub(10)
            + count.saturating_sub(100)
            + count.saturating_sub(1_000)
            + count.saturating_sub(10_000)
    }

    /// The place beyond the array's end.
    fn place(&self) -> usize
        ensures { result ≡ filling.place_of (fill self.now) }
    {
        match self.rest.first() {
            Some(component) => component.index().unwrap_or(0),
            None => 0,
        }
    }
}

/// Where the edit fills an array of the document.
fn fill_of<'a>(document: &Document, edit: &'a Edit) -> Option<Fill<'a>>
    ensures { option_map fill result ≡ filling.fill_of document.now (seen edit.now) }
{
    let path = edit.path.components();
    if !edit.operation.is_new() {
        return None;
    }
    let rest = beyond_in_document(document, path)?;
    Some(Fill { path, rest })
}

fn leads_into_id(path: &[Component]) -> bool
    ensures { result ≡ filling.leads_into_id path.now }
{
    match path.first() {
        Some(first) => first.as_str() == ID,
        None => false,
    }
}

/// The rest of a path from an array on, if the path leads beyond the array's end to a place that may be filled.
#[cycle(beyond)]
fn beyond<'a>(there: &Value, path: &'a [Component]) -> Option<&'a [Component]>
    ensures { option_map (λ rest. rest.now) result ≡ filling.beyond path.now (Some (tree there.now)) }
{
    match there {
        Value::Doc(document) => beyond_in_document(document, path),
        Value::Array(list) => beyond_in_list(list, path),
        _ => None,
    }
}

#[cycle(beyond)]
fn beyond_in_document<'a>(document: &Document, path: &'a [Component]) -> Option<&'a [Component]>
    ensures { option_map (λ rest. rest.now) result ≡ filling.beyond path.now (Some (whole_document (fields_of document.now))) }
{
    let (component, further) = path.split_first()?;
    let there = document.get(component.as_str())?;
    beyond(there, further)
}

#[cycle(beyond)]
fn beyond_in_list<'a>(list: &List, path: &'a [Component]) -> Option<&'a [Component]>
    ensures { option_map (λ rest. rest.now) result ≡ filling.beyond path.now (Some (array (elements_of list.now))) }
{
    let (component, further) = path.split_first()?;
    let place = component.index()?;
    match list.as_slice().get(place) {
        Some(element) => beyond(element, further),
        None if place <= MOST_FILLED => Some(path),
        None => None,
    }
}

/// The document after the edits that aren't removals and fill no array. Edits that fill an array in `_id` are made too, unless
/// `with_id` is set.
fn made_without_fills(
    alloc: Global,
    edits: &[Edit],
    document: Document,
    with_id: bool,
) -> Result<Document, UpdateFault>
    requires { Steps (map seen edits.now) }
    ensures { Unfilled with_id result (defined.edited (last_of.other_edits (map seen edits.now)) document) }
{
    let mut made = document;
    let mut left = edits;
    'edits: while let Some((edit, further)) = left.split_first() {
        made = made_unless_filled(alloc, made, edit, with_id)?;
        left = further;
    }
    Ok(made)
}

/// The document after the edit, or as it is if the edit is a removal or is left out.
fn made_unless_filled(
    alloc: Global,
    document: Document,
    edit: &Edit,
    with_id: bool,
) -> Result<Document, UpdateFault>
    ensures { UnfillsOne with_id document (seen edit.now) result }
{
    dv_path::laws::paths_that_part_are_independent();
    if edit.is_removal() || is_left_out(&document, edit, with_id) {
        return Ok(document);
    }
    edit.make(alloc, document)
}

/// Whether the edit is left out because it fills an array.
fn is_left_out(document: &Document, edit: &Edit, with_id: bool) -> bool
    ensures { result ≡ filling.left_out with_id document.now (seen edit.now) }
{
    fill_of(document, edit).is_some() && (with_id || !leads_into_id(edit.path.components()))
}
