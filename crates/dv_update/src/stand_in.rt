//! The result of edits for a document, or what stands in for the result if paths of many components would make it too deep.
//!
//! A path may have millions of components, and the documents nested along it would take stack for each of them. So what such a path
//! makes below its first 300 components is replaced by one piece: a value of as many bytes. The document with the piece is refused
//! as the result itself would be: it has as many bytes and more levels than any stored document, and its `_id` is the old one
//! exactly if that of the result is.

ghost use Rattle.std.specs.Prelude.{◌≡◌, is_some, ◌≢◌, [], ◌+◌, ◌-◌, Some, ◌<◌, ◌≤◌, List, map, length, true, false, IfOk, IfSome, IsTrue};
ghost use Rattle.std.specs.Option.{option_map};
ghost use Rattle.dv_value.specs.Spelling.{payload};
ghost use Rattle.dv_value.specs.Tree.{Field};
ghost use Rattle.dv_value.specs.View.{tree};
ghost use Rattle.dv_value.specs.Results.{Gives};
ghost use Rattle.dv_update.specs.declared.fault.UpdateFault.TheVariants.{NoMemory as no_memory};
ghost use Rattle.dv_path.specs.Slots.{slot, free, blocked};
ghost use Rattle.dv_update.specs.Apply as defined;
ghost use Rattle.dv_update.specs.Parsing.{has_conflict};
ghost use Rattle.dv_update.specs.PathOrder.{begins as begins_with};
ghost use Rattle.dv_update.specs.Removals as last_of;
ghost use Rattle.dv_update.specs.Inner.StandIn.{Alike, PullsShallow, names_length, new_value};
ghost use Rattle.dv_update.specs.Inner.Standing.{Becomes, Likewise, Stands, StandsFor};
ghost use Rattle.dv_update.specs.View.{edit as seen, operation};

use crate::edits::{edited, removals};
use crate::far::{MOST_COMPONENTS, beginning, further, lead_far, parting};
use crate::fault::UpdateFault;
use crate::form::{Edit, Edits, Operation};
use crate::laws;
use crate::order::{are_apart, begins};
use crate::pieces::{names_size, piece};
use dv_candidates::{Component, Path};
use dv_path::{Slot, put_at, remove_each, slot_at};
use dv_value::{Document, FRAME, MAX_LEVELS, NoMemory, Value, fits, value_size, value_within};
use std::alloc::Global;

/// A document in which what is too deep is replaced by pieces.
#[derive(Drop)]
pub(crate) struct StandIn<'a> {
    document: Document,
    last: Option<Last<'a>>,
}

/// Where the last path of many components led.
#[derive(Drop)]
pub(crate) struct Last<'a> {
    /// Its first 300 components.
    beginning: Path,
    /// Its other components.
    rest: &'a [Component],
    /// How many bytes the piece there has.
    size: usize,
}

/// Makes the edits one after the other. If paths have many components, the returned document may stand in for the result, and is
/// refused as the result is.
pub(crate) fn edited_or_alike(
    alloc: Global,
    edits: &Edits,
    document: &Document,
) -> Result<Document, UpdateFault>
    ensures { Likewise document.now result (defined.edited edits.now document.now) }
{
    let all = edits.as_slice();
    if lead_far(all) && are_apart(all) && fits(document) {
        if let Some(standing) = stand_in(alloc, all, document.try_clone()?)? {
            return Ok(standing);
        }
    }
    edited(alloc, edits, document.try_clone()?)
}

/// A document that stands in for the result of the edits, of which no path begins or equals another one. `None` if none can be
/// made, which never happens for a stored document and an update that was parsed.
fn stand_in(
    alloc: Global,
    edits: &[Edit],
    document: Document,
) -> Result<Option<Document>, UpdateFault>
    requires apart { has_conflict (map seen edits.now) ≡ false }
    ensures { StandsFor result (defined.edited (map seen edits.now) document) }
{
    laws::removals_may_come_first();
    let removals = removals(alloc, edits)?;
    let left = remove_each(alloc, document, &removals)?;
    others_stand_in(alloc, edits, left)
}

/// The same for the edits that aren't removals.
fn others_stand_in(
    alloc: Global,
    edits: &[Edit],
    document: Document,
) -> Result<Option<Document>, UpdateFault>
    ensures { StandsFor result (defined.edited (last_of.other_edits (map seen edits.now)) document) }
{
    let mut standing = StandIn {
        document,
        last: None,
    };
    'edits: for edit in edits {
        if !edit.is_removal() {
            let Some(next) = standing.with(alloc, edit)? else {
                return Ok(None);
            };
            standing = next;
        }
    }
    Ok(Some(standing.document))
}

impl<'a> StandIn<'a> {
    /// What stands in for the document after the edit.
    fn with(self, alloc: Global, edit: &'a Edit) -> Result<Option<StandIn<'a>>, UpdateFault>
        requires other { last_of.is_removal (operation edit.now.operation) ≡ false }
        ensures { (made : List Field) → Stands made self.entry.document self.entry.last → Becomes result (defined.edit_at edit.now.path (operation edit.now.operation) made) }
    {
        let StandIn { document, last } = self;
        if edit.path.components().len() <= MOST_COMPONENTS {
            return with_near(alloc, document, edit);
        }
        match last {
            Some(last) if begins(&last.beginning, &edit.path) => with_next(
                alloc, document, last, edit,
            ),
            last => with_far(alloc, document, last, edit),
        }
    }
}

/// The same for an edit whose path has few components.
fn with_near<'a>(
    alloc: Global,
    document: Document,
    edit: &'a Edit,
) -> Result<Option<StandIn<'a>>, UpdateFault>
    requires other { last_of.is_removal (operation edit.now.operation) ≡ false }
    requires some { edit.now.path ≢ [] }
    requires near { length edit.now.path ≤ 300 }
    ensures { (made : List Field) → Alike made document → Becomes result (defined.edit_at edit.now.path (operation edit.now.operation) made) }
{
    if !pulls_shallow(&document, edit) {
        return Ok(None);
    }
    let document = edit.make(alloc, document)?;
    Ok(Some(StandIn {
        document,
        last: None,
    }))
}

/// The same for an edit whose path has many components, if no earlier path has the same first 300.
fn with_far<'a>(
    alloc: Global,
    document: Document,
    last: Option<Last<'a>>,
    edit: &'a Edit,
) -> Result<Option<StandIn<'a>>, UpdateFault>
    requires other { last_of.is_removal (operation edit.now.operation) ≡ false }
    requires far { 300 < length edit.now.path }
    ensures { (made : List Field) → Stands made document last.entry → Becomes result (defined.edit_at edit.now.path (operation edit.now.operation) made) }
{
    let Some(beginning) = beginning(alloc, &edit.path)? else {
        return Ok(None);
    };
    match slot_at(&document, &beginning) {
        Slot::Taken(_) => Ok(None),
        Slot::Blocked => with_blocked(document, last, &beginning, edit),
        Slot::Free => with_free(alloc, document, last, beginning, edit),
    }
}

/// The same if the way to the end of the beginning is blocked.
fn with_blocked<'a>(
    document: Document,
    last: Option<Last<'a>>,
    beginning: &Path,
    edit: &'a Edit,
) -> Result<Option<StandIn<'a>>, UpdateFault>
    requires other { last_of.is_removal (operation edit.now.operation) ≡ false }
    requires beginning { (length beginning.now ≡ 300) × (begins_with beginning.now edit.now.path ≡ true) }
    requires blocked { slot document beginning.now ≡ blocked }
    ensures { (made : List Field) → Stands made document last.entry → Becomes result (defined.edit_at edit.now.path (operation edit.now.operation) made) }
{
    dv_path::laws::slots_tell_what_is_put();
    if edit.operation.is_new() {
        return Err(UpdateFault::NotViable);
    }
    Ok(Some(StandIn { document, last }))
}

/// The same if there is no value at the end of the beginning.
fn with_free<'a>(
    alloc: Global,
    document: Document,
    last: Option<Last<'a>>,
    beginning: Path,
    edit: &'a Edit,
) -> Result<Option<StandIn<'a>>, UpdateFault>
    requires other { last_of.is_removal (operation edit.now.operation) ≡ false }
    requires far { 300 < length edit.now.path }
    requires beginning { (length beginning ≡ 300) × (begins_with beginning edit.now.path ≡ true) }
    requires free { slot document beginning ≡ free }
    ensures { (made : List Field) → Stands made document last.entry → Becomes result (defined.edit_at edit.now.path (operation edit.now.operation) made) }
{
    match edit.operation.new_value()? {
        Some(value) => with_first(alloc, document, beginning, edit, value),
        None => Ok(Some(StandIn { document, last })),
    }
}

/// The same if the edit puts this value, and there is no value at the end of the beginning.
fn with_first<'a>(
    alloc: Global,
    document: Document,
    beginning: Path,
    edit: &'a Edit,
    value: Value,
) -> Result<Option<StandIn<'a>>, UpdateFault>
    requires far { 300 < length edit.now.path }
    requires beginning { (length beginning ≡ 300) × (begins_with beginning edit.now.path ≡ true) }
    requires free { slot document beginning ≡ free }
    requires value { new_value (operation edit.now.operation) ≡ Some (tree value) }
    ensures { (made : List Field) → Alike made document → Becomes result (defined.edit_at edit.now.path (operation edit.now.operation) made) }
{
    dv_path::laws::what_was_put_is_there();
    let rest = further(&edit.path);
    let Some(size) = size_with(0, rest, &value) else {
        return Ok(None);
    };
    let piece = piece(alloc, size)?;
    let document = put(alloc, document, &beginning, piece)?;
    Ok(Some(StandIn {
        document,
        last: Some(Last {
            beginning,
            rest,
            size,
        }),
    }))
}

/// The same for an edit whose path has many components, if the last path has the same first 300.
fn with_next<'a>(
    alloc: Global,
    document: Document,
    last: Last<'a>,
    edit: &'a Edit,
) -> Result<Option<StandIn<'a>>, UpdateFault>
    requires other { last_of.is_removal (operation edit.now.operation) ≡ false }
    requires far { 300 < length edit.now.path }
    requires begins { begins_with last.beginning edit.now.path ≡ true }
    ensures { (made : List Field) → Stands made document (Some last.entry) → Becomes result (defined.edit_at edit.now.path (operation edit.now.operation) made) }
{
    dv_path::laws::what_was_put_is_there();
    let rest = further(&edit.path);
    let Some(parting) = parting(last.rest, rest) else {
        return Ok(None);
    };
    let Some(value) = edit.operation.new_value()? else {
        return Ok(Some(StandIn {
            document,
            last: Some(last),
        }));
    };
    let Some(size) = size_behind(last.size, parting, &value) else {
        return Ok(None);
    };
    let piece = piece(alloc, size)?;
    let document = put(alloc, document, &last.beginning, piece)?;
    Ok(Some(StandIn {
        document,
        last: Some(Last {
            beginning: last.beginning,
            rest,
            size,
        }),
    }))
}

/// The document with the value where the path leads.
fn put(
    alloc: Global,
    document: Document,
    path: &Path,
    value: Value,
) -> Result<Document, UpdateFault>
    ensures { Gives no_memory (λ changed. changed) result (defined.set_at path.now (tree value) document) }
{
    Ok(put_at(alloc, document, path, value)?)
}

/// `before`, and the bytes of documents that are nested one in another under these names, with the value innermost.
fn size_with(before: usize, names: &[Component], value: &Value) -> Option<usize>
    ensures { IfSome result (λ size. size ≡ before + names_length names.now + length (payload (tree value.now))) }
{
    let inside = value_size(value)?;
    let around = names_size(names)?;
    before.checked_add(around)?.checked_add(inside)
}

/// The same if the first of the names is a field of a document that exists already.
fn size_behind(before: usize, names: &[Component], value: &Value) -> Option<usize>
    ensures { IfSome result (λ size. size + 5 ≡ before + names_length names.now + length (payload (tree value.now))) }
{
    size_with(before, names, value)?.checked_sub(FRAME)
}

/// Whether the edit removes no element from an array that may hold a piece.
fn pulls_shallow(document: &Document, edit: &Edit) -> bool
    ensures { IsTrue result → PullsShallow (300 - length edit.now.path) (operation edit.now.operation) (slot document.now edit.now.path) }
{
    if !matches!(edit.operation, Operation::Pull(_)) {
        return true;
    }
    match slot_at(document, &edit.path) {
        Slot::Taken(there) => {
            edit.path.components().len() < 200 && value_within(there, MAX_LEVELS)
        }
        _ => true,
    }
}

impl Operation {
    /// Whether the operator puts a value where there is none.
    pub(crate) fn is_new(&self) -> bool
        ensures { result ≡ is_some (new_value (operation self.now)) }
    {
        match self {
            Operation::Set(_) => true,
            Operation::Unset => false,
            Operation::Inc(_) => true,
            Operation::Push(_) => true,
            Operation::Pull(_) => false,
        }
    }

    /// The value that the operator puts where there is none. Fails when memory runs out.
    fn new_value(&self) -> Result<Option<Value>, NoMemory>
        ensures { IfOk result (λ found. option_map tree found ≡ new_value (operation self.now)) }
    {
        match self {
            Operation::Set(value) => Ok(Some(value.try_clone()?)),
            Operation::Unset => Ok(None),
            Operation::Inc(number) => Ok(Some(number.value())),
            Operation::Push(values) => Ok(Some(Value::Array(values.try_clone()?))),
            Operation::Pull(_) => Ok(None),
        }
    }
}
