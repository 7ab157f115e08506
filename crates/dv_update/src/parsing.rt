//! Updates from documents.

ghost use Rattle.std.specs.Prelude.{◌≡◌, Err, true, false, map};
ghost use Rattle.std.specs.List.{list_any};
ghost use Rattle.dv_value.specs.Names.{begins_with_dollar};
ghost use Rattle.dv_value.specs.Tree.{fields_of};
ghost use Rattle.dv_value.specs.View.{tree};
ghost use Rattle.dv_value.specs.Results.{Gives};
ghost use Rattle.dv_update.specs.declared.fault.UpdateFault.TheVariants.{NoMemory as no_memory};
ghost use Rattle.dv_match.specs.Parsing as filters;
ghost use Rattle.dv_path.specs.Names as names;
ghost use Rattle.dv_candidates.specs.Path.{path_of};
ghost use Rattle.dv_update.specs.Inner.Collected.{behind};
ghost use Rattle.dv_update.specs.Parsing as defined;
ghost use Rattle.dv_update.specs.UpdateView.{update};
ghost use Rattle.dv_update.specs.View.{edit};
ghost use Rattle.dv_update.specs.declared.fault.UpdateFault.TheVariants.{BadName};

use crate::fault::UpdateFault;
use crate::form::{Edit, Update};
use crate::operand::operation_of;
use crate::operator::{Operator, operator_named};
use crate::order::in_order;
use dv_candidates::Path;
use dv_path::has_bad_name;
use dv_value::{Document, Value, begins_with_dollar};
use std::alloc::Global;

impl Update {
    /// Parses the document as an update, or returns its first fault in written order; conflicts come last.
    ///
    /// A document whose first name begins with `$` has operators: `$set`, `$unset`, `$inc`, `$push` and `$pull`
    /// (`UnknownOperator`), each with a document of paths (`BadOperand`). A path's components aren't empty, hold no zero byte and
    /// don't begin with `$` (`BadName`). `$inc` takes a number (`NotNumber`); `$push` a value, or only `$each` (`UnknownOperator`)
    /// with an array (`BadOperand`); `$pull` a document that is a condition as in `$elemMatch` (`BadOperand`), or any other value,
    /// which the removed elements equal. No path equals or begins another (`Conflict`). Any other document is a replacement: no
    /// name begins with `$` at the top level, and none holds a dot at any level (`BadName`, which is returned whether or not memory
    /// is available). Fails with `NoMemory` when memory runs out. Takes time n log n in the number of paths.
    pub fn parse(alloc: Global, document: &Document) -> Result<Update, UpdateFault>
        ensures update { Gives no_memory update result (defined.update_of document.now) }
        ensures bad_name { filters.lists_operators (fields_of document.now) ≡ false → names.has_bad_name document.now ≡ true → result ≡ Err BadName }
    {
        if lists_operators(document) {
            let edits = edits_in(alloc, document)?;
            Ok(Update::Operators(in_order(alloc, edits)?))
        } else if has_bad_name(document) {
            Err(UpdateFault::BadName)
        } else {
            Ok(Update::Replacement(document.try_clone()?))
        }
    }
}

/// Whether the document's first name begins with a dollar sign.
pub(crate) fn lists_operators(document: &Document) -> bool
    ensures { result ≡ filters.lists_operators (fields_of document.now) }
{
    match document.entry(0) {
        Some((name, _)) => begins_with_dollar(name),
        None => false,
    }
}

/// The edits of all operators, as written.
fn edits_in(alloc: Global, document: &Document) -> Result<Vec<Edit>, UpdateFault>
    ensures { Gives no_memory (λ edits. map edit edits.items) result (defined.edits_in document.now) }
{
    let mut edits = Vec::new(alloc);
    'operators: for (name, operand) in document.iter() {
        add_edits(alloc, name, operand, &mut edits)?;
    }
    Ok(edits)
}

/// Adds the edits of an operator at the end.
#[tactic(auto, using(dv_value::specs::Inner::TreeLaws::fields_again))]
fn add_edits(
    alloc: Global,
    name: &str,
    operand: &Value,
    edits: &mut Vec<Edit>,
) -> Result<(), UpdateFault>
    ensures { Gives no_memory (λ _. map edit edits.new.items) result (behind (map edit edits.old.items) (defined.edits_under (defined.operator_named name.now) (tree operand.now))) }
{
    let Some(operator) = operator_named(name) else {
        return Err(UpdateFault::UnknownOperator);
    };
    match operand {
        Value::Doc(paths) => add_each(alloc, operator, paths, edits),
        _ => Err(UpdateFault::BadOperand),
    }
}

/// Adds an edit for each path of an operator at the end.
fn add_each(
    alloc: Global,
    operator: Operator,
    paths: &Document,
    edits: &mut Vec<Edit>,
) -> Result<(), UpdateFault>
    ensures { Gives no_memory (λ _. map edit edits.new.items) result (behind (map edit edits.old.items) (defined.edits_by operator paths.now)) }
{
    'paths: for (name, operand) in paths.iter() {
        edits.push(edit_of(alloc, operator, name, operand)?)?;
    }
    Ok(())
}

/// What an operator does at a path, by its operand.
fn edit_of(
    alloc: Global,
    operator: Operator,
    name: &str,
    operand: &Value,
) -> Result<Edit, UpdateFault>
    ensures { Gives no_memory edit result (defined.edit_by operator (name.now, tree operand.now)) }
{
    let path = plain_path(alloc, name)?;
    let operation = operation_of(alloc, operator, operand)?;
    Ok(Edit { path, operation })
}

/// The name as a path, if no component begins with a dollar sign.
fn plain_path(alloc: Global, name: &str) -> Result<Path, UpdateFault>
    ensures { Gives no_memory (λ path. path) result (defined.plain (path_of name.now)) }
{
    let path = Path::parse(alloc, name)?;
    if has_dollar(&path) {
        return Err(UpdateFault::BadName);
    }
    Ok(path)
}

/// Whether a component begins with a dollar sign.
fn has_dollar(path: &Path) -> bool
    ensures { result ≡ list_any begins_with_dollar path.now }
{
    path.components()
        .iter()
        .any(|component| begins_with_dollar(component.as_str()))
}
