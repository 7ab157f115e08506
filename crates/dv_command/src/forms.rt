//! The filters, sorts, updates and pipelines that commands hold.

ghost use Rattle.std.specs.Prelude.{◌≡◌};
ghost use Rattle.dv_update.specs.UpdateView.{update};
ghost use Rattle.dv_command.specs.Forms as forms;
ghost use Rattle.dv_refusal.specs.Refusals.{UnlessWanting};
ghost use Rattle.dv_command.specs.Inner.View.{sort_seen};

use crate::fields::{document_or, first_name};
use dv_match::Filter;
use dv_path::SortSpec;
use dv_pipe::Pipeline;
use dv_refusal::Refusal;
use dv_update::Update;
use dv_value::{Document, List, begins_with_dollar};
use std::alloc::Global;

/// The filter under a name, or the one that all documents match if there is no field of the name. Refused with `TypeMismatch` if
/// there is another value than a document, with `BadValue` if the document is no filter, and with `WantOfMemory`.
pub(crate) fn filter_under(alloc: Global, body: &Document, name: &str) -> Result<Filter, Refusal>
    ensures { UnlessWanting (λ filter. filter) (forms.filter_under name.now body.now) result }
{
    let none = Document::new(alloc);
    filter_of(alloc, document_or(body, name, &none)?)
}

/// The parsed filter. Refused with `BadValue` if the document is no filter, and with `WantOfMemory`.
pub(crate) fn filter_of(alloc: Global, document: &Document) -> Result<Filter, Refusal>
    ensures { UnlessWanting (λ filter. filter) (forms.filter_of document.now) result }
{
    Ok(Filter::parse(alloc, document)?)
}

/// The sort under a name; `None` if there is no field of the name, or a document without fields. Refused with `TypeMismatch` if
/// there is another value than a document, with `BadValue` if the document is no sort, and with `WantOfMemory`.
pub(crate) fn sort_under(
    alloc: Global,
    body: &Document,
    name: &str,
) -> Result<Option<SortSpec>, Refusal>
    ensures { UnlessWanting sort_seen (forms.sort_under name.now body.now) result }
{
    let none = Document::new(alloc);
    sort_of(alloc, document_or(body, name, &none)?)
}

/// The parsed sort; `None` if the document has no fields. Refused with `BadValue` if it is no sort, and with `WantOfMemory`.
fn sort_of(alloc: Global, document: &Document) -> Result<Option<SortSpec>, Refusal>
    ensures { UnlessWanting sort_seen (forms.sort_of document.now) result }
{
    if document.is_empty() {
        return Ok(None);
    }
    match SortSpec::parse(alloc, document)? {
        Some(sort) => Ok(Some(sort)),
        None => Err(Refusal::BadValue),
    }
}

/// The parsed update. Refused if the document is no update (`FailedToParse` for operators and operands, `TypeMismatch` for what
/// `$inc` adds, `BadValue` for names, `ConflictingUpdateOperators`), and with `WantOfMemory`.
pub(crate) fn update_of(alloc: Global, document: &Document) -> Result<Update, Refusal>
    ensures { UnlessWanting update (forms.update_asked document.now) result }
{
    Ok(Update::parse(alloc, document)?)
}

/// The parsed pipeline, whose stages are in a list. Refused if the list is no pipeline: with `FailedToParse` for an unknown stage
/// or a wrong operand, with `BadValue` for a filter, with `ConflictingUpdateOperators` for paths of a `$project`, and with
/// `LimitReached` for a seventeenth stage; and with `WantOfMemory`.
pub(crate) fn pipeline_of(alloc: Global, list: &List) -> Result<Pipeline, Refusal>
    ensures { UnlessWanting (λ pipeline. pipeline) (forms.stages_asked list.now) result }
{
    Ok(Pipeline::parse(alloc, list.as_slice())?)
}

/// Whether an update is a replacement: the first name of its document doesn't begin with a dollar sign.
pub(crate) fn is_replacement(document: &Document) -> bool
    ensures { result ≡ forms.is_replacement document.now }
{
    !begins_with_dollar(first_name(document))
}
