//! Lists of documents next to a body.

ghost use Rattle.std.specs.Prelude.{◌≡◌};
ghost use Rattle.dv_command.specs.Lists as defined;
ghost use Rattle.dv_refusal.specs.Refusals.{Returns};

use crate::command::DocumentLists;
use crate::documents::Documents;
use crate::fields::{SECOND, value_near};
use crate::values::documents_of;
use dv_refusal::Refusal;
use dv_value::Document;

/// Checks the lists next to the body of a command that may have none: a list is refused with `FailedToParse`.
pub(crate) fn check_alone(lists: &DocumentLists) -> Result<(), Refusal>
    ensures { result ≡ defined.check_alone (defined.is_alone lists.now) }
{
    if lists.is_empty() {
        Ok(())
    } else {
        Err(Refusal::FailedToParse)
    }
}

/// Checks the lists next to the body of a command that may have one of this name: a list with another name is refused with
/// `FailedToParse`.
pub(crate) fn check_only(name: &str, lists: &DocumentLists) -> Result<(), Refusal>
    ensures { result ≡ defined.check_only name.now lists.now }
{
    if lists.are_only(name) {
        Ok(())
    } else {
        Err(Refusal::FailedToParse)
    }
}

/// The documents of a list that has to be in the body under this name, or next to it. Refused with `FailedToParse` if it is in
/// neither or in both places, and with `TypeMismatch` if the body has another value than an array of documents.
pub(crate) fn documents_under<'a>(
    name: &str,
    body: &'a Document,
    lists: &'a DocumentLists,
) -> Result<Documents<'a>, Refusal>
    ensures { Returns (λ documents. documents) (defined.listed_documents name.now body.now lists.now) result }
{
    match (value_near(body, SECOND, name), lists.under(name)) {
        (Some(value), None) => documents_of(value),
        (None, Some(documents)) => Ok(Documents::beside(documents)),
        _ => Err(Refusal::FailedToParse),
    }
}
