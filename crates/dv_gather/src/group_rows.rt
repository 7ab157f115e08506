//! Rows of groups, made of their values.

ghost use Rattle.std.specs.Prelude.{◌≡◌, IfOk, IsTrue, map};
ghost use Rattle.std.specs.Map.{keys_of};
ghost use Rattle.dv_value.specs.Names.{AreNamed};
ghost use Rattle.dv_value.specs.View.{tree};
ghost use Rattle.dv_gather.specs.Inner.GroupStates as defined;
ghost use Rattle.dv_gather.specs.Inner.GroupStates.{row_names};
ghost use Rattle.dv_gather.specs.Inner.GroupView.{accumulation};

use crate::group::GroupField;
use dv_row::push_field;
use dv_value::{Document, NoMemory, Value};
use std::alloc::Global;

/// The row of a group with these values: its key under `_id`, and one for each field under its name. A value is left out if an
/// earlier one has its name, or if no field may have that name. The row shares names with `lender`, such as the row of another
/// group, if that has exactly the names of the row. Fails with `NoMemory` when memory runs out.
pub fn row_of_values(
    alloc: Global,
    fields: &[GroupField],
    values: Vec<Value>,
    lender: Option<&Document>,
) -> Result<Document, NoMemory>
    ensures { IfOk result (λ row. row ≡ defined.row_of_values (map accumulation fields.now) (map tree values.items)) }
{
    let mut row = match lender {
        Some(lender) if lender.len() == values.len() && has_row_names(lender, fields) => {
            Document::like(lender, values)?
        }
        _ => named_row(alloc, fields, values)?,
    };
    // Its size is needed more than once before it is written.
    row.keep_size();
    Ok(row)
}

/// Whether the document's names are `_id` and those of the fields, in their order.
fn has_row_names(document: &Document, fields: &[GroupField]) -> bool
    ensures names { IsTrue result → keys_of document.now ≡ row_names (map accumulation fields.now) }
    ensures named { AreNamed document.now }
{
    let mut names = document.iter();
    match names.next() {
        Some((there, _)) if there == "_id" => {}
        _ => return false,
    }
    'fields: for field in fields {
        match names.next() {
            Some((there, _)) if there == field.name.as_str() => {}
            _ => return false,
        }
    }
    names.next().is_none()
}

/// The same row, with names of its own.
fn named_row(alloc: Global, fields: &[GroupField], values: Vec<Value>) -> Result<Document, NoMemory>
    ensures { IfOk result (λ row. row ≡ defined.row_of_values (map accumulation fields.now) (map tree values.items)) }
{
    let mut row = Document::new(alloc);
    let mut values = values.into_iter();
    let Some(key) = values.next() else {
        return Ok(row);
    };
    push_field(&mut row, "_id", Some(key))?;
    'fields: for field in fields {
        let Some(value) = values.next() else {
            break;
        };
        push_field(&mut row, field.name.as_str(), Some(value))?;
    }
    Ok(row)
}
