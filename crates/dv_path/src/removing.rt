//! Removing the value that a path leads to.

ghost use Rattle.std.specs.Prelude.{◌≡◌, IfOk};
ghost use Rattle.std.specs.Option.{option_map};
ghost use Rattle.dv_value.specs.View.{tree};
ghost use Rattle.dv_candidates.specs.Path.{index_of};
ghost use Rattle.dv_path.specs.Removing.{remove, remove_field, remove_element, left_behind};

use crate::exchange::{drop_field, put_element_back, put_field_back, take_element, take_field};
use crate::slot::{Slot, slot_at};
use dv_candidates::{Component, Path, behind};
use dv_value::{Document, List, NoMemory, Value};

/// The document without what is where the path leads: a field is taken away, an element of an array becomes null.
///
/// If nothing is there, nothing is changed, and no memory taken; also if the path leads through another value, or through an array
/// by a component that is no whole number. Fails with `NoMemory` when memory runs out; what was moved in is then dropped. What is
/// on the way is changed in place, except for fields that a copy shares, which are copied first. The stack that it takes grows with
/// the levels of what is on the way, at most 100 in a stored document.
pub fn remove_at(document: Document, path: &Path) -> Result<Document, NoMemory>
    ensures { IfOk result (λ changed. changed ≡ remove document path.now) }
{
    let Slot::Taken(_) = slot_at(&document, path) else {
        return Ok(document);
    };
    let components = path.components();
    remove_from_document(document, &components[0], behind(components))
}

#[cycle(removing)]
fn remove_from_document(
    document: Document,
    component: &Component,
    rest: &[Component],
) -> Result<Document, NoMemory>
    ensures { IfOk result (λ changed. changed ≡ remove_field (left_behind rest.now) component.now document) }
{
    let mut document = document;
    let Some(there) = take_field(&mut document, component)? else {
        return Ok(document);
    };
    match left_of(there, rest)? {
        Some(left) => put_field_back(&mut document, component, left)?,
        None => drop_field(&mut document, component)?,
    }
    Ok(document)
}

/// The value without what the rest of the path leads to in it; `None` if the value itself is removed.
#[cycle(removing)]
fn left_of(there: Value, rest: &[Component]) -> Result<Option<Value>, NoMemory>
    ensures { IfOk result (λ left. option_map tree left ≡ left_behind rest.now (tree there)) }
{
    let Some((component, rest)) = rest.split_first() else {
        return Ok(None);
    };
    match there {
        Value::Doc(document) => {
            let left = remove_from_document(document, component, rest)?;
            Ok(Some(Value::Doc(left)))
        }
        Value::Array(list) => {
            let left = remove_from_list(list, component, rest)?;
            Ok(Some(Value::Array(left)))
        }
        other => Ok(Some(other)),
    }
}

#[cycle(removing)]
fn remove_from_list(list: List, component: &Component, rest: &[Component]) -> Result<List, NoMemory>
    ensures { IfOk result (λ changed. changed ≡ remove_element (left_behind rest.now) (index_of component.now) list) }
{
    let Some(index) = component.index() else {
        return Ok(list);
    };
    let mut values = list.into_inner();
    if index < values.len() {
        let there = take_element(&mut values, index);
        if let Some(left) = left_of(there, rest)? {
            put_element_back(&mut values, index, left);
        }
    }
    Ok(List::of(values))
}
