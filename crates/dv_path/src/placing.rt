//! Putting a value where a path leads.

ghost use Rattle.std.specs.Prelude.{◌≡◌, ◌≤◌, ◌++◌, ◌∷◌, [], Some, Err, length, map, false, IfOk, OnOk};
ghost use Rattle.dv_value.specs.Names.{has_name};
ghost use Rattle.dv_value.specs.View.{tree};
ghost use Rattle.dv_value.specs.Results.{Gives};
ghost use Rattle.dv_candidates.specs.declared.fault.PathFault.TheVariants.{NoMemory as no_memory};
ghost use Rattle.dv_candidates.specs.declared.fault.PathFault.{PathFault};
ghost use Rattle.dv_candidates.specs.Path.{index_of};
ghost use Rattle.dv_path.specs.Placing.{put, put_behind, put_element, put_field, with_element, with_field};

use crate::exchange::{put_element_back, put_field_back, take_element, take_field};
use crate::refusing::refusal;
use dv_candidates::{Component, Path, PathFault, behind};
use dv_value::{BsonFault, Document, List, NoMemory, Value};
use std::alloc::{AllocError, Global};

/// The greatest place beyond the end of an array at which a value is put.
pub(crate) const MOST_BEYOND: usize = 100_000;

/// The document with the value where the path leads.
///
/// An existing field keeps its place, and a new one comes last. A field that is missing on the way becomes a document, whatever the
/// next component is. An array is entered only by a whole number; nulls fill the places between its end and one beyond it. Refused
/// with `NotViable` if another value is in the way, or an array and the component is no whole number; with `IndexTooLarge` if the
/// place is beyond an array's end and over 100,000; and with `NoMemory`. What was moved in is then dropped. The first two are
/// reported before memory is taken.
///
/// What is on the way is changed in place, except for fields that a copy shares, which are copied first. The stack that it takes
/// grows with the levels of what is on the way, at most 100 in a stored document, and not with the path.
pub fn put_at(
    alloc: Global,
    document: Document,
    path: &Path,
    value: Value,
) -> Result<Document, PathFault>
    ensures put { Gives no_memory (λ changed. changed) result (put document path.now (tree value)) }
    ensures refused { (fault : PathFault) → put document path.now (tree value) ≡ Err fault → result ≡ Err fault }
{
    if let Some(fault) = refusal(&document, path) {
        return Err(fault);
    }
    let components = path.components();
    put_into_document(alloc, document, &components[0], behind(components), value)
}

#[cycle(placing)]
fn put_into_document(
    alloc: Global,
    document: Document,
    component: &Component,
    rest: &[Component],
    value: Value,
) -> Result<Document, PathFault>
    ensures { Gives no_memory (λ changed. changed) result (put_field (put_behind rest.now (tree value)) component.now document) }
{
    let mut document = document;
    if rest.is_empty() {
        put_last(&mut document, component, value)?;
        return Ok(document);
    }
    let Some(there) = take_field(&mut document, component)? else {
        let put = nested(alloc, rest, value)?;
        add_field(&mut document, component, put)?;
        return Ok(document);
    };
    let put = put_into_value(alloc, there, rest, value)?;
    put_field_back(&mut document, component, put)?;
    Ok(document)
}

/// Puts the value under the component's name: in place of the one that is there, or else at the end.
fn put_last(document: &mut Document, component: &Component, value: Value) -> Result<(), NoMemory>
    ensures { OnOk result (document.new ≡ with_field component.now (Some (tree value)) document.old) }
{
    match document.put(component.as_str(), value)? {
        None => Ok(()),
        Some(value) => add_field(document, component, value),
    }
}

/// The value that is there, with the other one put where the rest of the path leads inside it.
#[cycle(placing)]
fn put_into_value(
    alloc: Global,
    there: Value,
    rest: &[Component],
    value: Value,
) -> Result<Value, PathFault>
    ensures { Gives no_memory tree result (put_behind rest.now (tree value) (Some (tree there))) }
{
    let Some((component, rest)) = rest.split_first() else {
        return Ok(value);
    };
    match there {
        Value::Doc(document) => {
            let changed = put_into_document(alloc, document, component, rest, value)?;
            Ok(Value::Doc(changed))
        }
        Value::Array(list) => {
            let changed = put_into_list(alloc, list, component, rest, value)?;
            Ok(Value::Array(changed))
        }
        _ => Err(PathFault::NotViable),
    }
}

#[cycle(placing)]
fn put_into_list(
    alloc: Global,
    list: List,
    component: &Component,
    rest: &[Component],
    value: Value,
) -> Result<List, PathFault>
    ensures { Gives no_memory (λ changed. changed) result (put_element (put_behind rest.now (tree value)) (index_of component.now) list) }
{
    let Some(index) = component.index() else {
        return Err(PathFault::NotViable);
    };
    let mut values = list.into_inner();
    if index < values.len() {
        let there = take_element(&mut values, index);
        let put = put_into_value(alloc, there, rest, value)?;
        put_element_back(&mut values, index, put);
    } else if index <= MOST_BEYOND {
        let put = nested(alloc, rest, value)?;
        add_element(&mut values, index, put)?;
    } else {
        return Err(PathFault::IndexTooLarge);
    }
    Ok(List::of(values))
}

/// The value in a document for each component, the last one innermost.
fn nested(alloc: Global, components: &[Component], value: Value) -> Result<Value, NoMemory>
    ensures { IfOk result (λ outermost. put_behind components.now (tree value) None ≡ Ok (tree outermost)) }
{
    let mut inner = value;
    let mut before = components;
    'outward: while let Some((component, further)) = before.split_last() {
        let mut document = Document::new(alloc);
        add_field(&mut document, component, inner)?;
        inner = Value::Doc(document);
        before = further;
    }
    Ok(inner)
}

/// Adds a field under a name that none has.
fn add_field(document: &mut Document, component: &Component, value: Value) -> Result<(), NoMemory>
    requires { has_name component.now document.old ≡ false }
    ensures { OnOk result (document.new ≡ document.old ++ (component.now, tree value) ∷ []) }
{
    match document.push(component.as_str(), value) {
        Ok(()) => Ok(()),
        Err(BsonFault::NoMemory) => Err(AllocError),
        Err(_) => unreachable!(),
    }
}

/// Adds an element at a place beyond the end, and nulls before it.
fn add_element(values: &mut Vec<Value>, place: usize, value: Value) -> Result<(), NoMemory>
    requires { length values.old.items ≤ place }
    ensures { OnOk result (map tree values.new.items ≡ with_element place (tree value) (map tree values.old.items)) }
{
    'nulls: while values.len() < place {
        values.push(Value::Null)?;
    }
    values.push(value)?;
    Ok(())
}
