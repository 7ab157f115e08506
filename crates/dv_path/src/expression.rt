//! What a path gives where an expression names it.

ghost use Rattle.std.specs.Prelude.{◌≡◌, IfOk, option_and_then};
ghost use Rattle.std.specs.List.{filter_map};
ghost use Rattle.std.specs.Option.{option_map};
ghost use Rattle.dv_value.specs.Names.{value_under};
ghost use Rattle.dv_value.specs.View.{tree};
ghost use Rattle.dv_path.specs.Expression.{component_entered, expr};
ghost use Rattle.dv_path.specs.Expression as expressions;

use dv_candidates::{Component, Path, behind};
use dv_value::{Document, List, NoMemory, Value};
use std::alloc::Global;

/// The value of the path in the document, as an expression means it; `None` if it is missing.
///
/// In a document, a component leads to the field of that name. An array returns the array of what its elements that are documents
/// return, without those that return nothing. A component never picks an element. Any other value on the way returns nothing. Fails
/// with `NoMemory` when memory runs out.
pub fn expr_value(
    alloc: Global,
    document: &Document,
    path: &Path,
) -> Result<Option<Value>, NoMemory>
    ensures { IfOk result (λ found. option_map tree found ≡ expr document.now path.now) }
{
    let components = path.components();
    enter(alloc, document, &components[0], behind(components))
}

#[cycle(expression)]
fn enter(
    alloc: Global,
    document: &Document,
    component: &Component,
    rest: &[Component],
) -> Result<Option<Value>, NoMemory>
    ensures { IfOk result (λ found. option_map tree found ≡ option_and_then (expressions.expression rest.now) (value_under component.now document.now)) }
{
    match document.get(component.as_str()) {
        Some(value) => within(alloc, value, rest),
        None => Ok(None),
    }
}

/// The value of the rest of the path. Documents are entered in a loop, since thousands may be nested.
#[cycle(expression)]
fn within(alloc: Global, value: &Value, path: &[Component]) -> Result<Option<Value>, NoMemory>
    ensures { IfOk result (λ found. option_map tree found ≡ expressions.expression path.now (tree value.now)) }
{
    let mut there = value;
    let mut left = path;
    'documents: while let Some((component, rest)) = left.split_first() {
        match there {
            Value::Doc(document) => {
                let Some(entered) = document.get(component.as_str()) else {
                    return Ok(None);
                };
                there = entered;
                left = rest;
            }
            Value::Array(list) => {
                let found = of_elements(alloc, list, component, rest)?;
                return Ok(Some(Value::Array(found)));
            }
            _ => return Ok(None),
        }
    }
    Ok(Some(there.try_clone()?))
}

/// What the elements that are documents give.
#[cycle(expression)]
fn of_elements(
    alloc: Global,
    list: &List,
    component: &Component,
    rest: &[Component],
) -> Result<List, NoMemory>
    ensures { IfOk result (λ found. found ≡ filter_map (component_entered (expressions.expression rest.now) component.now) list.now) }
{
    let mut found = Vec::new(alloc);
    'elements: for element in list.as_slice() {
        if let Some(value) = of_element(alloc, element, component, rest)? {
            found.push(value)?;
        }
    }
    Ok(List::of(found))
}

#[cycle(expression)]
fn of_element(
    alloc: Global,
    element: &Value,
    component: &Component,
    rest: &[Component],
) -> Result<Option<Value>, NoMemory>
    ensures { IfOk result (λ found. option_map tree found ≡ component_entered (expressions.expression rest.now) component.now (tree element.now)) }
{
    match element {
        Value::Doc(document) => enter(alloc, document, component, rest),
        _ => Ok(None),
    }
}
