//! Removing the values that several paths lead to.

ghost use Rattle.std.specs.Prelude.{◌≡◌, Some, map, IfOk, OnOk};
ghost use Rattle.std.specs.List.{filter};
ghost use Rattle.std.specs.Option.{option_map};
ghost use Rattle.dv_value.specs.Removing.{without_each};
ghost use Rattle.dv_value.specs.View.{tree};
ghost use Rattle.dv_path.specs.Apart as apart;
ghost use Rattle.dv_path.specs.Inner.Apart as apart_inner;
ghost use Rattle.dv_path.specs.Apart.{AreAllApart};
ghost use Rattle.dv_path.specs.Inner.Apart.{field_alone, fields_alone, leading_further};
ghost use Rattle.dv_path.specs.Inner.GroupView.{group as seen};
ghost use Rattle.dv_path.specs.Inner.Groups.{begins_with_none, elements_with_group, left_of_each, remove_each_element};
ghost use Rattle.dv_path.specs.Removing.{remove_field};

use crate::exchange::{put_element_back, put_field_back, take_element, take_field};
use crate::grouping::{Group, grouped};
use crate::slot::{Slot, slot_at};
use dv_candidates::{Component, Path};
use dv_value::{Document, List, NoMemory, Value};
use std::alloc::Global;

/// The document without what is where each of the paths leads, of which none begins or equals another one: a field is taken away,
/// an element of an array becomes null.
///
/// As `remove_at` of one path after the other, but fields of one document are taken away together: then the others are copied once.
/// If nothing is there, nothing is changed. Fails with `NoMemory` when memory runs out; what was moved in is then dropped. The
/// stack that it takes grows with the levels of what is on the way, at most 100 in a stored document.
pub fn remove_each(alloc: Global, document: Document, paths: &[&Path]) -> Result<Document, NoMemory>
    requires { AreAllApart (map (λ path. path.now) paths.now) }
    ensures { IfOk result (λ changed. changed ≡ apart.remove_each document (map (λ path. path.now) paths.now)) }
{
    let there = leading_to_values(alloc, &document, paths)?;
    remove_from_document(alloc, document, &there)
}

/// The components of those paths that lead to a value.
fn leading_to_values<'p>(
    alloc: Global,
    document: &Document,
    paths: &[&'p Path],
) -> Result<Vec<&'p [Component]>, NoMemory>
    ensures { IfOk result (λ there. map (λ path. path.now) there.items ≡ filter (apart_inner.leads_to_value document.now) (map (λ path. path.now) paths.now)) }
{
    let mut there = Vec::new(alloc);
    'paths: for path in paths {
        if leads_to_value(document, path) {
            there.push(path.components())?;
        }
    }
    Ok(there)
}

fn leads_to_value(document: &Document, path: &Path) -> bool
    ensures { result ≡ apart_inner.leads_to_value document.now path.now }
{
    matches!(slot_at(document, path), Slot::Taken(_))
}

#[cycle(together)]
fn remove_from_document(
    alloc: Global,
    document: Document,
    paths: &[&[Component]],
) -> Result<Document, NoMemory>
    requires { AreAllApart (map (λ path. path.now) paths.now) }
    ensures { IfOk result (λ changed. changed ≡ apart.remove_each document (map (λ path. path.now) paths.now)) }
{
    let mut changed = without_fields(alloc, document, paths)?;
    let further = longer(alloc, paths)?;
    let groups = grouped(alloc, &further)?;
    'groups: for group in &groups {
        changed = remove_from_field(alloc, changed, group)?;
    }
    Ok(changed)
}

/// The document without those of its own fields to which paths lead.
fn without_fields(
    alloc: Global,
    document: Document,
    paths: &[&[Component]],
) -> Result<Document, NoMemory>
    ensures { IfOk result (λ left. left ≡ without_each (fields_alone (map (λ path. path.now) paths.now)) document) }
{
    let names = names_alone(alloc, paths)?;
    if names.is_empty() {
        return Ok(document);
    }
    document.without_each(alloc, &names)
}

/// The components that are paths by themselves.
fn names_alone<'p>(alloc: Global, paths: &[&'p [Component]]) -> Result<Vec<&'p str>, NoMemory>
    ensures { IfOk result (λ names. map (λ name. name.now) names.items ≡ fields_alone (map (λ path. path.now) paths.now)) }
{
    let mut names = Vec::new(alloc);
    'paths: for path in paths {
        if let Some(name) = name_alone(path) {
            names.push(name)?;
        }
    }
    Ok(names)
}

/// The path's component, where it is but one.
fn name_alone(path: &[Component]) -> Option<&str>
    ensures { option_map (λ name. name.now) result ≡ field_alone path.now }
{
    match path {
        [component] => Some(component.as_str()),
        _ => None,
    }
}

/// The paths of several components.
fn longer<'p>(alloc: Global, paths: &[&'p [Component]]) -> Result<Vec<&'p [Component]>, NoMemory>
    ensures { IfOk result (λ further. map (λ path. path.now) further.items ≡ leading_further (map (λ path. path.now) paths.now)) }
{
    let mut further = Vec::new(alloc);
    'paths: for path in paths {
        if path.len() > 1 {
            further.push(*path)?;
        }
    }
    Ok(further)
}

#[cycle(together)]
fn remove_from_field(
    alloc: Global,
    document: Document,
    group: &Group<'_>,
) -> Result<Document, NoMemory>
    requires { AreAllApart (seen group.now).1 }
    ensures { IfOk result (λ changed. changed ≡ remove_field (λ v. Some (left_of_each (seen group.now).1 v)) (seen group.now).0 document) }
{
    let mut changed = document;
    let component = group.component();
    let Some(there) = take_field(&mut changed, component)? else {
        return Ok(changed);
    };
    let left = left_of(alloc, there, group.rests())?;
    put_field_back(&mut changed, component, left)?;
    Ok(changed)
}

/// The value without what the paths lead to in it; null if the value itself is removed.
#[cycle(together)]
fn left_of(alloc: Global, there: Value, paths: &[&[Component]]) -> Result<Value, NoMemory>
    requires { AreAllApart (map (λ path. path.now) paths.now) }
    ensures { IfOk result (λ left. tree left ≡ left_of_each (map (λ path. path.now) paths.now) (tree there)) }
{
    if goes_itself(paths) {
        return Ok(Value::Null);
    }
    match there {
        Value::Doc(document) => {
            let left = remove_from_document(alloc, document, paths)?;
            Ok(Value::Doc(left))
        }
        Value::Array(list) => {
            let left = remove_from_list(alloc, list, paths)?;
            Ok(Value::Array(left))
        }
        other => Ok(other),
    }
}

/// Whether the first of the paths leads no further.
fn goes_itself(paths: &[&[Component]]) -> bool
    ensures { result ≡ begins_with_none (map (λ path. path.now) paths.now) }
{
    match paths.first() {
        Some(path) => path.is_empty(),
        None => false,
    }
}

#[cycle(together)]
fn remove_from_list(alloc: Global, list: List, paths: &[&[Component]]) -> Result<List, NoMemory>
    requires { AreAllApart (map (λ path. path.now) paths.now) }
    ensures { IfOk result (λ changed. changed ≡ remove_each_element list (map (λ path. path.now) paths.now)) }
{
    let groups = grouped(alloc, paths)?;
    let mut values = list.into_inner();
    'groups: for group in &groups {
        remove_from_element(alloc, &mut values, group)?;
    }
    Ok(List::of(values))
}

#[cycle(together)]
fn remove_from_element(
    alloc: Global,
    values: &mut Vec<Value>,
    group: &Group<'_>,
) -> Result<(), NoMemory>
    requires { AreAllApart (seen group.now).1 }
    ensures { OnOk result (map tree values.new.items ≡ elements_with_group (map tree values.old.items) (seen group.now)) }
{
    let component = group.component();
    let Some(index) = component.index() else {
        return Ok(());
    };
    if index < values.len() {
        let there = take_element(values, index);
        let left = left_of(alloc, there, group.rests())?;
        put_element_back(values, index, left);
    }
    Ok(())
}
