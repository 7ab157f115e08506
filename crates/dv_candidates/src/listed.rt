//! The candidates of a path, as lists.

ghost use Rattle.std.specs.Prelude.{◌≡◌, ◌++◌, List, map, Some, IfOk, OnOk};
ghost use Rattle.std.specs.List.{flat_map};
ghost use Rattle.dv_value.specs.Names.{value_under};
ghost use Rattle.dv_value.specs.View.{tree};
ghost use Rattle.dv_candidates.specs.Path.{index_of};
ghost use Rattle.dv_candidates.specs.Candidates.{step_from, picked, entered, with_elements};
ghost use Rattle.dv_candidates.specs.Candidates as candidates;
ghost use Rattle.dv_candidates.specs.View.{seen};

use crate::candidate::Candidate;
use crate::component::Component;
use crate::path::Path;
use crate::walk::behind;
use dv_value::{Document, List, NoMemory, Value};
use std::alloc::Global;

/// The candidates of the path, in order: the places to which it leads in the document.
///
/// In a document, a component leads to the field of that name, and to Missing if there is none. In an array a whole number picks an
/// element, and each element that is a document is entered; the picked element comes first. An array in which nothing is found adds
/// no candidate. In any other value a component leads to Missing. There can be as many candidates as 2 to the power of half the
/// path's length; `fold_whole` and `any_whole` do not walk to each of them separately. Fails with `NoMemory` when memory runs out.
pub fn whole<'a>(
    alloc: Global,
    document: &'a Document,
    path: &Path,
) -> Result<Vec<Candidate<'a>>, NoMemory>
    ensures { IfOk result (λ found. map seen found.items ≡ candidates.whole document.now path.now) }
{
    let components = path.components();
    let mut found = Vec::new(alloc);
    found.push(enter(document, &components[0]))?;
    for component in behind(components) {
        found = step_all(alloc, component, found.as_slice())?;
    }
    Ok(found)
}

/// As `whole`, each array followed by its elements. Fails with `NoMemory` when memory runs out.
pub fn leaves<'a>(
    alloc: Global,
    document: &'a Document,
    path: &Path,
) -> Result<Vec<Candidate<'a>>, NoMemory>
    ensures { IfOk result (λ found. map seen found.items ≡ candidates.leaves document.now path.now) }
{
    let found = whole(alloc, document, path)?;
    let mut leaves = Vec::new(alloc);
    for candidate in &found {
        push_with_elements(*candidate, &mut leaves)?;
    }
    Ok(leaves)
}

/// Adds a candidate, and after an array its elements.
fn push_with_elements<'a>(
    candidate: Candidate<'a>,
    leaves: &mut Vec<Candidate<'a>>,
) -> Result<(), NoMemory>
    ensures { OnOk result (map seen leaves.new.items ≡ map seen leaves.old.items ++ with_elements (seen candidate.entry)) }
{
    leaves.push(candidate)?;
    let Candidate::Found(value) = candidate else {
        return Ok(());
    };
    if let Value::Array(list) = value {
        push_elements(list, leaves)?;
    }
    Ok(())
}

fn push_elements<'a>(list: &'a List, leaves: &mut Vec<Candidate<'a>>) -> Result<(), NoMemory>
    ensures { OnOk result (map seen leaves.new.items ≡ map seen leaves.old.items ++ map Some list.now) }
{
    for element in list.as_slice() {
        leaves.push(Candidate::Found(element))?;
    }
    Ok(())
}

/// What is under the component's name.
fn enter<'a>(document: &'a Document, component: &Component) -> Candidate<'a>
    ensures { seen result ≡ value_under component.now document.now }
{
    match document.get(component.as_str()) {
        Some(value) => Candidate::Found(value),
        None => Candidate::Missing,
    }
}

/// The candidates one component further.
fn step_all<'a>(
    alloc: Global,
    component: &Component,
    found: &[Candidate<'a>],
) -> Result<Vec<Candidate<'a>>, NoMemory>
    ensures { IfOk result (λ next. map seen next.items ≡ flat_map (step_from component.now) (map seen found.now)) }
{
    let mut next = Vec::new(alloc);
    for candidate in found {
        step_one(component, *candidate, &mut next)?;
    }
    Ok(next)
}

fn step_one<'a>(
    component: &Component,
    candidate: Candidate<'a>,
    next: &mut Vec<Candidate<'a>>,
) -> Result<(), NoMemory>
    ensures { OnOk result (map seen next.new.items ≡ map seen next.old.items ++ step_from component.now (seen candidate.entry)) }
{
    let Candidate::Found(value) = candidate else {
        next.push(Candidate::Missing)?;
        return Ok(());
    };
    match value {
        Value::Doc(document) => next.push(enter(document, component))?,
        Value::Array(list) => {
            pick(component, list, next)?;
            enter_each(component, list, next)?;
        }
        _ => next.push(Candidate::Missing)?,
    }
    Ok(())
}

/// Adds the element that the component picks, if it is a whole number and there is one.
fn pick<'a>(
    component: &Component,
    list: &'a List,
    next: &mut Vec<Candidate<'a>>,
) -> Result<(), NoMemory>
    ensures { OnOk result (map seen next.new.items ≡ map seen next.old.items ++ picked (index_of component.now) list.now) }
{
    let Some(index) = component.index() else {
        return Ok(());
    };
    let Some(element) = list.as_slice().get(index) else {
        return Ok(());
    };
    next.push(Candidate::Found(element))?;
    Ok(())
}

/// Adds what is under the component's name in each element that is a document.
fn enter_each<'a>(
    component: &Component,
    list: &'a List,
    next: &mut Vec<Candidate<'a>>,
) -> Result<(), NoMemory>
    ensures { OnOk result (map seen next.new.items ≡ map seen next.old.items ++ flat_map (entered component.now) list.now) }
{
    for element in list.as_slice() {
        if let Value::Doc(document) = element {
            next.push(enter(document, component))?;
        }
    }
    Ok(())
}
