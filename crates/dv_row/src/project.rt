//! `$project`.

ghost use Rattle.std.specs.Prelude.{◌≡◌, Some, IfOk, IsTrue};
ghost use Rattle.std.specs.Option.{option_map};
ghost use Rattle.dv_value.specs.Tree.{Tree, elements_of, list_of_elements};
ghost use Rattle.dv_value.specs.View.{tree};
ghost use Rattle.dv_value.specs.Names.{AreNamed};
ghost use Rattle.dv_row.specs.Projecting as defined;
ghost use Rattle.dv_row.specs.Inner.Turns.{IsTurn};

use crate::expr::{Computed, push_field, show_field};
use crate::level::{Level, Turn, led_into};
use crate::paths::Paths;
use crate::ways::Ways;
use dv_value::{Document, List, NoMemory, Value};
use std::alloc::Global;

/// What is shown of a row.
#[derive(Debug, Drop)]
pub enum Project {
    /// What the paths lead to, in the row's order, and after it the computed fields. Paths lead into each document of an array, and
    /// into arrays in arrays. Other elements are removed, and so are fields on a path's way that are neither documents nor arrays.
    Include(Paths, Computed),
    /// All except what the paths lead to.
    Exclude(Paths),
}

impl Project {
    /// What is shown of the row. Fails with `NoMemory` when memory runs out.
    pub fn row(&self, alloc: Global, row: &Document) -> Result<Document, NoMemory>
        ensures { IfOk result (λ shown. shown ≡ defined.projected self.now row.now) }
    {
        self.row_behind(alloc, row, None)
    }

    /// What is shown of the row, as `row` returns it. It shares names with what was shown of the row before it, if there is one.
    #[tactic(auto, unfolding(crate::specs::Projecting::projected))]
    pub fn row_behind(
        &self,
        alloc: Global,
        row: &Document,
        before: Option<&Document>,
    ) -> Result<Document, NoMemory>
        ensures { IfOk result (λ shown. shown ≡ defined.projected self.now row.now) }
    {
        match self {
            Project::Include(paths, computed) => {
                let mut shown = row_left(alloc, true, paths, row, before)?;
                computed.push_computed(alloc, row, &mut shown)?;
                Ok(shown)
            }
            Project::Exclude(paths) => row_left(alloc, false, paths, row, before),
        }
    }

    /// A copy of its own. Fails with `NoMemory` when memory runs out.
    pub fn try_clone(&self) -> Result<Self, NoMemory>
        ensures { IfOk result (λ copy. copy ≡ self.now) }
    {
        match self {
            Project::Include(paths, computed) => {
                Ok(Project::Include(paths.try_clone()?, computed.try_clone()?))
            }
            Project::Exclude(paths) => Ok(Project::Exclude(paths.try_clone()?)),
        }
    }
}

/// What is left of the row: only what the paths lead to if `keeps` is true, otherwise all except that. It shares names with
/// `before`, if there is one.
fn row_left(
    alloc: Global,
    keeps: bool,
    paths: &Paths,
    row: &Document,
    before: Option<&Document>,
) -> Result<Document, NoMemory>
    ensures { IfOk result (λ left. left ≡ defined.row_left keeps paths.now row.now) }
{
    document_left(alloc, keeps, &paths.ways(), row, before)
}

/// What is left of a document. It shares names with `before`, if there is one. The documents around the one that is traversed
/// are kept in a list, so their levels take no stack.
#[cycle(left)]
fn document_left<'a>(
    alloc: Global,
    keeps: bool,
    ways: &Ways<'a>,
    document: &'a Document,
    before: Option<&Document>,
) -> Result<Document, NoMemory>
    ensures { IfOk result (λ left. left ≡ defined.row_left keeps ways.now document.now) }
{
    let mut level = Level::of(alloc, ways.same(), document, before)?;
    let mut around = Vec::new(alloc);
    'turns: loop {
        match go_on(alloc, keeps, level)? {
            Turn::Entered(outer, inner) => {
                around.push(outer)?;
                level = inner;
            }
            Turn::Ended(left) => {
                let Some(outer) = around.pop() else {
                    return Ok(left);
                };
                level = outer.with_inner(left)?;
            }
        }
    }
}

/// Goes on in a document, up to a document in it that ways lead into, or to its end.
#[cycle(left)]
fn go_on<'a>(alloc: Global, keeps: bool, level: Level<'a>) -> Result<Turn<'a>, NoMemory>
    ensures named { AreNamed level.entry.document.now }
    ensures turn { IfOk result (IsTurn keeps level.entry) }
{
    let Level {
        ways,
        document,
        place: next,
        mut left,
    } = level;
    'fields: for place in next..document.len() {
        let (name, value) = document.field(place);
        let behind = ways.behind(name);
        if let Some(inner) = led_into(&behind, value) {
            let inner = Level::of(alloc, behind, inner, None)?;
            let outer = Level {
                ways,
                document,
                place,
                left,
            };
            return Ok(Turn::Entered(outer, inner));
        }
        if stays(keeps, &behind) {
            show_field(&mut left, name, document, place)?;
        } else {
            let kept = value_left(alloc, keeps, &behind, value)?;
            push_field(&mut left, name, kept)?;
        }
    }
    Ok(Turn::Ended(left))
}

/// Whether a value is left as it is, whatever it is, given what follows it in the paths that lead to it.
#[tactic(auto, unfolding(crate::specs::Projecting::left_inside))]
fn stays(keeps: bool, ways: &Ways<'_>) -> bool
    ensures { IsTrue result → ((v : Tree) → defined.left_of_value keeps ways.now v ≡ Some v) }
{
    if ways.is_empty() {
        !keeps
    } else {
        keeps && ways.any_ends()
    }
}

/// What is left of a value, given what follows it in the paths that lead to it.
#[cycle(left)]
fn value_left<'a>(
    alloc: Global,
    keeps: bool,
    ways: &Ways<'a>,
    value: &'a Value,
) -> Result<Option<Value>, NoMemory>
    ensures { IfOk result (λ kept. option_map tree kept ≡ defined.left_of_value keeps ways.now (tree value.now)) }
{
    if ways.is_empty() {
        return if_it(!keeps, value);
    }
    if ways.any_ends() {
        return if_it(keeps, value);
    }
    left_inside(alloc, keeps, ways, value)
}

/// What is left of a value at which no way ends.
#[cycle(left)]
#[tactic(auto, unfolding(crate::specs::Projecting::left_inside))]
fn left_inside<'a>(
    alloc: Global,
    keeps: bool,
    ways: &Ways<'a>,
    value: &'a Value,
) -> Result<Option<Value>, NoMemory>
    ensures { IfOk result (λ kept. option_map tree kept ≡ defined.left_inside keeps ways.now (tree value.now)) }
{
    match value {
        Value::Doc(document) => {
            let left = document_left(alloc, keeps, ways, document, None)?;
            Ok(Some(Value::Doc(left)))
        }
        Value::Array(list) => {
            let left = list_left(alloc, keeps, ways, list)?;
            Ok(Some(Value::Array(left)))
        }
        _ => if_it(!keeps, value),
    }
}

/// What is left of an array's elements.
#[cycle(left)]
fn list_left<'a>(
    alloc: Global,
    keeps: bool,
    ways: &Ways<'a>,
    list: &'a List,
) -> Result<List, NoMemory>
    ensures { IfOk result (λ left. left ≡ list_of_elements (defined.elements_left keeps ways.now (elements_of list.now))) }
{
    let mut left = Vec::new(alloc);
    'elements: for element in list.as_slice() {
        if let Some(kept) = left_inside(alloc, keeps, ways, element)? {
            left.push(kept)?;
        }
    }
    Ok(List::of(left))
}

/// A copy of the value, if it stays.
fn if_it(stays: bool, value: &Value) -> Result<Option<Value>, NoMemory>
    ensures { IfOk result (λ kept. option_map tree kept ≡ defined.if_it stays (tree value.now)) }
{
    if stays {
        Ok(Some(value.try_clone()?))
    } else {
        Ok(None)
    }
}
