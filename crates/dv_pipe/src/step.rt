//! Stages that work on one row each.

ghost use Rattle.std.specs.Prelude.{◌≡◌, ◌++◌, List, OnOk, true};
ghost use Rattle.std.specs.List.{flat_map};
ghost use Rattle.dv_sort.specs.Sorting.{front};
ghost use Rattle.dv_pipe.specs.Inner.Parts.{passed, rows_of_work, rows_of_step};
ghost use Rattle.dv_pipe.specs.Sources.{Row};

use dv_gather::Join;
use dv_match::Filter;
use dv_row::{Project, Unwind, UnwoundRows};
use dv_value::{Document, NoMemory};
use std::alloc::Global;
use std::cell::Cell;

/// How rows are made from one row.
#[derive(Debug, Drop)]
pub(crate) enum Work<'a> {
    /// The row, if it matches the filter.
    Match(&'a Filter),
    /// The row as it is shown.
    Project(&'a Project),
    /// A row for each element of an array.
    Unwind(&'a Unwind),
    /// The row with the documents that it is joined with.
    Lookup(Join<'a>),
}

/// Work on rows that come one after the other.
#[derive(Drop)]
pub(crate) struct Step<'a> {
    work: Work<'a>,
    /// The result for the row before, if other steps follow. The next result shares names with it.
    made: Cell<Option<Document>>,
}

impl<'a> Step<'a> {
    /// The work, before the first row.
    pub(crate) fn of(work: Work<'a>) -> Self
        ensures { rows_of_step result ≡ rows_of_work work.entry }
    {
        Step {
            work,
            made: Cell::new(None),
        }
    }
}

/// Appends what the steps return for a row to other rows, of which the first `most` are wanted, or all. Each row that a step makes
/// goes through all later steps before the next row is made. Calls are nested as deep as there are steps; a pipeline has at most
/// 16.
#[cycle(steps)]
pub(crate) fn push_row(
    alloc: Global,
    steps: &[Step<'_>],
    most: Option<usize>,
    row: &Document,
    rows: &mut Vec<Document>,
) -> Result<(), NoMemory>
    ensures { OnOk result (front most rows.new.items ≡ front most (rows.old.items ++ passed steps.now row.now)) }
{
    let Some((step, later)) = steps.split_first() else {
        rows.push(row.try_clone()?)?;
        return Ok(());
    };
    match &step.work {
        Work::Match(filter) => {
            if filter.matches(row) {
                push_row(alloc, later, most, row, rows)?;
            }
            Ok(())
        }
        Work::Project(project) => {
            let before = step.made.take();
            let shown = project.row_behind(alloc, row, before.as_ref().or(rows.last()))?;
            push_made(alloc, step, later, most, shown, rows)
        }
        Work::Unwind(unwind) => {
            let made = unwind.each_row(alloc, row)?;
            push_each(alloc, step, later, most, &made, rows)
        }
        Work::Lookup(join) => {
            let before = step.made.take();
            let joined = join.row_behind(alloc, row, before.as_ref().or(rows.last()))?;
            push_made(alloc, step, later, most, joined, rows)
        }
    }
}

/// The same for what the later steps return for a row that the step made.
#[cycle(steps)]
fn push_made(
    alloc: Global,
    step: &Step<'_>,
    later: &[Step<'_>],
    most: Option<usize>,
    mut row: Document,
    rows: &mut Vec<Document>,
) -> Result<(), NoMemory>
    ensures { OnOk result (front most rows.new.items ≡ front most (rows.old.items ++ passed later.now row)) }
{
    if later.is_empty() {
        // Its size is needed more than once before it is written.
        row.keep_size();
        rows.push(row)?;
        return Ok(());
    }
    push_row(alloc, later, most, &row, rows)?;
    step.made.set(Some(row));
    Ok(())
}

/// The same for each of the rows, as long as one is wanted.
#[cycle(steps)]
fn push_each(
    alloc: Global,
    step: &Step<'_>,
    later: &[Step<'_>],
    most: Option<usize>,
    made: &UnwoundRows<'_>,
    rows: &mut Vec<Document>,
) -> Result<(), NoMemory>
    ensures { OnOk result (front most rows.new.items ≡ front most (rows.old.items ++ flat_map (passed later.now) made.now)) }
{
    'made: for place in 0..made.len() {
        if is_full(rows, most) {
            break;
        }
        push_made(alloc, step, later, most, made.row(place)?, rows)?;
    }
    Ok(())
}

/// Whether no row after these is wanted.
pub(crate) fn is_full(rows: &[Document], most: Option<usize>) -> bool
    ensures { result ≡ true → (more : List Row) → front most (rows.now ++ more) ≡ front most rows.now }
{
    match most {
        Some(most) => rows.len() >= most,
        None => false,
    }
}
