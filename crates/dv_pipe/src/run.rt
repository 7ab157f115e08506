//! Stages that rows go through one by one, and what is done with all rows after them.

ghost use Rattle.std.specs.Prelude.{◌≡◌, ◌∷◌, ◌⊎◌, ◌<◌, [], IfOk, length};
ghost use Rattle.std.specs.List.{flat_map};
ghost use Rattle.dv_sort.specs.Sorting.{stable, front};
ghost use Rattle.dv_pipe.specs.Inner.Parts.{ComesToSame, passed, wanted as wanted_by, ended, rows_of_part, rows_of_run};
ghost use Rattle.dv_pipe.specs.Sources.{lists_of, rows_referred};
ghost use Rattle.dv_pipe.specs.Stages as defined;

use crate::sources::Sources;
use crate::stage::Stage;
use crate::step::{Step, Work, is_full, push_row};
use dv_gather::{Group, Join, Lookup};
use dv_path::SortSpec;
use dv_sort::{Sorter, laws};
use dv_value::{Document, NoMemory};
use std::alloc::Global;

/// What is done with rows after steps.
#[derive(Debug, Drop)]
pub(crate) enum End<'a> {
    /// They stay as they are: the first ones up to this number, or all.
    Front(Option<usize>),
    /// They are put in order: the first ones up to this number, or all.
    Sort(&'a SortSpec, Option<usize>),
    /// They are grouped.
    Group(&'a Group),
}

/// A stage, according to how rows go through it.
#[derive(Drop)]
pub(crate) enum RunPart<'a> {
    /// One by one.
    Step(Step<'a>),
    /// All of them before the next stage begins.
    End(End<'a>),
}

/// Steps, and what is done with rows after them.
#[derive(Drop)]
pub(crate) struct Run<'a> {
    steps: Vec<Step<'a>>,
    end: End<'a>,
    /// The stages after the run.
    pub(crate) later: &'a [Stage],
}

impl<'a> Run<'a> {
    /// The run at the start of the stages: up to the first stage that collects its rows, or all stages.
    pub(crate) fn of(
        alloc: Global,
        stages: &'a [Stage],
        source: &str,
        sources: &'a Sources<'a>,
    ) -> Result<Self, NoMemory>
        ensures same { IfOk result (λ run. ComesToSame source.now sources.now run.later.now (rows_of_run run) stages.now) }
        ensures shorter { IfOk result (λ run. (run.later.now ≡ []) ⊎ (length run.later.now < length stages.now)) }
    {
        let mut steps = Vec::new(alloc);
        let mut stages = stages;
        'stages: while let Some((stage, later)) = stages.split_first() {
            match part_of(alloc, stage, later, source, sources)? {
                RunPart::Step(step) => steps.push(step)?,
                RunPart::End(end) => return Ok(Run { steps, end, later }),
            }
            stages = later;
        }
        Ok(Run {
            steps,
            end: End::Front(None),
            later: stages,
        })
    }

    /// What the run returns for the documents.
    pub(crate) fn rows(
        &self,
        alloc: Global,
        documents: &[&Document],
    ) -> Result<Vec<Document>, NoMemory>
        ensures { IfOk result (λ rows. rows.items ≡ rows_of_run self.now (rows_referred documents.now)) }
    {
        if let End::Front(most) = &self.end {
            return each(alloc, &self.steps, *most, documents);
        }
        if self.steps.is_empty() {
            return self.end.rows(alloc, documents);
        }
        let rows = each(alloc, &self.steps, None, documents)?;
        let lent = references(alloc, &rows)?;
        self.end.rows(alloc, &lent)
    }

    /// What the run returns for rows.
    pub(crate) fn rows_behind(
        &self,
        alloc: Global,
        rows: &[Document],
    ) -> Result<Vec<Document>, NoMemory>
        ensures { IfOk result (λ left. left.items ≡ rows_of_run self.now rows.now) }
    {
        let lent = references(alloc, rows)?;
        self.rows(alloc, &lent)
    }
}

impl End<'_> {
    /// What this returns for the documents.
    fn rows(&self, alloc: Global, documents: &[&Document]) -> Result<Vec<Document>, NoMemory>
        ensures { IfOk result (λ rows. rows.items ≡ ended self.now (rows_referred documents.now)) }
    {
        match self {
            End::Front(most) => each(alloc, &[], *most, documents),
            End::Sort(spec, most) => sorted(alloc, spec, *most, documents),
            End::Group(group) => group.rows(alloc, documents),
        }
    }
}

/// The stage, according to how rows go through it. Rows that the later stages don't see may be left out.
fn part_of<'a>(
    alloc: Global,
    stage: &'a Stage,
    later: &[Stage],
    source: &str,
    sources: &'a Sources<'a>,
) -> Result<RunPart<'a>, NoMemory>
    ensures { IfOk result (λ part. ComesToSame source.now sources.now later.now (rows_of_part part) (stage.now ∷ later.now)) }
{
    match stage {
        Stage::Match(filter) => Ok(RunPart::Step(Step::of(Work::Match(filter)))),
        Stage::Project(project) => Ok(RunPart::Step(Step::of(Work::Project(project)))),
        Stage::Unwind(unwind) => Ok(RunPart::Step(Step::of(Work::Unwind(unwind)))),
        Stage::Sort(spec) => Ok(RunPart::End(End::Sort(spec, wanted(later)))),
        Stage::Limit(count) => Ok(RunPart::End(End::Front(Some(*count as usize)))),
        Stage::Group(group) => Ok(RunPart::End(End::Group(group))),
        Stage::Lookup(lookup) => {
            let join = join_of(alloc, lookup, source, sources)?;
            Ok(RunPart::Step(Step::of(Work::Lookup(join))))
        }
    }
}

/// The look-up into the documents of its collection in the database of the source.
fn join_of<'a>(
    alloc: Global,
    lookup: &'a Lookup,
    source: &str,
    sources: &'a Sources<'a>,
) -> Result<Join<'a>, NoMemory>
    ensures { IfOk result (λ join. join ≡ (lookup.now, lists_of sources.now (defined.beside source.now lookup.now.from))) }
{
    lookup.join(alloc, sources.beside(source, lookup.from.as_str()))
}

/// How many of the first rows the stages see, if they don't see all.
fn wanted(stages: &[Stage]) -> Option<usize>
    ensures { result ≡ wanted_by stages.now }
{
    match stages.first() {
        Some(Stage::Limit(count)) => Some(*count as usize),
        _ => None,
    }
}

/// What the steps return for the documents: the first `most` rows, after which no row is made, or all.
fn each(
    alloc: Global,
    steps: &[Step<'_>],
    most: Option<usize>,
    documents: &[&Document],
) -> Result<Vec<Document>, NoMemory>
    ensures { IfOk result (λ rows. rows.items ≡ front most (flat_map (passed steps.now) (rows_referred documents.now))) }
{
    let mut rows = Vec::new(alloc);
    'documents: for document in documents {
        if is_full(&rows, most) {
            break;
        }
        push_row(alloc, steps, most, document, &mut rows)?;
    }
    Ok(cut(rows, most))
}

/// The first rows, at most `most`, or all.
fn cut(rows: Vec<Document>, most: Option<usize>) -> Vec<Document>
    ensures { result.items ≡ front most rows.items }
{
    let mut left = rows;
    if let Some(most) = most {
        left.truncate(most);
    }
    left
}

/// References to the rows. Fails with `NoMemory` when memory runs out.
pub fn references<'r>(alloc: Global, rows: &'r [Document]) -> Result<Vec<&'r Document>, NoMemory>
    ensures { IfOk result (λ lent. rows_referred lent.items ≡ rows.now) }
{
    let mut lent = Vec::with_capacity(alloc, rows.len())?;
    'rows: for row in rows {
        lent.push(row)?;
    }
    Ok(lent)
}

/// The documents in order: the first `most`, or all.
fn sorted(
    alloc: Global,
    spec: &SortSpec,
    most: Option<usize>,
    documents: &[&Document],
) -> Result<Vec<Document>, NoMemory>
    ensures { IfOk result (λ rows. rows.items ≡ front most (stable spec.now (rows_referred documents.now))) }
{
    laws::one_row_more();
    let mut sorter = Sorter::new(alloc, spec, most);
    'documents: for document in documents {
        sorter.push(document.try_clone()?)?;
    }
    sorter.into_rows()
}
