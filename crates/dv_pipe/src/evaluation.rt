//! Pipelines carried out.

ghost use Rattle.std.specs.Prelude.{◌≡◌, IfOk};
ghost use Rattle.dv_pipe.specs.Sources.{lists_of, rows_referred};
ghost use Rattle.dv_pipe.specs.Stages as defined;

use crate::pipeline::Pipeline;
use crate::run::Run;
use crate::sources::Sources;
use crate::stage::Stage;
use dv_value::{Document, NoMemory};
use std::alloc::Global;

/// The rows of the pipeline over the documents of `source`. A row that a stage passes on as it is shares its memory with the
/// document. Fails with `NoMemory` when memory runs out.
pub fn evaluate(
    alloc: Global,
    pipeline: &Pipeline,
    source: &str,
    sources: &Sources<'_>,
) -> Result<Vec<Document>, NoMemory>
    ensures { IfOk result (λ rows. rows.items ≡ defined.evaluated pipeline.now source.now (lists_of sources.now)) }
{
    rows_through(
        alloc,
        pipeline.stages(),
        source,
        sources,
        sources.get(source),
    )
}

/// The rows that stages of a pipeline over `source` return for these rows. They share memory as those of `evaluate` do. Fails with
/// `NoMemory` when memory runs out.
pub fn rows_through(
    alloc: Global,
    stages: &[Stage],
    source: &str,
    sources: &Sources<'_>,
    rows: &[&Document],
) -> Result<Vec<Document>, NoMemory>
    ensures { IfOk result (λ left. left.items ≡ defined.through stages.now source.now (lists_of sources.now) (rows_referred rows.now)) }
{
    let mut run = Run::of(alloc, stages, source, sources)?;
    let mut left = run.rows(alloc, rows)?;
    'runs: while !run.later.is_empty() {
        run = Run::of(alloc, run.later, source, sources)?;
        left = run.rows_behind(alloc, &left)?;
    }
    Ok(left)
}
