//! Pipelines as parsed.

ghost use Rattle.std.specs.Prelude.{◌≡◌, map, IfOk};
ghost use Rattle.std.specs.List.{list_any};
ghost use Rattle.dv_value.specs.View.{tree};
ghost use Rattle.dv_value.specs.Results.{Gives, each};
ghost use Rattle.dv_row.specs.declared.fault.PipelineFault.TheVariants.{NoMemory as no_memory};
ghost use Rattle.dv_pipe.specs.StageParsing.{stage_of, pipeline_of};
ghost use Rattle.dv_pipe.specs.Stages.{is_source_named, is_read, looked_into};

use crate::namespace::is_beside;
use crate::stage::Stage;
use dv_row::PipelineFault;
use dv_value::{NoMemory, Value};
use std::alloc::Global;
use std::marker::Model;

/// How many stages a pipeline has at most.
const MOST_STAGES: usize = 16;

/// Stages, through which rows go one after the other.
#[derive(Debug, Drop)]
pub struct Pipeline {
    stages: Vec<Stage>,
}

impl Model for Pipeline {
    ghost use Rattle.std.specs.Prelude.{List};
    ghost use Rattle.dv_pipe.specs.declared.stage.Stage.{Stage};

    ghost Value = { List Stage };

    ghost use Rattle.std.specs.Coded.{codes};
    ghost use Rattle.dv_match.specs.contracts.form.Filter as filters;
    ghost use Rattle.dv_row.specs.contracts.expr.Computed as computed;
    ghost use Rattle.dv_gather.specs.contracts.group.Group as groups;

    ghost coded = { Prim.hlevel (codes, filters.the_row.coded, computed.the_row.coded, groups.the_row.coded) };

    ghost view = { λ p. p.stages.items };
}

impl Pipeline {
    /// The pipeline of the documents, each of which is a stage, or its first fault in written order: `TooMany` is that of a
    /// seventeenth stage. Fails with `NoMemory` when memory runs out.
    pub fn parse(alloc: Global, list: &[Value]) -> Result<Pipeline, PipelineFault>
        ensures { Gives no_memory (λ pipeline. pipeline) result (pipeline_of (map tree list.now)) }
    {
        if list.len() > MOST_STAGES {
            each_stage(alloc, &list[..MOST_STAGES])?;
            return Err(PipelineFault::TooMany);
        }
        let stages = each_stage(alloc, list)?;
        Ok(Pipeline { stages })
    }

    /// The stages in written order. Takes no memory.
    pub fn stages(&self) -> &[Stage]
        ensures { result.now ≡ self.now }
    {
        self.stages.as_slice()
    }

    /// Whether the pipeline over `source` reads the namespace: it is the source, or a `$lookup` reads it. Takes no memory.
    pub fn reads(&self, source: &str, namespace: &str) -> bool
        ensures { result ≡ is_read self.now source.now namespace.now }
    {
        source == namespace || self.looks_into(source, namespace)
    }

    /// Whether a `$lookup` of the pipeline over `source` reads the namespace.
    fn looks_into(&self, source: &str, namespace: &str) -> bool
        ensures { result ≡ list_any (λ s. is_source_named namespace.now (looked_into s source.now)) self.now }
    {
        'stages: for stage in &self.stages {
            if let Some(collection) = stage.foreign() {
                if is_beside(source, collection, namespace) {
                    return true;
                }
            }
        }
        false
    }

    /// A copy of its own. Fails with `NoMemory` when memory runs out.
    pub fn try_clone(&self) -> Result<Self, NoMemory>
        ensures { IfOk result (λ copy. copy ≡ self.now) }
    {
        let mut stages = Vec::with_capacity(*self.stages.allocator(), self.stages.len())?;
        for stage in &self.stages {
            stages.push(stage.try_clone()?)?;
        }
        Ok(Pipeline { stages })
    }
}

/// The stages that the values are.
fn each_stage(alloc: Global, list: &[Value]) -> Result<Vec<Stage>, PipelineFault>
    ensures { Gives no_memory (λ stages. stages.items) result (each stage_of (map tree list.now)) }
{
    let mut stages = Vec::new(alloc);
    'stages: for value in list {
        stages.push(Stage::parse(alloc, value)?)?;
    }
    Ok(stages)
}
