//! Stages.

ghost use Rattle.std.specs.Prelude.{◌≡◌, IfOk};
ghost use Rattle.std.specs.Option.{option_map};
ghost use Rattle.dv_value.specs.View.{tree};
ghost use Rattle.dv_value.specs.Results.{Gives};
ghost use Rattle.dv_row.specs.declared.fault.PipelineFault.TheVariants.{NoMemory as no_memory};
ghost use Rattle.dv_pipe.specs.StageParsing as defined;
ghost use Rattle.dv_pipe.specs.Stages.{from_of};

use dv_gather::{Group, Lookup};
use dv_match::{Filter, FilterFault};
use dv_path::SortSpec;
use dv_row::{PipelineFault, Project, Unwind};
use dv_value::{NoMemory, Value};
use std::alloc::Global;

/// How rows are made from other rows.
#[derive(Debug, Drop)]
pub enum Stage {
    /// `$match`: the rows that match the filter.
    Match(Filter),
    /// `$project`: each row as it is shown.
    Project(Project),
    /// `$unwind`: a row for each element of an array.
    Unwind(Unwind),
    /// `$sort`: the rows in order.
    Sort(SortSpec),
    /// `$limit`: the first rows, at most this many.
    Limit(u64),
    /// `$group`: a row for each group of rows.
    Group(Group),
    /// `$lookup`: each row with the documents of another collection that it is joined with.
    Lookup(Lookup),
}

impl Stage {
    /// The stage that the value is, a document of one name, or its first fault in written order.
    pub(crate) fn parse(alloc: Global, value: &Value) -> Result<Stage, PipelineFault>
        ensures { Gives no_memory (λ stage. stage) result (defined.stage_of (tree value.now)) }
    {
        let Value::Doc(document) = value else {
            return Err(PipelineFault::BadSpec);
        };
        if document.len() != 1 {
            return Err(PipelineFault::BadSpec);
        }
        let Some((name, operand)) = document.entry(0) else {
            return Err(PipelineFault::BadSpec);
        };
        stage_named(alloc, name, operand)
    }

    /// The name of the collection that the stage reads besides its rows, in the database of the pipeline's source.
    /// Takes no memory.
    pub fn foreign(&self) -> Option<&str>
        ensures { option_map (λ name. name.now) result ≡ from_of self.now }
    {
        match self {
            Stage::Lookup(lookup) => Some(lookup.from.as_str()),
            _ => None,
        }
    }

    /// A copy of its own. Fails with `NoMemory` when memory runs out.
    pub fn try_clone(&self) -> Result<Self, NoMemory>
        ensures { IfOk result (λ copy. copy ≡ self.now) }
    {
        match self {
            Stage::Match(filter) => Ok(Stage::Match(filter.try_clone()?)),
            Stage::Project(project) => Ok(Stage::Project(project.try_clone()?)),
            Stage::Unwind(unwind) => Ok(Stage::Unwind(unwind.try_clone()?)),
            Stage::Sort(spec) => Ok(Stage::Sort(spec.try_clone()?)),
            Stage::Limit(count) => Ok(Stage::Limit(*count)),
            Stage::Group(group) => Ok(Stage::Group(group.try_clone()?)),
            Stage::Lookup(lookup) => Ok(Stage::Lookup(lookup.try_clone()?)),
        }
    }
}

/// The stage of this name.
#[tactic(auto, unfolding(crate::specs::StageParsing::stage_named))]
fn stage_named(alloc: Global, name: &str, operand: &Value) -> Result<Stage, PipelineFault>
    ensures { Gives no_memory (λ stage. stage) result (defined.stage_named name.now (tree operand.now)) }
{
    match name {
        "$match" => Ok(Stage::Match(filter_of(alloc, operand)?)),
        "$project" => Ok(Stage::Project(Project::parse(alloc, operand)?)),
        "$unwind" => Ok(Stage::Unwind(Unwind::parse(alloc, operand)?)),
        "$sort" => Ok(Stage::Sort(sort_of(alloc, operand)?)),
        "$limit" => Ok(Stage::Limit(count_of(operand)?)),
        "$group" => Ok(Stage::Group(Group::parse(alloc, operand)?)),
        "$lookup" => Ok(Stage::Lookup(Lookup::parse(alloc, operand)?)),
        _ => Err(PipelineFault::UnknownStage),
    }
}

/// The filter that the value is.
fn filter_of(alloc: Global, value: &Value) -> Result<Filter, PipelineFault>
    ensures { Gives no_memory (λ filter. filter) result (defined.filter_form (tree value.now)) }
{
    match value {
        Value::Doc(document) => match Filter::parse(alloc, document) {
            Ok(filter) => Ok(filter),
            Err(fault) => Err(of_filter(fault)),
        },
        _ => Err(PipelineFault::BadSpec),
    }
}

/// What a filter's fault is in a pipeline: out of memory stays the same, any other becomes `Filter`.
fn of_filter(fault: FilterFault) -> PipelineFault
    ensures { result ≡ defined.pipeline_fault_of_filter fault }
{
    match fault {
        FilterFault::NoMemory => PipelineFault::NoMemory,
        _ => PipelineFault::Filter,
    }
}

/// The sort that the value is.
fn sort_of(alloc: Global, value: &Value) -> Result<SortSpec, PipelineFault>
    ensures { Gives no_memory (λ spec. spec) result (defined.sort_in (tree value.now)) }
{
    let Value::Doc(document) = value else {
        return Err(PipelineFault::BadSpec);
    };
    match SortSpec::parse(alloc, document)? {
        Some(spec) => Ok(spec),
        None => Err(PipelineFault::BadSpec),
    }
}

/// A number of at least 1.
fn count_of(value: &Value) -> Result<u64, PipelineFault>
    ensures { result ≡ defined.count_in (tree value.now) }
{
    match value {
        Value::Int32(number) => from_one(i64::from(*number)),
        Value::Int64(number) => from_one(*number),
        _ => Err(PipelineFault::BadSpec),
    }
}

fn from_one(number: i64) -> Result<u64, PipelineFault>
    ensures { result ≡ defined.from_one number }
{
    if number < 1 {
        Err(PipelineFault::BadSpec)
    } else {
        Ok(number as u64)
    }
}
