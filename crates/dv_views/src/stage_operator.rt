//! Stages that receive each change with the row that was at its position before.

ghost use Rattle.std.specs.Prelude.{IfOk};
ghost use Rattle.dv_views.specs.Inner.Operating.{AreFresh, HoldsStage, IsFreshStage, IsSoundStage, stage_empty, stage_even, stage_makes, stage_ordered, stage_positioned};

use dv_change::{Input, Operator, Pos, Taken, Ticks};
use dv_flow::{LimitOperator, RowOperator};
use dv_group::GroupOperator;
use dv_join::LookupOperator;
use dv_match::Filter;
use dv_path::SortSpec;
use dv_pipe::{Project, Stage, Unwind};
use dv_value::{Document, NoMemory};
use std::alloc::Global;
use std::collections::BTreeMap;

/// A stage of any kind that receives changes. It is one type for all kinds, so that they can follow each other.
#[derive(Drop)]
pub(crate) enum StageOperator {
    /// `$match`.
    Match(RowOperator<Filter>),
    /// `$project`.
    Project(RowOperator<Project>),
    /// `$unwind`.
    Unwind(RowOperator<Unwind>),
    /// `$sort`.
    Sort(RowOperator<SortSpec>),
    /// `$limit`.
    Limit(LimitOperator),
    /// `$group`.
    Group(GroupOperator),
    /// `$lookup`.
    Lookup(LookupOperator),
}

impl Operator for StageOperator {
    ghost makes = { stage_makes };

    ghost sound = { IsSoundStage };

    ghost holds = { HoldsStage };

    ghost positioned = { stage_positioned };

    ghost ordered = { stage_ordered };

    ghost even = { stage_even };

    ghost empty = { stage_empty };

    fn named(&self) -> usize {
        match self {
            StageOperator::Match(stage) => stage.named(),
            StageOperator::Project(stage) => stage.named(),
            StageOperator::Unwind(stage) => stage.named(),
            StageOperator::Sort(stage) => stage.named(),
            StageOperator::Limit(stage) => stage.named(),
            StageOperator::Group(stage) => stage.named(),
            StageOperator::Lookup(stage) => stage.named(),
        }
    }

    fn take(
        &mut self,
        input: Input,
        taken: Taken,
        ticks: &mut Ticks,
        out: &mut Vec<Taken>,
    ) -> Result<(), NoMemory> {
        match self {
            StageOperator::Match(stage) => stage.take(input, taken, ticks, out),
            StageOperator::Project(stage) => stage.take(input, taken, ticks, out),
            StageOperator::Unwind(stage) => stage.take(input, taken, ticks, out),
            StageOperator::Sort(stage) => stage.take(input, taken, ticks, out),
            StageOperator::Limit(stage) => stage.take(input, taken, ticks, out),
            StageOperator::Group(stage) => stage.take(input, taken, ticks, out),
            StageOperator::Lookup(stage) => stage.take(input, taken, ticks, out),
        }
    }

    fn take_beside(
        &mut self,
        input: Input,
        taken: Taken,
        made: &BTreeMap<Pos, Document>,
        ticks: &mut Ticks,
        out: &mut Vec<Taken>,
    ) -> Result<(), NoMemory> {
        match self {
            StageOperator::Project(stage) => stage.take_beside(input, taken, made, ticks, out),
            StageOperator::Lookup(stage) => stage.take_beside(input, taken, made, ticks, out),
            // The others have no use for the rows that are kept.
            _ => self.take(input, taken, ticks, out),
        }
    }

    fn is_filled_at_once(&self) -> bool {
        match self {
            StageOperator::Group(stage) => stage.is_filled_at_once(),
            _ => false,
        }
    }

    fn pack(&mut self) -> Result<(), NoMemory> {
        match self {
            StageOperator::Lookup(stage) => stage.pack(),
            // The others leave what they keep as it is.
            _ => Ok(()),
        }
    }

    fn fill(&mut self, all: Vec<Taken>) -> Result<Vec<Taken>, NoMemory> {
        match self {
            StageOperator::Match(stage) => stage.fill(all),
            StageOperator::Project(stage) => stage.fill(all),
            StageOperator::Unwind(stage) => stage.fill(all),
            StageOperator::Sort(stage) => stage.fill(all),
            StageOperator::Limit(stage) => stage.fill(all),
            StageOperator::Group(stage) => stage.fill(all),
            StageOperator::Lookup(stage) => stage.fill(all),
        }
    }
}

/// The stages, which have taken in nothing yet. Fails when memory runs out.
pub(crate) fn operators_of(alloc: Global, stages: &[Stage]) -> Result<Vec<StageOperator>, NoMemory>
    ensures { IfOk result (λ operators. AreFresh stages.now operators.items) }
{
    let mut operators = Vec::with_capacity(alloc, stages.len())?;
    'stages: for stage in stages {
        let operator = operator_of(alloc, stage)?;
        operators.push(operator)?;
    }
    Ok(operators)
}

/// The stage, which has taken in nothing yet. Fails when memory runs out.
#[tactic(auto, unfolding(crate::specs::Placed::stage_at))]
fn operator_of(alloc: Global, stage: &Stage) -> Result<StageOperator, NoMemory>
    ensures { IfOk result (λ operator. IsFreshStage stage.now operator) }
{
    match stage {
        Stage::Match(filter) => Ok(StageOperator::Match(RowOperator::new(alloc, filter)?)),
        Stage::Project(project) => Ok(StageOperator::Project(RowOperator::new(alloc, project)?)),
        Stage::Unwind(unwind) => Ok(StageOperator::Unwind(RowOperator::new(alloc, unwind)?)),
        Stage::Sort(spec) => Ok(StageOperator::Sort(RowOperator::new(alloc, spec)?)),
        Stage::Limit(count) => Ok(StageOperator::Limit(LimitOperator::new(alloc, *count))),
        Stage::Group(group) => Ok(StageOperator::Group(GroupOperator::new(alloc, group)?)),
        Stage::Lookup(lookup) => Ok(StageOperator::Lookup(LookupOperator::new(alloc, lookup)?)),
    }
}
