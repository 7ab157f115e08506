//! Rows of stages, updated by the changes of what the stages read.

ghost use Rattle.std.specs.Prelude.{◌≡◌, ◌∷◌, [], Some, IfOk};
ghost use Rattle.std.specs.Option.{option_map};
ghost use Rattle.dv_views.specs.Inner.Filled.{FillsLeft};
ghost use Rattle.dv_views.specs.Inner.Holding.{HasMade, lists_of_all};
ghost use Rattle.dv_views.specs.Inner.Keeping.{IsSoundLive, kept_seen};
ghost use Rattle.dv_views.specs.Inner.Operating.{empty_lists};
ghost use Rattle.dv_views.specs.Inner.Turned.{Turns, coming};

use crate::stage_operator::{StageOperator, operators_of};
use dv_change::{Input, Taken, ToldRows};
use dv_pipe::Pipeline;
use dv_value::NoMemory;
use std::alloc::Global;

/// Rows of stages that have taken in nothing. Fails when memory runs out.
pub(crate) fn nothing_taken_in(
    alloc: Global,
    pipeline: &Pipeline,
) -> Result<ToldRows<StageOperator>, NoMemory>
    ensures sound { IfOk result (λ rows. IsSoundLive rows) }
    ensures made { IfOk result (λ rows. HasMade pipeline.now (kept_seen rows) (record { left = []; named = empty_lists (lists_of_all pipeline.now) })) }
    ensures ticks { IfOk result (λ rows. rows.ticks ≡ 0) }
{
    let operators = operators_of(alloc, pipeline.stages())?;
    Ok(ToldRows::new(alloc, operators))
}

/// Takes in the changes of an input, one after the other, if there are any, and appends the changes of the rows to `told`. Fails
/// when memory runs out; then the rows are dropped.
pub(crate) fn taken_in_told(
    rows: ToldRows<StageOperator>,
    input: Input,
    all: Option<&[Taken]>,
    told: &mut Vec<Taken>,
) -> Result<ToldRows<StageOperator>, NoMemory>
    requires sound { IsSoundLive rows }
    ensures sound { IfOk result (λ after. IsSoundLive after) }
    ensures turns { IfOk result (λ after. Turns (coming input (option_map (λ all. all.now) all.entry)) (kept_seen rows) told.old.items (kept_seen after) told.new.items) }
{
    match all {
        Some(all) => taken_in_each(rows, input, all, told),
        None => Ok(rows),
    }
}

/// Takes in changes of an input, one after the other.
pub(crate) fn taken_in_each(
    rows: ToldRows<StageOperator>,
    input: Input,
    all: &[Taken],
    told: &mut Vec<Taken>,
) -> Result<ToldRows<StageOperator>, NoMemory>
    requires sound { IsSoundLive rows }
    ensures sound { IfOk result (λ after. IsSoundLive after) }
    ensures turns { IfOk result (λ after. Turns (coming input (Some all.now)) (kept_seen rows) told.old.items (kept_seen after) told.new.items) }
{
    let mut live = rows;
    'all: for taken in all {
        live = taken_in(live, input, taken, told)?;
    }
    Ok(live)
}

/// Takes in a change of an input.
fn taken_in(
    rows: ToldRows<StageOperator>,
    input: Input,
    taken: &Taken,
    told: &mut Vec<Taken>,
) -> Result<ToldRows<StageOperator>, NoMemory>
    requires sound { IsSoundLive rows }
    ensures sound { IfOk result (λ after. IsSoundLive after) }
    ensures turns { IfOk result (λ after. Turns (record { input = input; taken = taken.now } ∷ []) (kept_seen rows) told.old.items (kept_seen after) told.new.items) }
{
    rows.take(input, taken.try_clone()?, told)
}

/// Takes in rows of the source, of which none was taken in before. Counts nothing. Fails when memory runs out; then the rows are
/// dropped.
pub(crate) fn filled_left(
    rows: ToldRows<StageOperator>,
    all: Vec<Taken>,
) -> Result<ToldRows<StageOperator>, NoMemory>
    requires sound { IsSoundLive rows }
    ensures sound { IfOk result (λ after. IsSoundLive after) }
    ensures made { IfOk result (λ after. FillsLeft all.items (kept_seen rows) (kept_seen after)) }
{
    rows.fill(all)
}
