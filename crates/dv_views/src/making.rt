//! What a view keeps when it is created or recomputed, over older views and the documents of collections.

ghost use Rattle.std.specs.Prelude.{◌≡◌, false, IfOk};
ghost use Rattle.std.specs.List.{AllByRecursion};
ghost use Rattle.dv_change.specs.declared.input.Input.TheVariants.{Named};
ghost use Rattle.dv_change.specs.Inner.Changes.{IsPositioned};
ghost use Rattle.dv_coll.specs.Collection.{HasId};
ghost use Rattle.dv_pipe.specs.Sources.{rows_referred};
ghost use Rattle.dv_views.specs.Inner.Filled.{FillsList, FillsLists, firsts_of};
ghost use Rattle.dv_views.specs.Forms.{names_read};
ghost use Rattle.dv_views.specs.Inner.Ground.{IsBuilt, IsLive, IsPlacedUnder, lists_below, outs_below, outs_of_mark, views_below};
ghost use Rattle.dv_views.specs.Inner.Keeping.{IsSoundLive, kept_seen};
ghost use Rattle.dv_views.specs.Inner.Made.{IsNoStale};
ghost use Rattle.dv_views.specs.Placed as defined;
ghost use Rattle.dv_views.specs.Placed.{positioned};
ghost use Rattle.dv_views.specs.Views.{live};
ghost use Rattle.dv_views.specs.Inner.Views.{AreInOrder, is_stale, view_under};

use crate::keeping::{filled_left, nothing_taken_in, taken_in_each};
use crate::older::older;
use crate::places::position_of;
use crate::stage_operator::StageOperator;
use crate::view::View;
use dv_change::{Input, Taken, ToldRows};
use dv_pipe::{Pipeline, Sources};
use dv_value::{Document, NoMemory, Str};
use indexmap::IndexMap;
use std::alloc::Global;

/// The rows under names for a view that is created or recomputed: those of views, of which the ones before the place are older, and
/// the documents of collections.
#[derive(Drop)]
pub(crate) struct Ground<'a> {
    pub(crate) views: &'a IndexMap<String, View>,
    pub(crate) place: usize,
    pub(crate) sources: &'a Sources<'a>,
}

/// The rows of the pipeline over `source`, ready to be updated by changes. `lookups` are the names that its stages read by
/// `$lookup`, and no view that it reads is stale. Nothing is counted. Fails when memory runs out.
pub(crate) fn made(
    alloc: Global,
    ground: &Ground<'_>,
    pipeline: &Pipeline,
    source: &str,
    lookups: &[Str],
) -> Result<ToldRows<StageOperator>, NoMemory>
    requires lookups { lookups.now ≡ defined.lookups_of pipeline.now source.now }
    requires read { AllByRecursion (λ name. AreInOrder (lists_below ground.now name)) (names_read pipeline.now source.now) }
    requires live { AllByRecursion (λ name. IsNoStale (view_under name (views_below ground.now))) (names_read pipeline.now source.now) }
    ensures sound { IfOk result (λ rows. IsSoundLive rows) }
    ensures built { IfOk result (λ rows. IsBuilt pipeline.now source.now (views_below ground.now) (lists_below ground.now) (live (kept_seen rows))) }
{
    // The lists that stages read by `$lookup` are taken in first, so that each row of the source is computed only once.
    let fresh = nothing_taken_in(alloc, pipeline)?;
    let some = filled_lists(alloc, fresh, ground, lookups)?;
    let firsts = firsts_under(alloc, ground, source)?;
    let whole = filled_left(some, firsts)?;
    Ok(whole.counted_anew())
}

/// Takes in the rows under the name of each list that a stage reads by `$lookup`.
fn filled_lists(
    alloc: Global,
    rows: ToldRows<StageOperator>,
    ground: &Ground<'_>,
    lookups: &[Str],
) -> Result<ToldRows<StageOperator>, NoMemory>
    requires sound { IsSoundLive rows }
    requires ordered { AllByRecursion (λ name. AreInOrder (lists_below ground.now name)) lookups.now }
    requires live { AllByRecursion (λ name. IsNoStale (view_under name (views_below ground.now))) lookups.now }
    ensures sound { IfOk result (λ after. IsSoundLive after) }
    ensures made { IfOk result (λ after. FillsLists (outs_below (views_below ground.now) (lists_below ground.now)) lookups.now (kept_seen rows) (kept_seen after)) }
    ensures placed { IfOk result (λ _. AllByRecursion (IsPlacedUnder (views_below ground.now) (lists_below ground.now)) lookups.now) }
{
    let mut live = rows;
    'lists: for (place, name) in lookups.iter().enumerate() {
        let firsts = firsts_under(alloc, ground, name.as_str())?;
        live = filled_list(alloc, live, place, firsts)?;
    }
    Ok(live)
}

/// Takes in the rows of a list, of which none was taken in before; no changes are passed on.
fn filled_list(
    alloc: Global,
    rows: ToldRows<StageOperator>,
    place: usize,
    firsts: Vec<Taken>,
) -> Result<ToldRows<StageOperator>, NoMemory>
    requires sound { IsSoundLive rows }
    ensures sound { IfOk result (λ after. IsSoundLive after) }
    ensures made { IfOk result (λ after. FillsList place firsts.items (kept_seen rows) (kept_seen after)) }
{
    let mut told = Vec::new(alloc);
    taken_in_each(rows, Input::Named(place), firsts.as_slice(), &mut told)
}

/// The rows under a name, each put at its position, where no row was before. Fails when memory runs out.
fn firsts_under(alloc: Global, ground: &Ground<'_>, name: &str) -> Result<Vec<Taken>, NoMemory>
    requires ordered { AreInOrder (lists_below ground.now name.now) }
    requires live { IsNoStale (view_under name.now (views_below ground.now)) }
    ensures firsts { IfOk result (λ firsts. firsts.items ≡ firsts_of (outs_below (views_below ground.now) (lists_below ground.now) name.now)) }
    ensures placed { IfOk result (λ _. IsPlacedUnder (views_below ground.now) (lists_below ground.now) name.now) }
{
    match older(ground.views, ground.place, name) {
        Some(view) => firsts_of_view(alloc, view),
        None => firsts_of_documents(alloc, ground.sources.get(name)),
    }
}

/// The rows of a view that isn't stale, each put at its position. Fails when memory runs out.
fn firsts_of_view(alloc: Global, view: &View) -> Result<Vec<Taken>, NoMemory>
    requires { is_stale view.now.mark ≡ false }
    ensures firsts { IfOk result (λ firsts. firsts.items ≡ firsts_of (outs_of_mark view.now.mark)) }
    ensures placed { IfOk result (λ _. IsLive view.now.mark × IsPositioned (outs_of_mark view.now.mark)) }
{
    let Some(rows) = view.live() else {
        unreachable!()
    };
    firsts_of_rows(alloc, rows)
}

/// The rows, each put at its position. Fails when memory runs out.
fn firsts_of_rows(alloc: Global, rows: &ToldRows<StageOperator>) -> Result<Vec<Taken>, NoMemory>
    ensures { IfOk result (λ firsts. firsts.items ≡ firsts_of rows.now.rows.entries) }
{
    let mut firsts = Vec::with_capacity(alloc, rows.len())?;
    'rows: for (pos, row) in rows.entries() {
        firsts.push(Taken {
            pos: pos.try_clone()?,
            old: None,
            new: Some(row.try_clone()?),
        })?;
    }
    Ok(firsts)
}

/// The documents, each put at its own position. Fails when memory runs out.
fn firsts_of_documents(alloc: Global, documents: &[&Document]) -> Result<Vec<Taken>, NoMemory>
    requires { AllByRecursion HasId (rows_referred documents.now) }
    ensures { IfOk result (λ firsts. firsts.items ≡ firsts_of (positioned (rows_referred documents.now))) }
{
    let mut firsts = Vec::with_capacity(alloc, documents.len())?;
    'documents: for document in documents {
        firsts.push(Taken {
            pos: position_of(alloc, document)?,
            old: None,
            new: Some(document.try_clone()?),
        })?;
    }
    Ok(firsts)
}
