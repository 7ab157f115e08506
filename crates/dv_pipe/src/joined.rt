//! The documents that a look-up finds, as a filter.

ghost use Rattle.std.specs.Prelude.{◌≡◌, ◌++◌, map, IfOk, OnOk};
ghost use Rattle.dv_candidates.specs.Candidates.{or_null};
ghost use Rattle.dv_candidates.specs.View.{seen};
ghost use Rattle.dv_gather.specs.Joining.{joined_by, local_values};
ghost use Rattle.dv_pipe.specs.Inner.Joined.{AddsToTests, having_one_of};
ghost use Rattle.dv_pipe.specs.Laws.{MatchesAllJoined};
ghost use Rattle.dv_pipe.specs.Sources.{rows_referred};
ghost use Rattle.dv_value.specs.View.{tree};

use dv_candidates::{Candidate, Path, fold_whole};
use dv_gather::Lookup;
use dv_match::{Choices, Condition, Conditions, Filter, Member};
use dv_path::array_in;
use dv_value::{Document, List, NoMemory, Value};
use std::alloc::Global;

/// A filter that matches all documents with which some of the rows are joined. So the rows are joined with the same documents if
/// only those that match it are there. Fails with `NoMemory` when memory runs out.
pub fn filter_of_joined(
    alloc: Global,
    lookup: &Lookup,
    rows: &[&Document],
) -> Result<Filter, NoMemory>
    ensures { IfOk result (λ filter. MatchesAllJoined lookup.now (rows_referred rows.now) filter) }
{
    let mut values = Vec::new(alloc);
    'rows: for row in rows {
        values = with_values(values, &lookup.local, row)?;
    }
    has_one_of(alloc, &lookup.foreign, List::of(values))
}

/// The filter that a document matches if some leaf under the path compares equal to one of the values.
fn has_one_of(alloc: Global, path: &Path, values: List) -> Result<Filter, NoMemory>
    ensures { IfOk result (λ filter. filter ≡ having_one_of path.now values) }
{
    let mut conditions = Vec::with_capacity(alloc, 1)?;
    conditions.push(Condition::In(Choices::of(values)?))?;
    let mut members = Vec::with_capacity(alloc, 1)?;
    members.push(Member::At(path.try_clone()?, Conditions::of(conditions)))?;
    Ok(Filter::of(members))
}

/// The values, and those by which a row is joined.
fn with_values(values: Vec<Value>, local: &Path, row: &Document) -> Result<Vec<Value>, NoMemory>
    ensures { IfOk result (λ all. AddsToTests (joined_by local.now row.now) (map tree values.items) (map tree all.items)) }
{
    let all = fold_whole(row, local, values, |values, candidate| {
        with_candidate(values, candidate)
    })?;
    Ok(all)
}

/// The values, and those that a candidate stands for: the elements of an array, and null if it is missing.
fn with_candidate(mut values: Vec<Value>, candidate: Candidate<'_>) -> Result<Vec<Value>, NoMemory>
    ensures { IfOk result (λ all. map tree all.items ≡ map tree values.items ++ local_values (seen candidate.entry)) }
{
    match array_in(candidate) {
        Some(list) => push_each(&mut values, list)?,
        None => values.push(value_of(candidate)?)?,
    }
    Ok(values)
}

fn push_each(values: &mut Vec<Value>, list: &List) -> Result<(), NoMemory>
    ensures { OnOk result (map tree values.new.items ≡ map tree values.old.items ++ list.now) }
{
    'elements: for element in list.as_slice() {
        values.push(element.try_clone()?)?;
    }
    Ok(())
}

/// The value of a candidate, or null if it is missing.
fn value_of(candidate: Candidate<'_>) -> Result<Value, NoMemory>
    ensures { IfOk result (λ value. tree value ≡ or_null (seen candidate.entry)) }
{
    match candidate {
        Candidate::Found(value) => value.try_clone(),
        Candidate::Missing => Ok(Value::Null),
    }
}
