//! Pipelines whose first stages are a find.

ghost use Rattle.std.specs.Prelude.{◌≡◌, List, IfOk};
ghost use Rattle.std.specs.Option.{option_map};
ghost use Rattle.dv_catalog.specs.Inner.CatalogParts.{lists_kept};
ghost use Rattle.dv_catalog.specs.Inner.Fronts.{IsFront, matching_where, passed, sorted_where, wanted as wanted_by};
ghost use Rattle.dv_catalog.specs.Scan.{matching};
ghost use Rattle.dv_match.specs.Filter.{no_members};
ghost use Rattle.dv_pipe.specs.Sources.{Row};
ghost use Rattle.dv_pipe.specs.Stages.{through};
ghost use Rattle.dv_catalog.specs.State.{lists_of};
ghost use Rattle.dv_sort.specs.Sorting.{front};
ghost use Rattle.dv_views.specs.Inner.Views.{AreRight};

use crate::behind::rows_behind;
use crate::collections::Collections;
use crate::scan::in_sort;
use crate::standing::{first_found, searched_in};
use dv_match::Filter;
use dv_path::SortSpec;
use dv_pipe::{Stage, references};
use dv_value::{Document, NoMemory};
use dv_views::ToldRegistry;
use std::alloc::Global;

/// The first stages of a pipeline, if they are a find: a `$match`, a `$sort` and a `$limit`, in this order. Any of the three may be
/// missing.
#[derive(Drop)]
struct LeadingFind<'a> {
    filter: Option<&'a Filter>,
    sort: Option<&'a SortSpec>,
    /// How many rows the `$limit` leaves. If there is none, how many the later stages need, unless they need all.
    most: Option<usize>,
    /// The stages after them.
    later: &'a [Stage],
}

impl<'a> LeadingFind<'a> {
    /// The find that these stages begin with.
    fn of(stages: &'a [Stage]) -> Self
        ensures { IsFront (passed (option_map (λ f. f.now) result.filter) (option_map (λ s. s.now) result.sort) result.most) result.later.now stages.now }
    {
        let (filter, stages) = first_match(stages);
        let (sort, stages) = first_sort(stages);
        let (most, later) = first_limit(stages);
        LeadingFind {
            filter,
            sort,
            most,
            later,
        }
    }
}

/// The filter of the first stage, if that is a `$match`, and the stages after it.
fn first_match(stages: &[Stage]) -> (Option<&Filter>, &[Stage])
    ensures { IsFront (matching_where (option_map (λ f. f.now) result.0)) result.1.now stages.now }
{
    match stages.split_first() {
        Some((Stage::Match(filter), later)) => (Some(filter), later),
        _ => (None, stages),
    }
}

/// The order of the first stage, if that is a `$sort`, and the stages after it.
fn first_sort(stages: &[Stage]) -> (Option<&SortSpec>, &[Stage])
    ensures { IsFront (sorted_where (option_map (λ s. s.now) result.0)) result.1.now stages.now }
{
    match stages.split_first() {
        Some((Stage::Sort(spec), later)) => (Some(spec), later),
        _ => (None, stages),
    }
}

/// How many rows the first stage leaves, if that is a `$limit`, and the stages after it. If another stage is the first, how many
/// rows the stages need.
fn first_limit(stages: &[Stage]) -> (Option<usize>, &[Stage])
    ensures { IsFront (front result.0) result.1.now stages.now }
{
    if let Some((Stage::Limit(count), later)) = stages.split_first() {
        return (Some(*count as usize), later);
    }
    (wanted(stages), stages)
}

/// How many of the first rows the stages need, unless they need all: as many as a `$limit` takes, if each stage before it returns
/// one row for each.
fn wanted(stages: &[Stage]) -> Option<usize>
    ensures { result ≡ wanted_by stages.now }
{
    'stages: for stage in stages {
        match stage {
            Stage::Limit(count) => return Some(*count as usize),
            Stage::Project(_) | Stage::Lookup(_) => {}
            _ => return None,
        }
    }
    None
}

/// The filter, or if there is none, the one that all documents match.
fn filter_or<'a>(filter: Option<&'a Filter>, everything: &'a Filter) -> &'a Filter
    requires { everything.now ≡ no_members }
    ensures { (rows : List Row) → matching result.now rows ≡ matching_where (option_map (λ f. f.now) filter.entry) rows }
{
    match filter {
        Some(filter) => filter,
        None => everything,
    }
}

/// The rows of stages over the rows under their source. The rows of the first stages that are a find are found like a find's rows,
/// by the indexes of a collection. Fails when memory runs out.
pub(crate) fn rows_of_stages(
    alloc: Global,
    collections: &Collections,
    registry: &ToldRegistry,
    stages: &[Stage],
    source: &str,
) -> Result<Vec<Document>, NoMemory>
    requires { AreRight (lists_of collections.now) registry.now }
    ensures { let kept = lists_kept collections.now registry.now in IfOk result (λ rows. rows.items ≡ through stages.now source.now kept (kept source.now)) }
{
    let everything = Filter::of(Vec::new(alloc));
    let front = LeadingFind::of(stages);
    let filter = filter_or(front.filter, &everything);
    let within = searched_in(collections, registry, source);
    match front.sort {
        Some(sort) => {
            let rows = in_sort(alloc, within, filter, sort, front.most)?;
            let lent = references(alloc, &rows)?;
            rows_behind(alloc, collections, registry, front.later, source, &lent)
        }
        None => {
            let rows = first_found(alloc, within, filter, front.most)?;
            rows_behind(alloc, collections, registry, front.later, source, &rows)
        }
    }
}
