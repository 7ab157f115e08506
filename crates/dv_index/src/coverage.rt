//! How many documents a plan covers.

ghost use Rattle.std.specs.Prelude.{◌≡◌, map, IfOk, count_by};
ghost use Rattle.dv_index.specs.Inner.Change.{AreIndexesOf, IsIndexAt};
ghost use Rattle.dv_keyed.specs.Within.{has_within};
ghost use Rattle.dv_index.specs.Search as defined;
ghost use Rattle.dv_keyed.specs.Inner.View.{bounds_seen, plan_seen};

use crate::indexes::Indexes;
use crate::search::candidates;
use dv_candidates::Path;
use dv_coll::Collection;
use dv_keyed::{Bounds, Index, Plan, is_covered};
use dv_value::{Document, NoMemory};
use std::alloc::Global;

/// How many documents a plan covers: those that have a leaf in its bounds, Missing counting as null, and for a scan all. The
/// indexes have the keys of the collection's documents. Fails with `NoMemory` when memory runs out.
pub fn covered(
    alloc: Global,
    plan: &Plan<'_>,
    collection: &Collection,
    indexes: &Indexes,
) -> Result<usize, NoMemory>
    requires { AreIndexesOf indexes.now collection.now }
    ensures { IfOk result (λ count. count ≡ defined.covered (plan_seen plan.now) (map (λ i. i.path) indexes.now) collection.now) }
{
    match *plan {
        Plan::Scan => Ok(collection.len()),
        Plan::Index { place, bounds } => match indexes.get(place) {
            Some(index) => covered_by(alloc, place, index, bounds, collection),
            None => Ok(0),
        },
    }
}

/// How many documents have a leaf in the bounds, under the path of the index.
fn covered_by(
    alloc: Global,
    place: usize,
    index: &Index,
    bounds: Bounds<'_>,
    collection: &Collection,
) -> Result<usize, NoMemory>
    requires { IsIndexAt place index.now collection.now }
    ensures { IfOk result (λ count. count ≡ count_by (has_within (bounds_seen bounds.entry) index.now.path) collection.now) }
{
    let found = candidates(alloc, place, index, bounds, collection)?;
    Ok(count_within(&found, index.path(), bounds))
}

fn count_within(documents: &[&Document], path: &Path, bounds: Bounds<'_>) -> usize
    ensures { result ≡ count_by (λ d. has_within (bounds_seen bounds.entry) path.now d.now) documents.now }
{
    documents
        .iter()
        .filter(|document| is_covered(document, path, bounds))
        .count()
}
