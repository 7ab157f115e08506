//! The documents that a statement is for.

ghost use Rattle.std.specs.Prelude.{◌≡◌, IfOk};
ghost use Rattle.dv_catalog.specs.Effects.{all_or_first};
ghost use Rattle.dv_catalog.specs.Scan as scans;
ghost use Rattle.dv_pipe.specs.Sources.{rows_referred};

use dv_index::IndexedCollection;
use dv_match::Filter;
use dv_value::{Document, NoMemory};

/// The documents that match the filter, in the order of their `_id`s: all of them, or the first alone. Fails when memory runs
/// out.
pub(crate) fn chosen<'c>(
    collection: &'c IndexedCollection,
    filter: &Filter,
    only_first: bool,
) -> Result<Vec<&'c Document>, NoMemory>
    ensures { IfOk result (λ found. rows_referred found.items ≡ all_or_first only_first (scans.matching filter.now collection.now.documents)) }
{
    if only_first {
        collection.find_first(filter, 1)
    } else {
        collection.find(filter)
    }
}
