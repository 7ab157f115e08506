//! Conflicts among paths.

ghost use Rattle.std.specs.Prelude.{◌≡◌};
ghost use Rattle.dv_row.specs.Inner.Conflicts as defined;
ghost use Rattle.dv_row.specs.ProjectParsing.{one_begins as seen_begins};
ghost use Rattle.dv_row.specs.Inner.Ways.{Ascend};

use crate::ways::sort;
use dv_candidates::{Component, Path};

/// Whether one of the paths begins another one, or equals it. Costs comparisons of n log n for n paths: in order, a path
/// that begins others begins the next one.
pub(crate) fn has_conflict(paths: Vec<Path>) -> bool
    ensures { result ≡ defined.paths_conflict paths.items }
{
    let mut ascending = paths;
    sort(&mut ascending);
    neighbours_conflict(&ascending)
}

/// Whether one of the paths, which are in order, begins the next one, or equals it.
fn neighbours_conflict(paths: &[Path]) -> bool
    requires { Ascend 0 paths.now }
    ensures { result ≡ defined.paths_conflict paths.now }
{
    'paths: for later in 1..paths.len() {
        if one_begins(paths[later - 1].components(), paths[later].components()) {
            return true;
        }
    }
    false
}

/// Whether one path begins the other: as far as both go they are the same.
pub(crate) fn one_begins(path: &[Component], other: &[Component]) -> bool
    ensures { result ≡ seen_begins path.now other.now }
{
    path.iter()
        .zip(other)
        .all(|(a, b)| a.as_str() == b.as_str())
}
