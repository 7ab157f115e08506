//! Ways: where paths lead after some of their components.

ghost use Rattle.std.specs.Prelude.{◌≡◌, ◌==◌, ◌&&◌, not, drop, length};
ghost use Rattle.std.specs.List.{list_any};
ghost use Rattle.std.specs.List.Sorted.{IsPermutation};
ghost use Rattle.std.specs.Ordering.{is_lt, is_le};
ghost use Rattle.dv_row.specs.Projecting as defined;
ghost use Rattle.dv_row.specs.Inner.Ways.{Ascend, way_beside as seen_beside, name_order, way_order};

use dv_candidates::{Component, Path};
use std::cmp::Ordering;
use std::marker::Model;

/// Where paths lead after their first `depth` components. The ways are in order, so those that lead through one name are
/// neighbours.
#[derive(Debug, Drop)]
pub(crate) struct Ways<'a> {
    paths: &'a [Path],
    depth: usize,
}

impl<'a> Model for Ways<'a> {
    ghost use Rattle.std.specs.Prelude.{List, ℕ, map, drop};
    ghost use Rattle.dv_row.specs.Inner.Ways.{Ascend};

    ghost Value = { List (List (List ℕ)) };

    ghost view = { λ w. map (drop w.depth) w.paths.now };

    ghost invariant = { λ w. Ascend w.depth w.paths.now };
}

impl<'a> Ways<'a> {
    /// The ways of paths that are in order.
    pub(crate) fn of(paths: &'a [Path]) -> Self
        requires { Ascend 0 paths.now }
        ensures { result ≡ paths.now }
    {
        Ways { paths, depth: 0 }
    }

    /// Whether there is none.
    pub(crate) fn is_empty(&self) -> bool
        ensures { result ≡ (length self.now == 0) }
    {
        self.paths.is_empty()
    }

    /// The same ways.
    pub(crate) fn same(&self) -> Ways<'a>
        ensures { result ≡ self.now }
    {
        Ways {
            paths: self.paths,
            depth: self.depth,
        }
    }

    /// Whether a way ends. A way that ends comes first.
    pub(crate) fn any_ends(&self) -> bool
        ensures { result ≡ list_any defined.ends self.now }
    {
        match self.paths.first() {
            Some(path) => path.components().len() <= self.depth,
            None => false,
        }
    }

    /// Whether there is one, and none ends.
    pub(crate) fn lead_on(&self) -> bool
        ensures { result ≡ (not (length self.now == 0) && not (list_any defined.ends self.now)) }
    {
        !self.is_empty() && !self.any_ends()
    }

    /// What is left of the ways that lead through a field of the name. Costs comparisons logarithmic in the number of ways.
    pub(crate) fn behind(&self, name: &str) -> Ways<'a>
        ensures { result ≡ defined.paths_behind name.now self.now }
    {
        let depth = self.depth;
        let from = self.paths.partition_point(
            |path: &Path| -> bool
                ensures { result ≡ is_lt (seen_beside name.entry.now (drop depth path.now)) }
            { beside(path, depth, name).is_lt() },
        );
        let others = &self.paths[from..];
        let count = others.partition_point(
            |path: &Path| -> bool
                ensures { result ≡ is_le (seen_beside name.entry.now (drop depth path.now)) }
            { beside(path, depth, name).is_le() },
        );
        let paths = &others[..count];
        match paths.first() {
            Some(path) if depth < path.components().len() => Ways {
                paths,
                depth: depth + 1,
            },
            _ => Ways {
                paths: &[],
                depth: 0,
            },
        }
    }
}

/// How the path's component after its first `depth` ones compares with the name. A path without one comes before each name.
fn beside(path: &Path, depth: usize, name: &str) -> Ordering
    ensures { result ≡ seen_beside name.now (drop depth path.now) }
{
    match path.components().get(depth) {
        Some(component) => component.as_str().cmp(name),
        None => Ordering::Less,
    }
}

/// Puts the paths in order. Costs comparisons of n log n for n paths, and takes no memory.
pub(crate) fn sort(paths: &mut Vec<Path>)
    ensures permutation { IsPermutation paths.old.items paths.new.items }
    ensures order { Ascend 0 paths.new.items }
{
    paths.sort_unstable_by(|first, second| compare(first.components(), second.components()));
}

/// The order of two paths: the first two components that differ decide by their bytes; otherwise the shorter path comes
/// first.
fn compare(a: &[Component], b: &[Component]) -> Ordering
    ensures { result ≡ way_order a.now b.now }
{
    'components: for (x, y) in a.iter().zip(b) {
        let unequal = compare_names(x, y);
        if unequal.is_ne() {
            return unequal;
        }
    }
    a.len().cmp(&b.len())
}

/// The order of two names by their bytes.
fn compare_names(a: &Component, b: &Component) -> Ordering
    ensures { result ≡ name_order a.now b.now }
{
    a.as_str().cmp(b.as_str())
}
