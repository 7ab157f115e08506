//! Edits in the order of their paths.

ghost use Rattle.std.specs.Prelude.{◌≡◌, ◌⊎◌, true, false, map, IsTrue, refl, IfOk, IfErr, OnOk, MatchResult, if◌then◌else◌, Ok, Err};
ghost use Rattle.std.specs.BTreeMap.{IsOrdered};
ghost use Rattle.std.specs.Cmp.{eq_by_cmp_equiv, partial_equiv_from_equiv, partial_order_from_total};
ghost use Rattle.std.specs.List.{list_any};
ghost use Rattle.std.specs.Ordering.{as_partial_cmp, eq_by_cmp};
ghost use Rattle.std.specs.declared.cmp.Ordering.TheVariants.{Less};
ghost use Rattle.dv_value.specs.Results.{Gives};
ghost use Rattle.dv_update.specs.declared.fault.UpdateFault.TheVariants.{NoMemory as no_memory};
ghost use Rattle.dv_update.specs.Parsing as defined;
ghost use Rattle.dv_update.specs.PathOrder.{begins as begins_with, component_order, path_order};
ghost use Rattle.dv_update.specs.Inner.Collected.{ConflictAlike, IsConflictOf, Steps, last_begins};
ghost use Rattle.dv_update.specs.Inner.PathOrderLaws.{path_order_total};
ghost use Rattle.dv_update.specs.Update.{operators};
ghost use Rattle.dv_update.specs.View.{edit, edit as seen, entry};
ghost use Rattle.dv_update.specs.declared.fault.UpdateFault.TheVariants.{Conflict, NoMemory};

use crate::fault::UpdateFault;
use crate::form::{Edit, Edits, Operation};
use dv_candidates::{Component, Path};
use std::alloc::Global;
use std::cmp::Ordering;
use std::collections::BTreeMap;
use std::marker::Model;

/// A path as a key, in the order in which an update's paths are applied.
#[derive(Debug, Drop)]
pub(crate) struct PathKey {
    path: Path,
}

impl Model for PathKey {
    ghost use Rattle.std.specs.Prelude.{List, ℕ};

    ghost Value = { List (List ℕ) };

    ghost view = { λ k. k.path };
}

impl PathKey {
    fn of(path: Path) -> Self
        ensures { result ≡ path }
    {
        PathKey { path }
    }

    fn into_path(self) -> Path
        ensures { result ≡ self }
    {
        let PathKey { path } = self;
        path
    }
}

impl PartialEq for PathKey {
    ghost eq = { eq_by_cmp path_order };

    ghost laws = { partial_equiv_from_equiv (eq_by_cmp_equiv path_order_total) };

    fn eq(&self, other: &PathKey) -> bool {
        self.cmp(other).is_eq()
    }
}

impl Eq for PathKey {
    ghost laws = { eq_by_cmp_equiv path_order_total };
}

impl PartialOrd for PathKey {
    ghost partial_cmp = { as_partial_cmp path_order };

    ghost laws = { partial_order_from_total path_order_total };

    fn partial_cmp(&self, other: &PathKey) -> Option<Ordering> {
        Some(self.cmp(other))
    }
}

impl Ord for PathKey {
    ghost cmp = { path_order };

    ghost total = { path_order_total };

    ghost matches_partial_cmp = { λ x y. refl };

    ghost matches_eq = { λ x y. refl };

    fn cmp(&self, other: &PathKey) -> Ordering {
        compare_paths(self.path.components(), other.path.components())
    }
}

/// The order of two components: whole numbers before names, and by number; names by their bytes.
pub(crate) fn compare_components(a: &Component, b: &Component) -> Ordering
    ensures { result ≡ component_order a.now b.now }
{
    match (a.index(), b.index()) {
        (Some(m), Some(n)) => m.cmp(&n).then(a.as_str().cmp(b.as_str())),
        (Some(_), None) => Ordering::Less,
        (None, Some(_)) => Ordering::Greater,
        (None, None) => a.as_str().cmp(b.as_str()),
    }
}

/// The order of two paths: the first two components that differ decide; if there are none, the shorter path comes first.
fn compare_paths(a: &[Component], b: &[Component]) -> Ordering
    ensures { result ≡ path_order a.now b.now }
{
    'components: for (x, y) in a.iter().zip(b) {
        let unequal = compare_components(x, y);
        if unequal.is_ne() {
            return unequal;
        }
    }
    a.len().cmp(&b.len())
}

/// Whether the path `a` begins the path `b`, or equals it.
pub(crate) fn begins(a: &Path, b: &Path) -> bool
    ensures { result ≡ begins_with a.now b.now }
{
    is_beginning(a.components(), b.components())
}

/// The same for the components of two paths.
pub(crate) fn is_beginning(xs: &[Component], ys: &[Component]) -> bool
    ensures { result ≡ begins_with xs.now ys.now }
{
    'components: for (x, y) in xs.iter().zip(ys) {
        if x.as_str() != y.as_str() {
            return false;
        }
    }
    xs.len() <= ys.len()
}

/// Whether the edits are in the order of their paths, and no path begins another one.
pub(crate) fn are_apart(edits: &[Edit]) -> bool
    ensures apart { IsTrue result → (defined.has_conflict (map edit edits.now) ≡ false) }
    ensures steps { IsTrue result → Steps (map edit edits.now) }
{
    let mut left = edits;
    'edits: while let Some((first, behind)) = left.split_first() {
        if let Some(next) = behind.first() {
            if !parts_from(&first.path, &next.path) {
                return false;
            }
        }
        left = behind;
    }
    true
}

/// Whether the path `a` comes before the path `b`, and doesn't begin it.
fn parts_from(a: &Path, b: &Path) -> bool
    ensures { IsTrue result → (path_order a.now b.now ≡ Less) × (begins_with a.now b.now ≡ false) }
{
    compare_paths(a.components(), b.components()).is_lt() && !begins(a, b)
}

/// The edits in the order of their paths. Refused with `Conflict` if one path begins or equals another, and with `NoMemory` when
/// memory runs out. Takes time n log n: in this order, a path that begins others comes right before the first of them. Edits that
/// are in order already are returned unchanged.
pub(crate) fn in_order(alloc: Global, edits: Vec<Edit>) -> Result<Edits, UpdateFault>
    ensures { Gives no_memory operators result (defined.in_order (map edit edits.items)) }
{
    if are_apart(&edits) {
        return Ok(Edits::of(edits));
    }
    let places = by_path(alloc, edits)?;
    listed(alloc, places)
}

/// The operations under their paths. Refused with `Conflict` if two paths are equal.
fn by_path(alloc: Global, edits: Vec<Edit>) -> Result<BTreeMap<PathKey, Operation>, UpdateFault>
    ensures sorted { IfOk result (λ places. map entry places.entries ≡ defined.sorted (map edit edits.items)) }
    ensures ordered { IfOk result (IsOrdered path_order) }
    ensures conflicts { MatchResult result (λ places. ConflictAlike (map edit edits.items) (map entry places.entries)) (IsConflictOf (map edit edits.items)) }
{
    let mut edits = edits;
    let mut places = BTreeMap::new(alloc);
    'edits: while let Some(edit) = edits.pop() {
        place(&mut places, edit)?;
    }
    Ok(places)
}

/// Puts an operation under its path. Refused with `Conflict` if the path has one already.
fn place(places: &mut BTreeMap<PathKey, Operation>, edit: Edit) -> Result<(), UpdateFault>
    ensures placed { OnOk result (map entry places.new.entries ≡ defined.placed (seen edit) (map entry places.old.entries)) }
    ensures ordered { OnOk result (IsOrdered path_order places.new) }
    ensures err { IfErr result (λ e. (e ≡ NoMemory) ⊎ ((e ≡ Conflict) × (list_any (defined.conflicts (seen edit)) (map entry places.old.entries) ≡ true))) }
{
    let Edit { path, operation } = edit;
    if places.insert(PathKey::of(path), operation)?.is_some() {
        return Err(UpdateFault::Conflict);
    }
    Ok(())
}

/// The edits of such a map. Refused with `Conflict` if one path begins another.
fn listed(alloc: Global, places: BTreeMap<PathKey, Operation>) -> Result<Edits, UpdateFault>
    requires { IsOrdered path_order places }
    ensures { Gives no_memory (λ edits. edits) result (if defined.has_conflict (map entry places.entries) then Err Conflict else Ok (map entry places.entries)) }
{
    let mut places = places;
    let mut edits = Vec::new(alloc);
    'edits: while let Some((key, operation)) = places.pop_first() {
        let path = key.into_path();
        if follows_its_beginning(&edits, &path) {
            return Err(UpdateFault::Conflict);
        }
        edits.push(Edit { path, operation })?;
    }
    Ok(Edits::of(edits))
}

/// Whether the last edit's path begins this one.
fn follows_its_beginning(edits: &[Edit], path: &Path) -> bool
    ensures { result ≡ last_begins path.now (map edit edits.now) }
{
    match edits.last() {
        Some(last) => begins(&last.path, path),
        None => false,
    }
}
