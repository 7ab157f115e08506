//! Indexes that are still to be made.

ghost use Rattle.std.specs.Prelude.{◌≡◌, ◌∷◌, ◌++◌, [], true, map, IfOk, OnOk};
ghost use Rattle.std.specs.List.{list_any};
ghost use Rattle.std.specs.String.{string_bytes};
ghost use Rattle.dv_keyed.specs.Inner.View.{form_of_new};
ghost use Rattle.dv_catalog.specs.Inner.ComingParts.{joined};
ghost use Rattle.dv_catalog.specs.IndexMaking as making;

use crate::indexing::{is_alike, is_same};
use dv_candidates::Path;
use dv_index::NewIndex;
use dv_value::NoMemory;
use std::alloc::Global;
use std::collections::{BTreeMap, BTreeSet};
use std::marker::Model;

/// Indexes in the order in which they are to be made. An index is searched for by its name, and by the text of its path, in time
/// logarithmic in their number; all of them are searched only if one has the name or the path.
#[derive(Debug, Drop)]
pub(crate) struct PendingIndexes {
    alloc: Global,
    indexes: Vec<NewIndex>,
    names: BTreeMap<String, usize>,
    paths: BTreeSet<String>,
}

impl Model for PendingIndexes {
    ghost use Rattle.std.specs.Prelude.{List, map};
    ghost use Rattle.std.specs.Coded.{coded_list};
    ghost use Rattle.dv_keyed.specs.Index.{IndexForm};
    ghost use Rattle.dv_keyed.specs.Inner.Index.{coded_form};
    ghost use Rattle.dv_keyed.specs.Inner.View.{form_of_new};
    ghost use Rattle.dv_catalog.specs.Inner.ComingParts.{AreFound};

    ghost Value = { List IndexForm };

    ghost coded = { coded_list coded_form };

    ghost view = { λ c. map form_of_new c.indexes.items };

    ghost invariant = { λ c. AreFound c.names c.paths (map form_of_new c.indexes.items) };
}

impl PendingIndexes {
    /// No indexes.
    pub(crate) fn new(alloc: Global) -> Self
        ensures { result ≡ [] }
    {
        PendingIndexes {
            alloc,
            indexes: Vec::new(alloc),
            names: BTreeMap::new(alloc),
            paths: BTreeSet::new(alloc),
        }
    }

    /// Whether a pending index is the same as this one.
    pub(crate) fn has(&self, index: &NewIndex) -> bool
        ensures { result ≡ list_any (making.is_same (form_of_new index.now)) self.now }
    {
        match self.names.get(index.name.as_str()) {
            None => false,
            // If the pending index of its name isn't the same, this index is refused, and no other one is looked up.
            Some(place) => is_at(index, &self.indexes, *place) || is_among(index, &self.indexes),
        }
    }

    /// Whether a pending index has the name or the path of this one.
    pub(crate) fn has_half(&self, index: &NewIndex, path: &str) -> bool
        requires { path.now ≡ joined (form_of_new index.now).path }
        ensures { result ≡ list_any (making.is_alike (form_of_new index.now)) self.now }
    {
        if !self.names.contains_key(index.name.as_str()) && !self.paths.contains(path) {
            return false;
        }
        is_half_among(index, &self.indexes)
    }

    /// Adds an index. Fails when memory runs out.
    pub(crate) fn add(&mut self, index: NewIndex, path: String) -> Result<(), NoMemory>
        requires { string_bytes path ≡ joined (form_of_new index).path }
        ensures { OnOk result (self.new ≡ self.old ++ form_of_new index ∷ []) }
    {
        let name = String::from_str(self.alloc, index.name.as_str())?;
        let _ = self.names.insert(name, self.indexes.len())?;
        let _ = self.paths.insert(path)?;
        self.indexes.push(index)?;
        Ok(())
    }

    /// The indexes in order. Takes no memory.
    pub(crate) fn into_inner(self) -> Vec<NewIndex>
        ensures { map form_of_new result.items ≡ self }
    {
        let PendingIndexes { indexes, .. } = self;
        indexes
    }
}

/// Whether there is an index at a place that is the same as this one.
fn is_at(index: &NewIndex, others: &[NewIndex], place: usize) -> bool
    ensures { result ≡ true → list_any (λ x. making.is_same (form_of_new index.now) (form_of_new x)) others.now ≡ true }
{
    match others.get(place) {
        Some(there) => is_same(index, there.name.as_str(), &there.path, there.unique),
        None => false,
    }
}

/// Whether one of the indexes is the same as this one.
fn is_among(index: &NewIndex, others: &[NewIndex]) -> bool
    ensures { result ≡ list_any (λ x. making.is_same (form_of_new index.now) (form_of_new x)) others.now }
{
    others.iter().any(|there| is_same(index, there.name.as_str(), &there.path, there.unique))
}

/// Whether one of the indexes has the name or the path of this one.
fn is_half_among(index: &NewIndex, others: &[NewIndex]) -> bool
    ensures { result ≡ list_any (λ x. making.is_alike (form_of_new index.now) (form_of_new x)) others.now }
{
    others
        .iter()
        .any(|there| is_alike(index, there.name.as_str(), &there.path))
}

/// The components of a path, each after a dot. Fails when memory runs out.
pub(crate) fn text_of(alloc: Global, path: &Path) -> Result<String, NoMemory>
    ensures { IfOk result (λ text. string_bytes text ≡ joined path.now) }
{
    let mut text = String::new(alloc);
    'components: for component in path.components() {
        text.push('.')?;
        text.push_str(component.as_str())?;
    }
    Ok(text)
}
