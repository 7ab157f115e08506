//! The indexes of a collection.

ghost use Rattle.std.specs.Prelude.{◌≡◌, ◌&&◌, ◌∷◌, ◌++◌, [], true, false, map, not, filter, slice_get, IfOk, IsErrOf, OnErr, OnOk};
ghost use Rattle.std.specs.List.{list_any};
ghost use Rattle.std.specs.Option.{option_copied};
ghost use Rattle.dv_index.specs.Inner.Change.{AreIndexesOf, IsChangeOf, IsFresh, IsTaken, documents_after};
ghost use Rattle.dv_keyed.specs.Index.{id_form};
ghost use Rattle.dv_keyed.specs.Inner.Index.{BeginsWithId, form_of};
ghost use Rattle.dv_index.specs.Indexed.{is_dropped};
ghost use Rattle.dv_index.specs.Inner.Through.{any_leads_through, leads_through};

use crate::change::{Change, carry_out};
use dv_candidates::{Path, PathFault};
use dv_coll::{Collection, InsertFault};
use dv_keyed::{Index, MultiIndex};
use dv_value::{NoMemory, Str};
use std::alloc::{AllocError, Global};
use std::marker::Model;

/// The name of the index that every collection has, which is on `_id`.
const ID_INDEX: &str = "_id_";

/// The indexes of a collection in creation order, the one on `_id` first.
#[derive(Debug, Drop)]
pub struct Indexes {
    indexes: Vec<Index>,
}

impl Model for Indexes {
    ghost use Rattle.std.specs.Prelude.{List};
    ghost use Rattle.std.specs.Coded.{coded_list};
    ghost use Rattle.dv_keyed.specs.Inner.Index.{BeginsWithId, IndexTree, coded_index};

    ghost Value = { List IndexTree };

    ghost coded = { coded_list coded_index };

    ghost view = { λ i. i.indexes.items };

    ghost invariant = { λ i. BeginsWithId i.indexes.items };
}

impl Indexes {
    /// Only the index on `_id`. Fails with `NoMemory` when memory runs out.
    pub fn new(alloc: Global) -> Result<Self, NoMemory>
        ensures { IfOk result (λ indexes. map form_of indexes ≡ id_form ∷ []) }
    {
        let mut indexes = Vec::new(alloc);
        let name = Str::of(String::from_str(alloc, ID_INDEX)?);
        let path = id_path(alloc)?;
        indexes.push(Index::of(name, path, false, MultiIndex::new(alloc)))?;
        Ok(Indexes { indexes })
    }

    /// The index at a place in creation order, counted from 0, if there is one.
    pub(crate) fn get(&self, place: usize) -> Option<&Index>
        ensures index { option_copied result ≡ slice_get self.now place }
        ensures id_first { BeginsWithId self.now }
    {
        self.indexes.as_slice().get(place)
    }

    /// The indexes in creation order.
    pub fn as_slice(&self) -> &[Index]
        ensures indexes { result.now ≡ self.now }
        ensures id_first { BeginsWithId self.now }
    {
        self.indexes.as_slice()
    }

    /// The path of the first one, which is `_id`. Takes no memory.
    pub fn id_path(&self) -> &Path
        ensures { result.now ≡ id_form.path }
    {
        id_path_in(self.indexes.as_slice())
    }

    /// Whether one of them is unique. Takes no memory.
    pub(crate) fn has_unique(&self) -> bool
        ensures { result ≡ list_any (λ x. x.unique) (map form_of self.now) }
    {
        has_unique(self.indexes.as_slice())
    }

    /// Whether the path of one of them, except for the one on `_id`, begins with the name. Takes no memory.
    pub(crate) fn have_path_through(&self, name: &str) -> bool
        ensures { result ≡ any_leads_through name.now (map form_of self.now) }
    {
        match self.indexes.as_slice().split_first() {
            Some((_by_id, others)) => any_begins_with(others, name),
            None => false,
        }
    }

    /// Puts indexes after the others. If memory runs out, nothing changes, and they are dropped.
    pub(crate) fn append(&mut self, mut more: Vec<Index>) -> Result<(), NoMemory>
        ensures ok { OnOk result (self.new ≡ self.old ++ more.items) }
        ensures err { OnErr result (self.new ≡ self.old) }
        ensures id_first { BeginsWithId self.old }
    {
        self.indexes.append(&mut more)
    }

    /// Removes the indexes of a name, but never the one on `_id`, and returns whether there is one. Takes no memory.
    pub(crate) fn remove(&mut self, name: &str) -> bool
        ensures found { result ≡ list_any (is_dropped name.now) (map form_of self.old) }
        ensures indexes { self.new ≡ filter (λ x. not (is_dropped name.now (form_of x))) self.old }
        ensures id_first { BeginsWithId self.old }
    {
        let found = has_dropped(self.indexes.as_slice(), name);
        drop_named(&mut self.indexes, name);
        found
    }

    /// Removes all indexes except the one on `_id`. Takes no memory.
    pub(crate) fn clear(&mut self)
        ensures { map form_of self.new ≡ id_form ∷ [] }
    {
        self.indexes.truncate(1);
    }

    /// Changes one document, and with it the indexes. Refused if the change of the document is refused, and when memory runs out;
    /// then nothing is changed.
    pub(crate) fn change(
        &mut self,
        alloc: Global,
        documents: &mut Collection,
        change: Change<'_>,
    ) -> Result<(), InsertFault>
        requires possible { IsChangeOf change documents.old }
        requires indexed { AreIndexesOf self.old documents.old }
        ensures documents { OnOk result (documents.new ≡ documents_after change.entry documents.old) }
        ensures fresh { OnOk result (IsFresh change.entry documents.old) }
        ensures indexed { OnOk result (AreIndexesOf self.new documents.new) }
        ensures err { OnErr result (documents.new ≡ documents.old) }
        ensures still_indexed { OnErr result (AreIndexesOf self.new documents.old) }
        ensures forms { map form_of self.new ≡ map form_of self.old }
        ensures taken { IsErrOf result InsertFault.Duplicate → IsTaken change.entry documents.old }
    {
        change_behind_first(alloc, self.indexes.as_mut_slice(), documents, change)
    }
}

/// Changes one document, and with it the indexes except the first, which is the one on `_id`.
fn change_behind_first(
    alloc: Global,
    indexes: &mut [Index],
    documents: &mut Collection,
    change: Change<'_>,
) -> Result<(), InsertFault>
    requires possible { IsChangeOf change documents.old }
    requires indexed { AreIndexesOf indexes.old documents.old }
    requires id_first { BeginsWithId indexes.old }
    ensures documents { OnOk result (documents.new ≡ documents_after change.entry documents.old) }
    ensures fresh { OnOk result (IsFresh change.entry documents.old) }
    ensures indexed { OnOk result (AreIndexesOf indexes.new documents.new) }
    ensures err { OnErr result (documents.new ≡ documents.old) }
    ensures still_indexed { OnErr result (AreIndexesOf indexes.new documents.old) }
    ensures forms { map form_of indexes.new ≡ map form_of indexes.old }
    ensures taken { IsErrOf result InsertFault.Duplicate → IsTaken change.entry documents.old }
{
    let Some((_by_id, others)) = indexes.split_first_mut() else {
        unreachable!()
    };
    carry_out(alloc, others, documents, change)
}

/// The path of the first of the indexes, which is the one on `_id`.
fn id_path_in(indexes: &[Index]) -> &Path
    requires { BeginsWithId indexes.now }
    ensures { result.now ≡ id_form.path }
{
    let Some((by_id, _others)) = indexes.split_first() else {
        unreachable!()
    };
    by_id.path()
}

/// The path `_id`. Fails when memory runs out.
#[tactic(auto, unfolding(dv_candidates::specs::Path::path_of))]
fn id_path(alloc: Global) -> Result<Path, NoMemory>
    ensures { IfOk result (λ path. path ≡ id_form.path) }
{
    match Path::parse(alloc, "_id") {
        Ok(path) => Ok(path),
        Err(PathFault::NoMemory) => Err(AllocError),
        Err(_) => unreachable!(),
    }
}

/// Whether dropping a name removes the index.
fn goes(index: &Index, name: &str) -> bool
    ensures { result ≡ is_dropped name.now (form_of index.now) }
{
    index.name() == name && index.name() != ID_INDEX
}

fn has_unique(indexes: &[Index]) -> bool
    ensures { result ≡ list_any (λ x. (form_of x).unique) indexes.now }
{
    indexes.iter().any(|index| index.is_unique())
}

fn any_begins_with(indexes: &[Index], name: &str) -> bool
    ensures { result ≡ list_any (λ x. leads_through name.now (form_of x).path) indexes.now }
{
    indexes.iter().any(|index| begins_with(index.path(), name))
}

/// Whether the name is the path's first component.
fn begins_with(path: &Path, name: &str) -> bool
    ensures { result ≡ leads_through name.now path.now }
{
    match path.components() {
        [first, ..] => first.as_str() == name,
        [] => true,
    }
}

fn has_dropped(indexes: &[Index], name: &str) -> bool
    ensures { result ≡ list_any (λ x. is_dropped name.now (form_of x)) indexes.now }
{
    indexes.iter().any(|index| goes(index, name))
}

fn drop_named(indexes: &mut Vec<Index>, name: &str)
    ensures { indexes.new.items ≡ filter (λ x. not (is_dropped name.now (form_of x))) indexes.old.items }
{
    indexes.retain(|index| !goes(index, name));
}
