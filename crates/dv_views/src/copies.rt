//! Documents of namespaces, kept so that each change of them can be passed on with the document that was there before.

ghost use Rattle.std.specs.Prelude.{◌≡◌, [], Some, is_some, IfOk, OnErr, OnOk};
ghost use Rattle.std.specs.List.{AllByRecursion};
ghost use Rattle.dv_change.specs.Changes.{with_change};
ghost use Rattle.dv_change.specs.Inner.Changes.{IsPositioned};
ghost use Rattle.dv_change.specs.Inner.Told.{with_old};
ghost use Rattle.dv_pipe.specs.Sources.{lists_of, rows_referred};
ghost use Rattle.dv_views.specs.Inner.Copies.{AreCopies, HaveCopiesRead, HaveCopy, HaveTold, copy_under};
ghost use Rattle.dv_views.specs.Inner.Made.{StillHolds};
ghost use Rattle.dv_views.specs.Inner.Views.{AreInOrder};
ghost use Rattle.dv_views.specs.Placed.{positioned};

use crate::places::position_of;
use crate::told_registry::ToldRegistry;
use dv_change::{Change, Pos, Taken, take_in};
use dv_pipe::Sources;
use dv_value::{Document, NoMemory, Str};
use indexmap::IndexMap;
use std::alloc::Global;
use std::collections::BTreeMap;
use std::marker::Model;

/// The documents of some namespaces, at their positions. They share their memory with the documents that they are copies of.
#[derive(Debug, Drop)]
pub(crate) struct Copies {
    lists: IndexMap<String, BTreeMap<Pos, Document>>,
}

impl Model for Copies {
    ghost use Rattle.dv_views.specs.Inner.CopiesCode.{coded_copies};
    ghost use Rattle.dv_views.specs.Inner.Copies.{ArePositionedCopies, NamedCopies, copies_seen};

    ghost Value = { NamedCopies };

    ghost coded = { coded_copies };

    ghost view = { λ c. copies_seen c.lists.entries };

    ghost invariant = { λ c. ArePositionedCopies (copies_seen c.lists.entries) };
}

impl Copies {
    /// Of no namespace. Memory for copies will be allocated by `alloc`.
    pub(crate) fn new(alloc: Global) -> Self
        ensures { result ≡ [] }
    {
        Copies {
            lists: IndexMap::new(alloc),
        }
    }

    /// Whether the documents of the namespace are kept.
    fn has(&self, namespace: &str) -> bool
        ensures { result ≡ is_some (copy_under namespace.now self.now) }
    {
        self.lists.contains_key(namespace)
    }

    /// Takes in a change of the namespace, and returns it with the document that was there before. None if nothing is kept of the
    /// namespace, or if memory runs out for the change; then nothing is kept of the namespace any more.
    pub(crate) fn take(&mut self, namespace: &str, change: &Change) -> Option<Taken>
        ensures { HaveTold namespace.now change.now self.old self.new result }
    {
        let rows = self.lists.get_mut(namespace)?;
        match taken_in(rows, change) {
            Ok(taken) => Some(taken),
            Err(_) => {
                self.lists.swap_remove(namespace);
                None
            }
        }
    }

    /// Keeps the documents under these names that are no views, unless they are kept already. Fails when memory runs out; then
    /// some of them may be kept.
    pub(crate) fn keep_all(
        &mut self,
        alloc: Global,
        names: &[Str],
        views: &ToldRegistry,
        sources: &Sources<'_>,
    ) -> Result<(), NoMemory>
        requires { AllByRecursion (λ n. AreInOrder (lists_of sources.now n)) names.now }
        ensures { StillHolds AreCopies names.now (lists_of sources.now) self.old self.new }
    {
        'names: for name in names {
            if !self.has(name.as_str()) && !views.has(name.as_str()) {
                self.keep(alloc, name.as_str(), sources.get(name.as_str()))?;
            }
        }
        Ok(())
    }

    /// Keeps the documents of a namespace. Fails when memory runs out; then nothing is changed.
    fn keep(
        &mut self,
        alloc: Global,
        namespace: &str,
        documents: &[&Document],
    ) -> Result<(), NoMemory>
        requires { AreInOrder (rows_referred documents.now) }
        ensures ok { OnOk result (HaveCopy namespace.now (Some (positioned (rows_referred documents.now))) self.old self.new) }
        ensures err { OnErr result (self.new ≡ self.old) }
    {
        let copy = copy_of(alloc, documents)?;
        self.lists
            .insert(String::from_str(alloc, namespace)?, copy)?;
        Ok(())
    }

    /// Drops the documents of namespaces that no view reads. Takes no memory.
    pub(crate) fn keep_read(&mut self, views: &ToldRegistry)
        ensures { HaveCopiesRead views.now self.old self.new }
    {
        self.lists.retain(|name, _| views.is_read(name.as_str()));
    }
}

/// Takes in a change, and returns it with the document that was there before. Fails when memory runs out.
fn taken_in(rows: &mut BTreeMap<Pos, Document>, change: &Change) -> Result<Taken, NoMemory>
    requires { IsPositioned rows.old.entries }
    ensures told { IfOk result (λ taken. taken ≡ with_old rows.old.entries change.now) }
    ensures rows { OnOk result (rows.new.entries ≡ with_change rows.old.entries change.now) }
    ensures positioned { OnOk result (IsPositioned rows.new.entries) }
{
    take_in(rows, change.try_clone()?)
}

/// The documents, which are in the order of their `_id`s, at their positions. Fails when memory runs out.
fn copy_of(alloc: Global, documents: &[&Document]) -> Result<BTreeMap<Pos, Document>, NoMemory>
    requires { AreInOrder (rows_referred documents.now) }
    ensures { IfOk result (λ copy. copy.entries ≡ positioned (rows_referred documents.now)) }
{
    let mut copy = BTreeMap::new(alloc);
    'documents: for document in documents {
        copy.insert(position_of(alloc, document)?, document.try_clone()?)?;
    }
    Ok(copy)
}
