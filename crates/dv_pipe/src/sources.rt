//! The lists that pipelines read.

ghost use Rattle.std.specs.Prelude.{◌≡◌, ◌++◌, ◌∷◌, [], OnOk, OnErr};
ghost use Rattle.dv_pipe.specs.Sources.{rows_under, rows_referred};
ghost use Rattle.dv_pipe.specs.Stages as stages;

use crate::namespace::is_beside;
use dv_value::{Document, NoMemory, Str};
use std::alloc::Global;
use std::marker::Model;

/// A namespace and its documents.
#[derive(Debug, Drop)]
struct NamedList<'a> {
    namespace: Str,
    documents: Vec<&'a Document>,
}

/// Namespaces, each with its documents, in the order in which they were added.
#[derive(Debug, Drop)]
pub struct Sources<'a> {
    sources: Vec<NamedList<'a>>,
    none: Vec<&'a Document>,
}

impl<'a> Model for Sources<'a> {
    ghost use Rattle.std.specs.Prelude.{List, map};
    ghost use Rattle.std.specs.Coded.{coded_list, coded×, coded_ℕ};
    ghost use Rattle.dv_value.specs.Inner.TreeCode.{coded_tree};
    ghost use Rattle.dv_pipe.specs.Sources as defined;

    ghost Value = { List defined.Source };

    ghost coded = { coded_list (coded× (coded_list coded_ℕ) (coded_list (coded_list (coded× (coded_list coded_ℕ) coded_tree)))) };

    ghost view = { λ s. map (λ (source : _). (source.namespace, defined.rows_referred source.documents.items)) s.sources.items };

    ghost use Rattle.std.specs.Prelude.{◌≡◌, []};

    ghost invariant = { λ s. s.none.items ≡ [] };
}

impl<'a> Sources<'a> {
    /// No namespaces. Their list will be allocated by `alloc`.
    pub fn new(alloc: Global) -> Self
        ensures { result ≡ [] }
    {
        Sources {
            sources: Vec::new(alloc),
            none: Vec::new(alloc),
        }
    }

    /// Adds a namespace with its documents after the others. Fails with `NoMemory` when memory runs out; then nothing is changed.
    pub fn add(&mut self, namespace: &str, documents: Vec<&'a Document>) -> Result<(), NoMemory>
        ensures ok { OnOk result (self.new ≡ self.old ++ (namespace.now, rows_referred documents.entry.items) ∷ []) }
        ensures err { OnErr result (self.new ≡ self.old) }
    {
        let alloc = *self.sources.allocator();
        let namespace = Str::of(String::from_str(alloc, namespace)?);
        self.sources.push(NamedList {
            namespace,
            documents,
        })?;
        Ok(())
    }

    /// The documents of the namespace: those that were added first under this name, and none if it isn't there. Takes no memory.
    pub fn get(&self, namespace: &str) -> &[&'a Document]
        ensures { rows_referred result.now ≡ rows_under namespace.now self.now }
    {
        'sources: for source in &self.sources {
            if source.namespace.as_str() == namespace {
                return source.documents.as_slice();
            }
        }
        self.none.as_slice()
    }

    /// The documents of the collection in the database of `source`: those that were added first under its namespace, and
    /// none if it isn't there. Takes no memory.
    pub(crate) fn beside(&self, source: &str, collection: &str) -> &[&'a Document]
        ensures { rows_referred result.now ≡ rows_under (stages.beside source.now collection.now) self.now }
    {
        'sources: for other in &self.sources {
            if is_beside(source, collection, other.namespace.as_str()) {
                return other.documents.as_slice();
            }
        }
        self.none.as_slice()
    }
}
