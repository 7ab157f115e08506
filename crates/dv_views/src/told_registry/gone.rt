//! Documents that are removed, passed to the views one after the other.

ghost use Rattle.std.specs.Prelude.{◌≡◌, ◌∷◌, [], map, None, Some, IfOk};
ghost use Rattle.std.specs.List.{AllByRecursion};
ghost use Rattle.dv_coll.specs.Collection.{HasId};
ghost use Rattle.dv_views.specs.Inner.Changed.{gone_each, gones_of};
ghost use Rattle.dv_views.specs.Inner.Applied.{CountsWork, StaysRight};
ghost use Rattle.dv_views.specs.Placed.{own_position};
ghost use Rattle.dv_views.specs.Inner.Seen.{IsSoundRegistry};
ghost use Rattle.dv_views.specs.Inner.Turned.{HaveLost, HaveTaken, known_at};
ghost use Rattle.dv_views.specs.Inner.Views.{view_form};

use crate::handing::lose_each;
use crate::laws;
use crate::places::document_gone;
use crate::told_registry::ToldRegistry;
use dv_change::Taken;
use dv_coll::{Iter, key_of_id};
use dv_value::{Document, NoMemory};
use std::alloc::Global;
use std::slice::from_ref;

impl ToldRegistry {
    /// Passes to the views, as `apply` does, the removals of these documents of the namespace, one after the other. These changes
    /// are never in memory together. If memory runs out for one of them, each view that it reaches becomes stale.
    pub fn apply_gone(&mut self, namespace: &str, documents: Iter<'_>)
        requires { AllByRecursion HasId documents }
        ensures forms { map view_form self.new ≡ map view_form self.old }
        ensures right { StaysRight namespace.now (gone_each documents.entry) (gones_of documents.entry) self.old self.new }
        ensures counted { CountsWork namespace.now (gone_each documents.entry) (gones_of documents.entry) self.old self.new }
    {
        laws::kept_rows_are_those_from_scratch();
        laws::what_is_not_read_does_not_matter();
        dv_pipe::laws::what_is_not_read_does_not_matter();
        dv_order::laws::equal_keys_are_one();
        if !self.is_read(namespace) {
            return;
        }
        'documents: for document in documents {
            self.take_gone(namespace, document);
        }
    }

    /// Passes the removal of a document to the views, in creation order. If memory runs out for this change, each view that it
    /// reaches becomes stale.
    fn take_gone(&mut self, namespace: &str, document: &Document)
        requires { HasId document.now }
        ensures taken { HaveTaken (known_at namespace.now (gones_of (document.now ∷ []))) self.old self.new }
        ensures sound { IsSoundRegistry self.new }
    {
        match gone_of(self.alloc, document) {
            Ok(taken) => self.take(namespace, from_ref(&taken)),
            Err(_) => self.lose(namespace),
        }
    }

    /// Passes a change for which memory ran out to the views: each view that it reaches becomes stale.
    pub(crate) fn lose(&mut self, namespace: &str)
        ensures taken { HaveLost namespace.now self.old self.new }
        ensures sound { IsSoundRegistry self.new }
    {
        let places = self.readers.under(namespace);
        lose_each(self.alloc, &mut self.views, places, namespace);
    }
}

/// The removal of the document, which begins with its `_id`. Fails when memory runs out.
fn gone_of(alloc: Global, document: &Document) -> Result<Taken, NoMemory>
    requires { HasId document.now }
    ensures { IfOk result (λ taken. taken ≡ record { pos = own_position document.now; old = Some document.now; new = None }) }
{
    document_gone(alloc, key_of_id(document)?, Some(document))
}
