//! Commands as they are in messages.

ghost use Rattle.std.specs.Prelude.{◌≡◌, map};
ghost use Rattle.std.specs.List.{list_all};
ghost use Rattle.std.specs.Option.{option_map};
ghost use Rattle.std.specs.Str.{bytes_eq};
ghost use Rattle.dv_command.specs.Lists as defined;
ghost use Rattle.dv_command.specs.ListsView.{list_seen};

use dv_value::{BsonFault, Document, Str};
use std::alloc::Global;
use std::marker::Model;

/// A command as it is in a message.
#[derive(Debug, Drop)]
pub enum Command {
    /// The message's body, and the lists of documents next to it.
    Sections {
        body: Document,
        lists: DocumentLists,
    },
    /// The first fault in the message's documents.
    Invalid(BsonFault),
}

/// Documents next to a body, under a name of their own.
#[derive(Debug, Drop)]
pub struct DocumentList {
    pub name: Str,
    pub documents: Vec<Document>,
}

/// The lists of documents of a message, in order.
#[derive(Debug, Drop)]
pub struct DocumentLists {
    lists: Vec<DocumentList>,
}

impl Model for DocumentLists {
    ghost use Rattle.std.specs.Prelude as prelude;
    ghost use Rattle.std.specs.Prelude.{ℕ, map};
    ghost use Rattle.std.specs.Coded.{coded_list, coded×, coded_ℕ};
    ghost use Rattle.dv_value.specs.Tree.{Field};
    ghost use Rattle.dv_value.specs.Inner.TreeCode.{coded_tree};

    ghost Value = { prelude.List (prelude.List ℕ × prelude.List (prelude.List Field)) };

    ghost coded = { coded_list (coded× (coded_list coded_ℕ) (coded_list (coded_list (coded× (coded_list coded_ℕ) coded_tree)))) };

    ghost use Rattle.dv_command.specs.ListsView.{list_seen};

    ghost view = { λ l. map list_seen l.lists.items };
}

impl DocumentLists {
    ghost use Rattle.std.specs.Prelude.{◌↔◌, [], IsTrue};

    /// These lists. Takes no memory.
    pub fn of(lists: Vec<DocumentList>) -> Self
        ensures { result ≡ map list_seen lists.items }
    {
        DocumentLists { lists }
    }

    /// The documents of the first list of a name; `None` if there is no such list.
    pub fn under(&self, name: &str) -> Option<&[Document]>
        ensures { option_map (λ documents. documents.now) result ≡ defined.list_under name.now self.now }
    {
        list_under(self.lists.as_slice(), name)
    }

    /// Whether no list has another name.
    pub(crate) fn are_only(&self, name: &str) -> bool
        ensures { result ≡ list_all (λ list. bytes_eq name.now list.0) self.now }
    {
        are_only(self.lists.as_slice(), name)
    }

    /// Whether there is no list.
    pub fn is_empty(&self) -> bool
        ensures { IsTrue result ↔ (self.now ≡ []) }
    {
        self.lists.is_empty()
    }
}

/// The documents of the first list of a name; `None` if there is no such list.
fn list_under<'a>(lists: &'a [DocumentList], name: &str) -> Option<&'a [Document]>
    ensures { option_map (λ documents. documents.now) result ≡ defined.list_under name.now (map list_seen lists.now) }
{
    'lists: for list in lists {
        if name == list.name.as_str() {
            return Some(list.documents.as_slice());
        }
    }
    None
}

/// Whether no list has another name.
fn are_only(lists: &[DocumentList], name: &str) -> bool
    ensures { result ≡ list_all (λ list. bytes_eq name.now list.0) (map list_seen lists.now) }
{
    'lists: for list in lists {
        if name != list.name.as_str() {
            return false;
        }
    }
    true
}
