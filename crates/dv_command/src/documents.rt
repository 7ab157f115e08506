//! The documents of a command's array, or of a list next to its body.

ghost use Rattle.std.specs.Prelude.{◌≡◌, length};
ghost use Rattle.std.specs.Iterator.{YieldsFirstRef, item_count};
ghost use Rattle.std.specs.List.{list_all};
ghost use Rattle.dv_value.specs.Tree.{elements_of};
ghost use Rattle.dv_command.specs.Fields as fields;
ghost use Rattle.dv_command.specs.Inner.DocumentsView.{is_document};
ghost use Rattle.dv_refusal.specs.Refusals.{Returns};

use dv_refusal::Refusal;
use dv_value::{Document, List, Value};
use std::marker::Model;

/// Documents that are still to be returned, in order: those of an array, or those of a list next to a body.
#[derive(Debug, Drop)]
pub struct Documents<'a> {
    source: DocumentPlace<'a>,
}

/// Where documents are.
#[derive(Clone, Copy, Debug)]
enum DocumentPlace<'a> {
    Array(&'a [Value]),
    Beside(&'a [Document]),
}

impl<'a> Model for Documents<'a> {
    ghost use Rattle.std.specs.Prelude as prelude;
    ghost use Rattle.std.specs.Coded.{coded_list, coded×, coded_ℕ};
    ghost use Rattle.dv_value.specs.Tree.{Field};
    ghost use Rattle.dv_value.specs.Inner.TreeCode.{coded_tree};
    ghost use Rattle.dv_command.specs.Inner.DocumentsView.{source_seen, IsOfDocuments};

    ghost Value = { prelude.List (prelude.List Field) };

    ghost coded = { coded_list (coded_list (coded× (coded_list coded_ℕ) coded_tree)) };

    ghost view = { λ d. source_seen d.source };

    ghost invariant = { λ d. IsOfDocuments d.source };
}

impl<'a> Documents<'a> {
    /// The documents of an array. Refused with `TypeMismatch` if another value is among them.
    pub fn of(list: &'a List) -> Result<Self, Refusal>
        ensures { Returns (λ documents. documents) (fields.each_document (elements_of list.now)) result }
    {
        let values = list.as_slice();
        if are_documents(values) {
            Ok(Documents {
                source: DocumentPlace::Array(values),
            })
        } else {
            Err(Refusal::TypeMismatch)
        }
    }

    /// The documents of a list next to a body.
    pub fn beside(documents: &'a [Document]) -> Self
        ensures { result ≡ documents.now }
    {
        Documents {
            source: DocumentPlace::Beside(documents),
        }
    }

    /// How many documents there are.
    pub fn len(&self) -> usize
        ensures { result ≡ length self.now }
    {
        match self.source {
            DocumentPlace::Array(values) => values.len(),
            DocumentPlace::Beside(documents) => documents.len(),
        }
    }
}

/// Whether all values are documents.
fn are_documents(values: &[Value]) -> bool
    ensures { result ≡ list_all is_document values.now }
{
    values.iter().all(|value| matches!(value, Value::Doc(_)))
}

impl<'a> Iterator for Documents<'a> {
    type Item = &'a Document;

    ghost next_gives = { YieldsFirstRef (λ d. d) };

    ghost remaining = { item_count (λ d. d) };

    fn next(&mut self) -> Option<&'a Document> {
        match self.source {
            DocumentPlace::Array(values) => {
                let (first, behind) = values.split_first()?;
                self.source = DocumentPlace::Array(behind);
                match first {
                    Value::Doc(document) => Some(document),
                    _ => unreachable!(),
                }
            }
            DocumentPlace::Beside(documents) => {
                let (first, behind) = documents.split_first()?;
                self.source = DocumentPlace::Beside(behind);
                Some(first)
            }
        }
    }
}
