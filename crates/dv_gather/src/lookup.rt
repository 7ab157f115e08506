//! `$lookup`.

ghost use Rattle.std.specs.Prelude.{◌≡◌, IfOk, OnOk};
ghost use Rattle.dv_value.specs.Tree.{array, elements_of};
ghost use Rattle.dv_value.specs.View.{tree};
ghost use Rattle.dv_gather.specs.View.{referred};
ghost use Rattle.dv_gather.specs.Lookups as defined;

use crate::alike::{has_names_of, row_like};
use crate::joining::{matches_of, places_of};
use dv_candidates::Path;
use dv_order::Key;
use dv_row::{copy_beside, push_field};
use dv_value::{Document, List, NoMemory, Str, Value};
use std::alloc::Global;
use std::collections::BTreeMap;
use std::marker::Model;

/// The documents of another collection that a row is joined with, put into it: those that have a leaf at `foreign` which compares
/// equal to a value of the row at `local`. An array of the row counts as its elements, and what is missing counts as null.
#[derive(Debug, Drop)]
pub struct Lookup {
    /// The name of the other collection.
    pub from: Str,
    /// The path in a row.
    pub local: Path,
    /// The path in a document of the other collection.
    pub foreign: Path,
    /// The name of the field with the documents.
    pub target: Str,
}

/// A look-up into documents.
#[derive(Debug, Drop)]
pub struct Join<'a> {
    lookup: &'a Lookup,
    documents: &'a [&'a Document],
    /// The places of the documents, by the keys of the values under which they are found.
    places: BTreeMap<Key, Vec<usize>>,
}

impl<'a> Model for Join<'a> {
    ghost use Rattle.std.specs.Prelude.{List};
    ghost use Rattle.dv_value.specs.Tree.{Field};
    ghost use Rattle.dv_gather.specs.declared.lookup.Lookup.{Lookup};

    ghost Value = { Lookup × List (List Field) };

    ghost use Rattle.std.specs.Coded.{coded_list, coded×, coded_ℕ};
    ghost use Rattle.dv_value.specs.Inner.TreeCode.{coded_tree};
    ghost use Rattle.dv_gather.specs.contracts.lookup.Lookup as lookups;

    ghost coded = { coded× lookups.the_row.coded (coded_list (coded_list (coded× (coded_list coded_ℕ) coded_tree))) };

    ghost use Rattle.dv_gather.specs.View.{referred};
    ghost use Rattle.dv_gather.specs.Inner.Places.{ArePlaces};

    ghost view = { λ j. (j.lookup.now, referred j.documents.now) };

    ghost invariant = { λ j. ArePlaces j.places j.lookup.now.foreign (referred j.documents.now) };
}

impl Lookup {
    /// The look-up into these documents, which are found by their values at `foreign`. Takes time linear in the number of these
    /// values, times a logarithm. Fails with `NoMemory` when memory runs out.
    pub fn join<'a>(
        &'a self,
        alloc: Global,
        documents: &'a [&'a Document],
    ) -> Result<Join<'a>, NoMemory>
        ensures { IfOk result (λ join. join ≡ (self.now, referred documents.now)) }
    {
        let places = places_of(alloc, self, documents)?;
        Ok(Join {
            lookup: self,
            documents,
            places,
        })
    }

    /// The row with an array of these values in place of the field of the target's name, or after the other fields. It shares
    /// names with `before`, a row that was returned before it, if there is one; and with the row itself if that has such a field.
    /// Fails with `NoMemory` when memory runs out.
    pub fn row_with(
        &self,
        alloc: Global,
        row: &Document,
        values: List,
        before: Option<&Document>,
    ) -> Result<Document, NoMemory>
        ensures { IfOk result (λ joined. joined ≡ defined.set_field self.now.target (array (elements_of values)) row.now) }
    {
        let target = self.target.as_str();
        if let Some(before) = before {
            if has_names_of(before, row, target) {
                return row_like(alloc, before, row, Value::Array(values));
            }
        }
        let mut joined = copy_for(alloc, row, target, before)?;
        set_field(&mut joined, target, Value::Array(values))?;
        Ok(joined)
    }

    /// A copy of its own. Fails with `NoMemory` when memory runs out.
    pub fn try_clone(&self) -> Result<Self, NoMemory>
        ensures { IfOk result (λ copy. copy ≡ self.now) }
    {
        Ok(Lookup {
            from: self.from.try_clone()?,
            local: self.local.try_clone()?,
            foreign: self.foreign.try_clone()?,
            target: self.target.try_clone()?,
        })
    }
}

impl<'a> Join<'a> {
    /// The row with the documents that it is joined with, an array in their order, each once, in place of the field of the target's
    /// name or after the others. They share their memory with the documents. It shares names with `before`, the result for the row
    /// before it, if there is one. Takes time linear in the number of the row's values and of the matches, times a logarithm. Fails
    /// with `NoMemory` when memory runs out.
    pub fn row_behind(
        &self,
        alloc: Global,
        row: &Document,
        before: Option<&Document>,
    ) -> Result<Document, NoMemory>
        ensures { IfOk result (λ joined. joined ≡ defined.joined_row self.now.0 self.now.1 row.now) }
    {
        let matches = matches_of(alloc, self.lookup, row, self.documents, &self.places)?;
        self.lookup.row_with(alloc, row, matches, before)
    }
}

/// A copy of the row, in which a value is to be put under the name. It shares names with `before`, a row in which that was done,
/// if there is one, unless the row has the name.
fn copy_for(
    alloc: Global,
    row: &Document,
    name: &str,
    before: Option<&Document>,
) -> Result<Document, NoMemory>
    ensures { IfOk result (λ copy. copy ≡ row.now) }
{
    if row.get(name).is_some() {
        return row.try_clone();
    }
    copy_beside(alloc, row, before)
}

/// Puts the value under the name: in place of the one that is there, or after the other fields.
fn set_field(document: &mut Document, name: &str, value: Value) -> Result<(), NoMemory>
    ensures { OnOk result (document.new ≡ defined.set_field name.now (tree value) document.old) }
{
    match document.put(name, value)? {
        Some(value) => push_field(document, name, Some(value)),
        None => Ok(()),
    }
}
