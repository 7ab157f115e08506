//! What is under a namespace, row by row.

ghost use Rattle.std.specs.Prelude.{◌≡◌, []};

use dv_coll::Iter;
use dv_value::Document;
use dv_views::RowsBetween;
use std::marker::Model;

/// Where rows come from.
#[derive(Drop)]
enum RowsOrigin<'a> {
    /// There is nothing.
    Nothing,
    /// The documents of a collection, in the order of their `_id`s.
    Collection(Iter<'a>),
    /// The rows of a view.
    View(dv_views::ViewRows<'a>),
    /// Rows of a view between two ends, in ascending or descending order of their `_id`s.
    Between(RowsBetween<'a>),
}

/// Rows that are still to be returned.
#[derive(Drop)]
pub(crate) struct FoundRows<'a> {
    origin: RowsOrigin<'a>,
}

impl<'a> Model for FoundRows<'a> {
    ghost use Rattle.std.specs.Prelude as prelude;
    ghost use Rattle.std.specs.Coded.{coded_list, coded×, coded_ℕ};
    ghost use Rattle.dv_value.specs.Tree.{Field};
    ghost use Rattle.dv_value.specs.Inner.TreeCode.{coded_tree};
    ghost use Rattle.dv_catalog.specs.Inner.RowsView as seen;

    ghost Value = { prelude.List (prelude.List Field) };

    ghost coded = { coded_list (coded_list (coded× (coded_list coded_ℕ) coded_tree)) };

    ghost view = { λ r. seen.rows r.origin };
}

impl<'a> FoundRows<'a> {
    /// No row.
    pub(crate) fn none() -> Self
        ensures { result ≡ [] }
    {
        FoundRows {
            origin: RowsOrigin::Nothing,
        }
    }

    /// The documents of a collection.
    pub(crate) fn of_collection(documents: Iter<'a>) -> Self
        ensures { result ≡ documents.entry }
    {
        FoundRows {
            origin: RowsOrigin::Collection(documents),
        }
    }

    /// The rows of a view.
    pub(crate) fn of_view(rows: dv_views::ViewRows<'a>) -> Self
        ensures { result ≡ rows.entry }
    {
        FoundRows {
            origin: RowsOrigin::View(rows),
        }
    }

    /// Rows of a view between two ends.
    pub(crate) fn of_between(rows: RowsBetween<'a>) -> Self
        ensures { result ≡ rows.entry }
    {
        FoundRows {
            origin: RowsOrigin::Between(rows),
        }
    }
}

impl<'a> Iterator for FoundRows<'a> {
    type Item = &'a Document;

    ghost use Rattle.std.specs.Iterator.{YieldsFirstRef, item_count};

    ghost next_gives = { YieldsFirstRef (λ i. i) };

    ghost remaining = { item_count (λ i. i) };

    fn next(&mut self) -> Option<&'a Document> {
        match &mut self.origin {
            RowsOrigin::Nothing => None,
            RowsOrigin::Collection(documents) => documents.next(),
            RowsOrigin::View(rows) => rows.next(),
            RowsOrigin::Between(rows) => rows.next(),
        }
    }
}
