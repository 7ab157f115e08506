//! Documents of a part of a collection, in either order of their `_id`s.

ghost use Rattle.std.specs.Prelude.{◌≡◌};
ghost use Rattle.std.specs.Iterator.{YieldsFirstRef, item_count};
ghost use Rattle.std.specs.Map.{values_of};
ghost use Rattle.dv_coll.specs.Inner.Walk.{walked};

use dv_order::Key;
use dv_value::Document;
use std::collections::btree_map::Range;
use std::marker::Model;

/// Documents of a part of a collection that are still to be returned, in ascending or descending order of their `_id`s.
#[derive(Debug, Drop)]
pub struct Walk<'a> {
    documents: Range<'a, Key, Document>,
    is_backwards: bool,
}

impl<'a> Model for Walk<'a> {
    ghost use Rattle.std.specs.Prelude as prelude;
    ghost use Rattle.std.specs.Coded.{coded_list, coded×, coded_ℕ};
    ghost use Rattle.std.specs.Map.{values_of};
    ghost use Rattle.dv_value.specs.Tree.{Field};
    ghost use Rattle.dv_value.specs.Inner.TreeCode.{coded_tree};
    ghost use Rattle.dv_coll.specs.Inner.Walk.{walked};

    ghost Value = { prelude.List (prelude.List Field) };

    ghost coded = { coded_list (coded_list (coded× (coded_list coded_ℕ) coded_tree)) };

    ghost view = { λ w. walked w.is_backwards (values_of w.documents) };
}

impl<'a> Walk<'a> {
    /// The documents of a part of the entries, in their order or in reverse.
    pub(crate) fn of(documents: Range<'a, Key, Document>, is_backwards: bool) -> Self
        ensures { result ≡ walked is_backwards (values_of documents.entry) }
    {
        Walk {
            documents,
            is_backwards,
        }
    }
}

impl<'a> Iterator for Walk<'a> {
    type Item = &'a Document;

    ghost next_gives = { YieldsFirstRef (λ i. i) };

    ghost remaining = { item_count (λ i. i) };

    fn next(&mut self) -> Option<&'a Document> {
        if self.is_backwards {
            let (_, document) = self.documents.next_back()?;
            Some(document)
        } else {
            let (_, document) = self.documents.next()?;
            Some(document)
        }
    }
}
