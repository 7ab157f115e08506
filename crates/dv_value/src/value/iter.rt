//! The fields of a document, one after the other.

ghost use Rattle.std.specs.Prelude.{◌≡◌};
ghost use Rattle.std.specs.Iterator.{YieldsFirstBy, item_count};
ghost use Rattle.dv_value.specs.Names.{AreNamed};
ghost use Rattle.dv_value.specs.View.{tree};

use crate::value::{Document, Value};
use std::marker::Model;
use std::ops::Range;

/// The fields of a document that are still to come, in written order: the name and the value of each.
#[derive(Debug, Drop)]
pub struct DocumentIter<'a> {
    document: &'a Document,
    /// The places of these fields.
    places: Range<usize>,
}

impl<'a> Model for DocumentIter<'a> {
    ghost use Rattle.std.specs.Prelude as prelude;
    ghost use Rattle.std.specs.Prelude.{◌≡◌};
    ghost use Rattle.std.specs.Coded.{coded_list, coded×, coded_ℕ};
    ghost use Rattle.dv_value.specs.Tree.{Field};
    ghost use Rattle.dv_value.specs.Inner.TreeCode.{coded_tree};

    ghost Value = { prelude.List Field };

    ghost coded = { coded_list (coded× (coded_list coded_ℕ) coded_tree) };

    ghost view = { λ i. prelude.drop i.places.start i.document.now };

    ghost invariant = { λ i. i.places.end ≡ prelude.length i.document.now };
}

impl Document {
    /// The fields in written order: the name and the value of each. Takes no memory.
    pub fn iter(&self) -> DocumentIter<'_>
        ensures fields { result ≡ self.now }
        ensures named { AreNamed self.now }
    {
        DocumentIter {
            document: self,
            places: 0..self.len(),
        }
    }
}

impl<'a> Iterator for DocumentIter<'a> {
    type Item = (&'a str, &'a Value);

    ghost next_gives = { YieldsFirstBy (λ field. (field.0.now, tree field.1.now)) (λ i. i) };

    ghost remaining = { item_count (λ i. i) };

    fn next(&mut self) -> Option<(&'a str, &'a Value)> {
        let place = self.places.next()?;
        Some(self.document.field(place))
    }
}
