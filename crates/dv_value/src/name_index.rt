//! The place of the field with a name.

ghost use Rattle.std.specs.Prelude.{◌≡◌, OnOk, OnErr};
ghost use Rattle.std.specs.FinMap as finite;

use crate::NoMemory;
use std::alloc::Global;
use std::collections::BTreeMap;
use std::marker::Model;

/// The places of names, found in logarithmic time whatever the names are.
#[derive(Debug, Drop)]
pub(crate) struct NameIndex {
    places: BTreeMap<String, usize>,
}

impl Model for NameIndex {
    ghost use Rattle.std.specs.Coded.{coded_list, coded_ℕ};
    ghost use Rattle.std.specs.FinMap as finite;
    ghost use Rattle.dv_value.specs.Inner.Places.{Places, places_of};

    ghost Value = { Places };

    ghost coded = { finite.code (coded_list coded_ℕ) coded_ℕ };

    ghost view = { λ index. places_of index.places };
}

impl NameIndex {
    /// An index of no name, whose names will be allocated by `alloc`.
    pub(crate) fn new(alloc: Global) -> Self
        ensures { result ≡ finite.empty }
    {
        NameIndex {
            places: BTreeMap::new(alloc),
        }
    }

    /// The place of the name, if it has one.
    pub(crate) fn place_of(&self, name: &str) -> Option<usize>
        ensures { result ≡ finite.get self.now name.now }
    {
        self.places.get(name).copied()
    }

    /// Gives the name this place, instead of the one that it had. If memory runs out nothing is changed.
    pub(crate) fn add(&mut self, alloc: Global, name: &str, place: usize) -> Result<(), NoMemory>
        ensures ok { OnOk result (self.new ≡ finite.insert self.old name.now place) }
        ensures err { OnErr result (self.new ≡ self.old) }
    {
        let name = String::from_str(alloc, name)?;
        self.places.insert(name, place)?;
        Ok(())
    }
}
