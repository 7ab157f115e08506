//! Documents without some of their fields.

ghost use Rattle.std.specs.Prelude.{◌≡◌, map, IfOk};
ghost use Rattle.dv_value.specs.Removing.{without_each};
ghost use Rattle.dv_value.specs.Inner.Removing.{HasEach};

use crate::NoMemory;
use crate::name_index::NameIndex;
use crate::value::Document;
use std::alloc::Global;

impl Document {
    /// A copy without the fields of these names, if there are such; the others keep their order. Documents inside are shared. In
    /// time n log n in the number of fields and of names, and linear in what is copied. Fails with `NoMemory` when memory runs out.
    pub fn without_each(&self, alloc: Global, names: &[&str]) -> Result<Document, NoMemory>
        ensures { IfOk result (λ left. left ≡ without_each (map (λ name. name.now) names.now) self.now) }
    {
        let gone = indexed(alloc, names)?;
        let mut left = Document::new(alloc);
        'fields: for place in 0..self.len() {
            let (name, value) = self.field(place);
            if gone.place_of(name).is_none() {
                left.add(name, value.try_clone()?)?;
            }
        }
        Ok(left)
    }
}

/// An index that has a place for each of these names, and for no other.
fn indexed(alloc: Global, names: &[&str]) -> Result<NameIndex, NoMemory>
    ensures { IfOk result (λ index. HasEach (map (λ name. name.now) names.now) index) }
{
    let mut index = NameIndex::new(alloc);
    for (place, name) in names.iter().enumerate() {
        index.add(alloc, name, place)?;
    }
    Ok(index)
}
