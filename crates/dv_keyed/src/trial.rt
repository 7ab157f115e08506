//! What an index would be after documents are replaced.

ghost use Rattle.std.specs.Prelude.{◌≡◌, ◌++◌, ◌||◌, ◌&&◌, [], not, OnOk};
ghost use Rattle.dv_keyed.specs.Inner.Keys.{has_key};
ghost use Rattle.dv_keyed.specs.Inner.Pairs.{AddsPairs, is_under_another, pairs_without};

use crate::index::Index;
use crate::keys::{Keys, keys_without};
use crate::pairs::Pairs;
use dv_order::Key;
use dv_value::NoMemory;
use std::alloc::Global;

/// The keys under a path of a document as it was and as it will be. `old` is empty if there was no document, `new` if there will be
/// none.
#[derive(Debug, Drop)]
pub struct Moved {
    pub id: Key,
    pub old: Keys,
    pub new: Keys,
}

/// What an index would be after some documents are replaced: without the pairs in `gone`, and with those in `come`.
#[derive(Debug, Drop)]
pub struct Trial {
    pub gone: Pairs,
    pub come: Pairs,
}

impl Trial {
    /// Nothing is replaced yet. Takes no memory.
    pub fn new(alloc: Global) -> Self
        ensures gone { result.gone ≡ [] }
        ensures come { result.come ≡ [] }
    {
        Trial {
            gone: Pairs::new(alloc),
            come: Pairs::new(alloc),
        }
    }

    /// Whether one of the new keys would be under another `_id`. Takes no memory.
    pub fn clashes(&self, index: &Index, moved: &Moved) -> bool
        ensures { result ≡ is_under_another (λ k. has_key k moved.now.new) moved.now.id (pairs_without self.now.gone index.now.pairs ++ self.now.come) }
    {
        let held = index.pairs().as_pairs();
        held.clash_without(&self.gone, &moved.new, &moved.id)
            || self.come.clash(&moved.new, &moved.id)
    }

    /// Puts the new keys in place of the old ones; keys that stay are in neither set. If memory runs out, this is done for some of
    /// them.
    pub fn exchange(&mut self, alloc: Global, moved: &Moved) -> Result<(), NoMemory>
        ensures gone { OnOk result (AddsPairs (λ k. has_key k moved.now.old && not (has_key k moved.now.new)) moved.now.id self.old.gone self.new.gone) }
        ensures come { OnOk result (AddsPairs (λ k. has_key k moved.now.new && not (has_key k moved.now.old)) moved.now.id self.old.come self.new.come) }
    {
        let lost = keys_without(alloc, &moved.old, &moved.new)?;
        let gained = keys_without(alloc, &moved.new, &moved.old)?;
        self.gone.add_each(lost.as_slice(), &moved.id)?;
        self.come.add_each(gained.as_slice(), &moved.id)
    }
}
