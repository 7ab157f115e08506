//! Keys of texts and documents, lent by what holds these.

ghost use Rattle.std.specs.Prelude.{◌≡◌, IfOk};
ghost use Rattle.dv_order.specs.Order.{class};
ghost use Rattle.dv_order.specs.Key.{key_order};
ghost use Rattle.dv_order.specs.LentKeys.{lent_key, lent_value};

use crate::comparison::compare_documents;
use crate::key::Key;
use dv_value::{Document, NoMemory};
use std::alloc::Global;
use std::cmp::Ordering;

/// The key of a text or of a document, which is owned elsewhere.
#[derive(Clone, Copy, Debug, Drop)]
pub enum LentKey<'a> {
    /// Of a text.
    Text(&'a str),
    /// Of a document.
    Document(&'a Document),
}

impl<'a> LentKey<'a> {
    /// How the key compares to another one, in the order of keys. Takes no memory.
    #[tactic(auto, using(crate::specs::Inner::SameOrder::order_of_canon))]
    pub fn compare(&self, other: &LentKey) -> Ordering
        ensures { result ≡ key_order (lent_key self.now) (lent_key other.now) }
    {
        match (self, other) {
            (LentKey::Text(a), LentKey::Text(b)) => a.cmp(b),
            (LentKey::Document(a), LentKey::Document(b)) => compare_documents(a, b),
            _ => self.class().cmp(&other.class()),
        }
    }

    /// The key, of its own. Fails with `NoMemory` when memory runs out.
    pub fn to_key(&self, alloc: Global) -> Result<Key, NoMemory>
        ensures { IfOk result (λ key. key ≡ lent_key self.now) }
    {
        Key::of_lent(alloc, self)
    }

    /// Its value's class.
    pub(crate) fn class(&self) -> u8
        ensures { result ≡ class (lent_value self.now) }
    {
        match self {
            LentKey::Text(_) => 4,
            LentKey::Document(_) => 5,
        }
    }
}
