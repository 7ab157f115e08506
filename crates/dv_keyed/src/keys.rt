//! The keys of a document under a path.

ghost use Rattle.std.specs.Prelude.{◌≡◌, not, [], IfOk, filter, length, map};
ghost use Rattle.dv_order.specs.Key.{KeyTree};
ghost use Rattle.dv_path.specs.LeafKeys.{is_leaf_key};
ghost use Rattle.dv_keyed.specs.Inner.Keys.{has_key};

use dv_candidates::Path;
use dv_order::Key;
use dv_path::leaf_keys;
use dv_value::{Document, NoMemory};
use std::alloc::Global;
use std::collections::BTreeSet;
use std::marker::Model;

/// A set of keys, in their order, no two of which are equal.
#[derive(Debug, Drop)]
pub struct Keys {
    keys: BTreeSet<Key>,
}

impl Model for Keys {
    ghost use Rattle.std.specs.Prelude as prelude;
    ghost use Rattle.std.specs.Coded.{coded_list};
    ghost use Rattle.dv_order.specs.Key.{KeyTree};
    ghost use Rattle.dv_order.specs.Inner.Key.{coded_key};

    ghost Value = { prelude.List KeyTree };

    ghost coded = { coded_list coded_key };

    ghost view = { λ k. k.keys.keys };
}

impl Keys {
    /// No key. Takes no memory.
    pub fn none(alloc: Global) -> Self
        ensures { result ≡ [] }
    {
        Keys {
            keys: BTreeSet::new(alloc),
        }
    }

    /// How many there are.
    pub(crate) fn len(&self) -> usize
        ensures { result ≡ length self.now }
    {
        self.keys.len()
    }

    /// The keys.
    pub(crate) fn as_set(&self) -> &BTreeSet<Key>
        ensures { result.now.keys ≡ self.now }
    {
        &self.keys
    }
}

/// The keys of the document's leaves under the path; Missing has the key of null. A leaf is what the path leads to, or if that is
/// an array, an element of it. Reads each value of the document at most once for each of the path's components. Fails with
/// `NoMemory` when memory runs out.
pub fn keys_of(alloc: Global, path: &Path, document: &Document) -> Result<Keys, NoMemory>
    ensures { IfOk result (λ keys. (k : KeyTree) → has_key k keys ≡ is_leaf_key k path.now document.now) }
{
    Ok(Keys {
        keys: leaf_keys(alloc, document, path)?,
    })
}

/// The keys that aren't among others. Fails with `NoMemory` when memory runs out.
pub fn keys_without<'k>(
    alloc: Global,
    keys: &'k Keys,
    others: &Keys,
) -> Result<Vec<&'k Key>, NoMemory>
    ensures { IfOk result (λ kept. map (λ k. k.now) kept.items ≡ filter (λ k. not (has_key k others.now)) keys.now) }
{
    keys.as_set()
        .iter()
        .filter(|key| !has(others, key))
        .collect(alloc)
}

fn has(keys: &Keys, key: &Key) -> bool
    ensures { result ≡ has_key key.now keys.now }
{
    keys.as_set().contains(key)
}
