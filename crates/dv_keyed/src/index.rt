//! An index: a name, a path, and the pairs of its keys.

ghost use Rattle.std.specs.Prelude.{◌≡◌, ◌&&◌, true, false, not, OnErr, OnOk};
ghost use Rattle.std.specs.Ordering.{is_eq};
ghost use Rattle.dv_order.specs.Key.{KeyTree, key_order};
ghost use Rattle.dv_keyed.specs.Inner.Index.{form_of};
ghost use Rattle.dv_keyed.specs.Inner.Keys.{has_key, refers_to};
ghost use Rattle.dv_keyed.specs.Inner.Pairs.{AddsPairs, has_pair};

use crate::keys::Keys;
use crate::multi_index::MultiIndex;
use dv_candidates::Path;
use dv_order::Key;
use dv_value::{NoMemory, Str};
use std::marker::Model;

/// An index: its name, its path, whether it is unique, and the pairs of a key under the path and the key of the `_id` of a
/// document that has it.
#[derive(Debug, Drop)]
pub struct Index {
    name: Str,
    path: Path,
    unique: bool,
    pairs: MultiIndex,
}

impl Model for Index {
    ghost use Rattle.dv_keyed.specs.Inner.Index.{IndexTree, coded_index};

    ghost Value = { IndexTree };

    ghost coded = { coded_index };

    ghost view = { λ i. record { name = i.name; path = i.path; unique = i.unique; pairs = i.pairs } };
}

impl Index {
    /// The index with this name, this path and these pairs, `unique` or not. Takes no memory.
    pub fn of(name: Str, path: Path, unique: bool, pairs: MultiIndex) -> Self
        ensures { result ≡ record { name = name; path = path; unique = unique; pairs = pairs } }
    {
        Index {
            name,
            path,
            unique,
            pairs,
        }
    }

    /// The name.
    pub fn name(&self) -> &str
        ensures { result.now ≡ self.now.name }
    {
        self.name.as_str()
    }

    /// The path whose keys it has.
    pub fn path(&self) -> &Path
        ensures { result.now ≡ self.now.path }
    {
        &self.path
    }

    /// Whether no key of it may be in two documents.
    pub fn is_unique(&self) -> bool
        ensures { result ≡ self.now.unique }
    {
        self.unique
    }

    /// The pairs. The index on `_id` has none: the documents themselves are in the order of their `_id`s.
    pub fn pairs(&self) -> &MultiIndex
        ensures { result.now ≡ self.now.pairs }
    {
        &self.pairs
    }

    /// Adds a pair for each key, none of which the `_id` has yet; all keys that it has are in `held`. If memory runs out, the pairs
    /// are unchanged.
    pub fn add(&mut self, keys: &[&Key], id: &Key, held: &Keys) -> Result<(), NoMemory>
        requires held { (k : KeyTree) → has_pair k id.now self.old.pairs ≡ true → has_key k held.now ≡ true }
        requires absent { (k : KeyTree) → refers_to keys.now k ≡ true → has_pair k id.now self.old.pairs ≡ false }
        ensures form { form_of self.new ≡ form_of self.old }
        ensures ok { OnOk result (AddsPairs (refers_to keys.now) id.now self.old.pairs self.new.pairs) }
        ensures err { OnErr result ((k i : KeyTree) → has_pair k i self.new.pairs ≡ has_pair k i self.old.pairs) }
    {
        self.pairs.add_fresh(keys, id, held)
    }

    /// Removes the pair of each key, if the `_id` has it; all keys that the `_id` then has are in `left`. Takes no memory.
    pub fn take_out(&mut self, keys: &[&Key], id: &Key, left: &Keys)
        requires { (k : KeyTree) → (has_pair k id.now self.old.pairs && not (refers_to keys.now k)) ≡ true → has_key k left.now ≡ true }
        ensures form { form_of self.new ≡ form_of self.old }
        ensures pairs { (k i : KeyTree) → has_pair k i self.new.pairs ≡ (has_pair k i self.old.pairs && not (refers_to keys.now k && is_eq (key_order i id.now))) }
    {
        self.pairs.take_out_each(keys, id, left);
    }
}

/// An index that isn't made yet: its name, its path, and whether no key of it may be in two documents.
#[derive(Debug, Drop)]
pub struct NewIndex {
    pub name: Str,
    pub path: Path,
    pub unique: bool,
}
