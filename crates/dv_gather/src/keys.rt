//! The keys by which rows are looked up, and those under which documents are found.

ghost use Rattle.std.specs.Prelude.{◌≡◌, ◌||◌, ◌∷◌, [], IfOk, IfSome};
ghost use Rattle.std.specs.BTreeSet.{contains};
ghost use Rattle.dv_order.specs.Key.{KeyTree, key_order};
ghost use Rattle.dv_path.specs.LeafKeys.{is_some_key, leaf_values};
ghost use Rattle.dv_candidates.specs.View.{seen};
ghost use Rattle.dv_gather.specs.Joining.{joined_by, local_values};
ghost use Rattle.dv_gather.specs.Inner.KeySets.{AreKeysOf};

use crate::lookup::Lookup;
use dv_candidates::{Candidate, Path, fold_whole, sole_candidate};
use dv_order::Key;
use dv_path::{add_element_keys, add_key, array_in, candidate_key, leaf_keys};
use dv_value::{Document, NoMemory};
use std::alloc::Global;
use std::collections::BTreeSet;

impl Lookup {
    /// The keys by which a row is looked up: those of what `local` leads to in it. An array has only those of its elements, and
    /// Missing has that of null. Fails with `NoMemory` when memory runs out.
    pub fn local_keys(&self, alloc: Global, row: &Document) -> Result<BTreeSet<Key>, NoMemory>
        ensures { IfOk result (λ keys. (k : KeyTree) → contains key_order keys k ≡ is_some_key k (joined_by self.now.local row.now)) }
    {
        let keys = fold_whole(row, &self.local, BTreeSet::new(alloc), |keys, candidate| {
            with_local(keys, candidate)
        })?;
        Ok(keys)
    }

    /// The keys under which a document is found: those of its leaves under `foreign`, Missing having that of null. Fails with
    /// `NoMemory` when memory runs out.
    #[tactic(auto, unfolding(dv_path::specs::LeafKeys::is_leaf_key))]
    pub fn foreign_keys(
        &self,
        alloc: Global,
        document: &Document,
    ) -> Result<BTreeSet<Key>, NoMemory>
        ensures { IfOk result (λ keys. (k : KeyTree) → contains key_order keys k ≡ is_some_key k (leaf_values self.now.foreign document.now)) }
    {
        leaf_keys(alloc, document, &self.foreign)
    }
}

/// The key of the one value to which the path leads, on either side; `None` if there may be more. Fails when memory runs out.
pub(crate) fn sole_key(document: &Document, path: &Path) -> Result<Option<Key>, NoMemory>
    ensures local { IfOk result (λ key. IfSome key (λ k. AreKeysOf (k ∷ []) (joined_by path.now document.now))) }
    ensures foreign { IfOk result (λ key. IfSome key (λ k. AreKeysOf (k ∷ []) (leaf_values path.now document.now))) }
{
    let Some(candidate) = sole_candidate(document, path) else {
        return Ok(None);
    };
    match array_in(candidate) {
        Some(_) => Ok(None),
        None => Ok(Some(candidate_key(candidate)?)),
    }
}

/// The keys with those of the values that a candidate stands for on the local side.
fn with_local(mut keys: BTreeSet<Key>, candidate: Candidate<'_>) -> Result<BTreeSet<Key>, NoMemory>
    ensures { IfOk result (λ new. (k : KeyTree) → contains key_order new k ≡ (contains key_order keys k || is_some_key k (local_values (seen candidate.entry)))) }
{
    let Some(list) = array_in(candidate) else {
        add_key(&mut keys, candidate)?;
        return Ok(keys);
    };
    add_element_keys(&mut keys, list)?;
    Ok(keys)
}
