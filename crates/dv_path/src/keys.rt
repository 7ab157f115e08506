//! The keys of a document under a path.

ghost use Rattle.std.specs.Prelude.{◌≡◌, ◌||◌, ℕ, IfOk, OnErr, OnOk, map, take};
ghost use Rattle.std.specs.BTreeSet.{contains};
ghost use Rattle.std.specs.Option.{option_map};
ghost use Rattle.dv_order.specs.Key.{KeyTree, key_order, value};
ghost use Rattle.dv_order.specs.Order.{canon};
ghost use Rattle.dv_candidates.specs.Candidates.{or_null, with_elements};
ghost use Rattle.dv_candidates.specs.Candidates as candidates;
ghost use Rattle.dv_path.specs.Inner.GatheredKeys.{AddsKeysOf};
ghost use Rattle.dv_path.specs.LeafKeys.{is_key_of, is_leaf_key, is_some_key};
ghost use Rattle.dv_candidates.specs.View.{seen};

use dv_candidates::{Candidate, Path, fold_whole};
use dv_order::{Key, key_of};
use dv_value::{Document, List, NoMemory, Value};
use std::alloc::Global;
use std::collections::BTreeSet;

/// The keys of the document's leaves under the path, Missing having that of null: a leaf is what the path leads to, or if that is
/// an array, an element of it. Looks at each value of the document at most once for each of the path's components. Fails with
/// `NoMemory` when memory runs out.
pub fn leaf_keys(alloc: Global, document: &Document, path: &Path) -> Result<BTreeSet<Key>, NoMemory>
    ensures { IfOk result (λ keys. (k : KeyTree) → contains key_order keys k ≡ is_leaf_key k path.now document.now) }
{
    let keys = fold_whole(document, path, BTreeSet::new(alloc), |keys, candidate| {
        with_leaves(keys, candidate)
    })?;
    Ok(keys)
}

/// The keys with that of a candidate, and of its elements where it is an array.
fn with_leaves(mut keys: BTreeSet<Key>, candidate: Candidate<'_>) -> Result<BTreeSet<Key>, NoMemory>
    ensures { IfOk result (λ new. AddsKeysOf (map or_null (with_elements (seen candidate.entry))) keys new) }
{
    add_key(&mut keys, candidate)?;
    let Some(list) = array_in(candidate) else {
        return Ok(keys);
    };
    add_element_keys(&mut keys, list)?;
    Ok(keys)
}

/// Adds the keys of the list's values to a set. If memory runs out, those of the first values are added, or none.
pub fn add_element_keys(keys: &mut BTreeSet<Key>, list: &List) -> Result<(), NoMemory>
    ensures ok { OnOk result ((k : KeyTree) → contains key_order keys.new k ≡ (contains key_order keys.old k || is_some_key k list.now)) }
    ensures part { OnErr result ((n : ℕ) × ((k : KeyTree) → contains key_order keys.new k ≡ (contains key_order keys.old k || is_some_key k (take n list.now)))) }
{
    for element in list.as_slice() {
        add_key(keys, Candidate::Found(element))?;
    }
    Ok(())
}

/// Adds the candidate's key to a set. If memory runs out, nothing changes.
pub fn add_key(keys: &mut BTreeSet<Key>, candidate: Candidate<'_>) -> Result<(), NoMemory>
    ensures ok { OnOk result ((k : KeyTree) → contains key_order keys.new k ≡ (contains key_order keys.old k || is_key_of k (or_null (seen candidate.entry)))) }
    ensures err { OnErr result ((k : KeyTree) → contains key_order keys.new k ≡ contains key_order keys.old k) }
{
    let _ = keys.insert(candidate_key(candidate)?)?;
    Ok(())
}

/// The candidate's key, Missing having that of null. Fails with `NoMemory` when memory runs out.
pub fn candidate_key(candidate: Candidate<'_>) -> Result<Key, NoMemory>
    ensures { IfOk result (λ key. key ≡ value (canon (or_null (seen candidate.entry)))) }
{
    match candidate {
        Candidate::Found(value) => key_of(value),
        Candidate::Missing => key_of(&Value::Null),
    }
}

/// The array that the candidate is; `None` if it is none.
pub fn array_in(candidate: Candidate<'_>) -> Option<&List>
    ensures { option_map (λ list. list.now) result ≡ candidates.array_in (seen candidate.entry) }
{
    let Candidate::Found(value) = candidate else {
        return None;
    };
    match value {
        Value::Array(list) => Some(list),
        _ => None,
    }
}
