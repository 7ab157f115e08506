//! Keys in lists.

ghost use Rattle.std.specs.Prelude.{◌≡◌, map, IfOk};
ghost use Rattle.std.specs.List.Sorted.{IsStrictlySortedBy};
ghost use Rattle.dv_value.specs.View.{tree};
ghost use Rattle.dv_order.specs.Key.{KeyTree, key_order, value as key_of_tree};
ghost use Rattle.dv_order.specs.Order.{canon};
ghost use Rattle.dv_keyed.specs.Inner.Keys.{has_key};

use dv_order::{Key, key_of};
use dv_value::{NoMemory, Value};
use std::alloc::Global;

/// The keys of the values. Fails with `NoMemory` when memory runs out.
pub fn keys_of_each(alloc: Global, values: &[Value]) -> Result<Vec<Key>, NoMemory>
    ensures { IfOk result (λ keys. keys.items ≡ map (λ v. key_of_tree (canon (tree v))) values.now) }
{
    let mut keys = Vec::with_capacity(alloc, values.len())?;
    'values: for value in values {
        keys.push(key_of(value)?)?;
    }
    Ok(keys)
}

/// References to the keys. Fails with `NoMemory` when memory runs out.
pub fn lent(alloc: Global, keys: &[Key]) -> Result<Vec<&Key>, NoMemory>
    ensures { IfOk result (λ lent. map (λ k. k.now) lent.items ≡ keys.now) }
{
    keys.iter().collect(alloc)
}

/// The keys in their order, equal ones only once. Those under one key of an index are in order already, so there are few runs to
/// merge. Fails with `NoMemory` when memory runs out.
pub fn in_order(mut keys: Vec<&Key>) -> Result<Vec<&Key>, NoMemory>
    ensures ascending { IfOk result (λ ordered. IsStrictlySortedBy key_order (map (λ k. k.now) ordered.items)) }
    ensures same { IfOk result (λ ordered. (k : KeyTree) → has_key k (map (λ l. l.now) ordered.items) ≡ has_key k (map (λ l. l.now) keys.entry.items)) }
{
    keys.sort()?;
    keys.dedup();
    Ok(keys)
}
