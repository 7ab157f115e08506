//! Values at positions.

ghost use Rattle.std.specs.Prelude.{◌≡◌, ◌↔◌, List, [], IfOk, IsTrue, drop, length, slice_get};
ghost use Rattle.std.specs.Option.{option_map};
ghost use Rattle.dv_change.specs.Inner.Ordered.{found_at, gone, put};

use crate::position::Pos;
use dv_value::NoMemory;
use std::alloc::Global;
use std::cmp::Ordering;
use std::collections::BTreeMap;
use std::collections::btree_map::Iter;
use std::marker::Model;

/// Values at positions, in their order. The first value is kept outside the tree, since a tree takes memory for many as soon as it
/// has one.
#[derive(Drop)]
pub struct Ordered<V> {
    first: Option<(Pos, V)>,
    others: BTreeMap<Pos, V>,
}

impl<V> Model for Ordered<V> {
    ghost use Rattle.std.specs.Prelude.{List};
    ghost use Rattle.dv_change.specs.Positions.{PosTree};

    ghost Value = { List (PosTree × V) };

    ghost use Rattle.std.specs.Coded.{codes};
    ghost use Rattle.dv_order.specs.contracts.key.Key as keys;

    ghost coded = { Prim.hlevel (codes, keys.the_row.coded) };

    ghost use Rattle.dv_change.specs.Inner.OrderedView.{in_all, AreInOrder};

    ghost view = { λ o. in_all o.first o.others.entries };

    ghost invariant = { λ o. AreInOrder o.first o.others.entries };
}

impl<V: Drop> Ordered<V> {
    /// No values. Takes no memory.
    pub fn new(alloc: Global) -> Self
        ensures { result ≡ [] }
    {
        Ordered {
            first: None,
            others: BTreeMap::new(alloc),
        }
    }

    /// The values with one more, which replaces the one at its position, if any. Fails with `NoMemory` when memory runs out; then
    /// all are dropped.
    pub fn with(self, pos: Pos, value: V) -> Result<Self, NoMemory>
        ensures { IfOk result (λ more. more ≡ put pos value self) }
    {
        let (more, _) = self.exchange(pos, value)?;
        Ok(more)
    }

    /// The values with one more, and the one that it replaces at its position, if any. Fails with `NoMemory` when memory runs out;
    /// then all are dropped.
    pub fn exchange(self, pos: Pos, value: V) -> Result<(Self, Option<V>), NoMemory>
        ensures values { IfOk result (λ both. both.0 ≡ put pos value self) }
        ensures stood { IfOk result (λ both. both.1 ≡ found_at pos self) }
    {
        pos.law_exact();
        let Ordered { first, mut others } = self;
        let Some((at, there)) = first else {
            let first = Some((pos, value));
            return Ok((Ordered { first, others }, None));
        };
        match pos.cmp(&at) {
            Ordering::Less => {
                others.insert(at, there)?;
                let first = Some((pos, value));
                Ok((Ordered { first, others }, None))
            }
            Ordering::Equal => {
                let first = Some((at, value));
                Ok((Ordered { first, others }, Some(there)))
            }
            Ordering::Greater => {
                let stood = others.insert(pos, value)?;
                let first = Some((at, there));
                Ok((Ordered { first, others }, stood))
            }
        }
    }

    /// The values without the one at the position, if there is one.
    pub fn without(self, pos: &Pos) -> Self
        ensures { result ≡ gone pos.now self }
    {
        let (rest, _) = self.take_out(pos);
        rest
    }

    /// The values without the one at the position, and that one, if there is one.
    pub fn take_out(self, pos: &Pos) -> (Self, Option<V>)
        ensures values { result.0 ≡ gone pos.now self }
        ensures stood { result.1 ≡ found_at pos.now self }
    {
        let Ordered { first, mut others } = self;
        let Some((at, there)) = first else {
            return (
                Ordered {
                    first: None,
                    others,
                },
                None,
            );
        };
        if *pos == at {
            let first = others.pop_first();
            (Ordered { first, others }, Some(there))
        } else {
            let stood = others.remove(pos);
            let first = Some((at, there));
            (Ordered { first, others }, stood)
        }
    }

    /// The first value and its position.
    pub fn first(&self) -> Option<(&Pos, &V)>
        ensures { option_map (λ e. (e.0.now, e.1.now)) result ≡ slice_get self.now 0 }
    {
        match &self.first {
            Some((pos, value)) => Some((pos, value)),
            None => None,
        }
    }

    /// The values after the first one, each with its position, in their order.
    pub fn others(&self) -> Iter<'_, Pos, V>
        ensures { result ≡ drop 1 self.now }
    {
        self.others.iter()
    }

    /// The value at the position, if there is one.
    pub fn get(&self, pos: &Pos) -> Option<&V>
        ensures { option_map (λ value. value.now) result ≡ found_at pos.now self.now }
    {
        match &self.first {
            Some((at, value)) => {
                if pos == at {
                    Some(value)
                } else {
                    self.others.get(pos)
                }
            }
            None => None,
        }
    }

    /// How many there are.
    pub fn len(&self) -> usize
        ensures { result ≡ length self.now }
    {
        match &self.first {
            Some(_) => self.others.len() + 1,
            None => 0,
        }
    }

    /// Whether there is none.
    pub fn is_empty(&self) -> bool
        ensures { IsTrue result ↔ (self.now ≡ []) }
    {
        self.first.is_none()
    }
}
