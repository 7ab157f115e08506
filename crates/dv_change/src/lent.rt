//! The parts of a position, borrowed.

ghost use Rattle.std.specs.Prelude.{◌≡◌, [], ◌∷◌};
ghost use Rattle.dv_order.specs.LentKeys.{lent_key};
ghost use Rattle.dv_change.specs.declared.position.Part.TheVariants.{Up};
ghost use Rattle.dv_change.specs.Inner.Lents.{lent_parts, parts_lent};
ghost use Rattle.dv_change.specs.Positions.{part_order, pos_order};

use crate::position::Part;
use dv_order::LentKey;
use std::cmp::Ordering;

/// Parts, each as a `Part`.
#[derive(Debug, Drop)]
pub(crate) enum Parts<'a> {
    One([Part; 1]),
    Two([Part; 2]),
    Listed(&'a [Part]),
}

/// The parts of a position.
#[derive(Debug, Drop)]
pub(crate) enum Lent<'a> {
    /// One part, with an ascending key that is borrowed from the position.
    Alone(LentKey<'a>),
    /// Any parts.
    Together(Parts<'a>),
}

impl<'a> Parts<'a> {
    /// The parts in order.
    pub(crate) fn as_slice(&self) -> &[Part]
        ensures { result.now ≡ parts_lent self.now }
    {
        match self {
            Parts::One(parts) => parts.as_slice(),
            Parts::Two(parts) => parts.as_slice(),
            Parts::Listed(parts) => parts,
        }
    }
}

impl<'a> Lent<'a> {
    /// The order of the positions of these parts and of others.
    pub(crate) fn order(&self, other: &Lent) -> Ordering
        ensures { result ≡ pos_order (lent_parts self.now) (lent_parts other.now) }
    {
        match (self, other) {
            (Lent::Alone(a), Lent::Alone(b)) => a.compare(b),
            (Lent::Alone(a), Lent::Together(b)) => order_to(b.as_slice(), a).reverse(),
            (Lent::Together(a), Lent::Alone(b)) => order_to(a.as_slice(), b),
            (Lent::Together(a), Lent::Together(b)) => a.as_slice().cmp(b.as_slice()),
        }
    }
}

/// The order of the position of these parts and of the position of the ascending key alone.
fn order_to(parts: &[Part], key: &LentKey) -> Ordering
    ensures { result ≡ pos_order parts.now (Up (lent_key key.now) ∷ []) }
{
    match parts {
        [] => Ordering::Less,
        [part] => part_order_to(part, key),
        [part, _next, ..] => part_order_to(part, key).then(Ordering::Greater),
    }
}

/// The order of the part and of the part with this ascending key.
fn part_order_to(part: &Part, key: &LentKey) -> Ordering
    ensures { result ≡ part_order part.now (Up (lent_key key.now)) }
{
    match part {
        Part::Up(own) => own.compare_to(key),
        Part::Down(_) | Part::At(_) => Ordering::Greater,
    }
}
