//! The rows of an `$unwind`, one by one.

ghost use Rattle.std.specs.Prelude.{◌≡◌, ◌<◌, Some, IfOk, length, map, slice_get};
ghost use Rattle.std.specs.List.{zip};
ghost use Rattle.dv_order.specs.Same as defined;
ghost use Rattle.dv_value.specs.View.{tree};
ghost use Rattle.dv_row.specs.Inner.UnwoundRows.{AreCommon, rows_of_origin};

use crate::way::Way;
use dv_order::is_same;
use dv_value::{Document, NoMemory, Value};
use std::alloc::Global;
use std::marker::Model;

/// What rows of an `$unwind` are made of.
#[derive(Debug, Drop)]
pub(crate) enum Origin<'a> {
    /// There are none.
    Nothing,
    /// The row itself is the only one.
    Itself(&'a Document),
    /// The only one is the row without the array that the way leads to.
    Emptied(Way<'a>),
    /// Each of the array's elements makes one, in the place of the array that the way leads to.
    Elements(Way<'a>, &'a [Value]),
}

/// The rows that an `$unwind` returns for a row. Each is made when it is requested.
#[derive(Debug, Drop)]
pub struct UnwoundRows<'a> {
    origin: Origin<'a>,
}

impl<'a> Model for UnwoundRows<'a> {
    ghost use Rattle.std.specs.Prelude.{List};
    ghost use Rattle.std.specs.Coded.{coded_list, coded×, coded_ℕ};
    ghost use Rattle.dv_value.specs.Inner.TreeCode.{coded_tree};
    ghost use Rattle.dv_row.specs.Row.{Row};
    ghost use Rattle.dv_row.specs.Inner.UnwoundRows.{rows_of_origin};

    ghost Value = { List Row };

    ghost coded = { coded_list (coded_list (coded× (coded_list coded_ℕ) coded_tree)) };

    ghost view = { λ u. rows_of_origin u.origin };
}

impl<'a> UnwoundRows<'a> {
    /// The rows that are made of this.
    pub(crate) fn of(origin: Origin<'a>) -> Self
        ensures { result ≡ rows_of_origin origin.entry }
    {
        UnwoundRows { origin }
    }

    /// How many rows there are. Takes no memory.
    pub fn len(&self) -> usize
        ensures { result ≡ length self.now }
    {
        match &self.origin {
            Origin::Nothing => 0,
            Origin::Itself(_) => 1,
            Origin::Emptied(_) => 1,
            Origin::Elements(_, elements) => elements.len(),
        }
    }

    /// The row at `place`, counted from 0, which there must be. Fails with `NoMemory` when memory runs out.
    pub fn row(&self, place: usize) -> Result<Document, NoMemory>
        requires { place < length self.now }
        ensures { IfOk result (λ row. slice_get self.now place ≡ Some row) }
    {
        match &self.origin {
            Origin::Nothing => unreachable!(),
            Origin::Itself(row) => row.try_clone(),
            Origin::Emptied(way) => way.with(None),
            Origin::Elements(way, elements) => {
                let Some(element) = elements.get(place) else {
                    unreachable!();
                };
                way.with(Some(element.try_clone()?))
            }
        }
    }

    /// For the places that both have, whether the rows there are known to be the same. The rows are not made for this. They are
    /// known to be the same if both are made of the elements of arrays, the rows with these arrays differ in nothing else, and the
    /// elements are the same. Rows at places without an entry may be the same too. Fails with `NoMemory` when memory runs out.
    pub fn common(&self, alloc: Global, other: &UnwoundRows<'_>) -> Result<Vec<bool>, NoMemory>
        ensures { IfOk result (λ common. AreCommon self.now other.now common.items) }
    {
        match (&self.origin, &other.origin) {
            (Origin::Elements(way, elements), Origin::Elements(other_way, others))
                if way.is_like(other_way) => { same_elements(alloc, elements, others) }
            _ => Ok(Vec::new(alloc)),
        }
    }
}

/// For each place that both have, whether the elements there are the same. Fails when memory runs out.
fn same_elements(alloc: Global, elements: &[Value], others: &[Value]) -> Result<Vec<bool>, NoMemory>
    ensures { IfOk result (λ same. same.items ≡ map (λ p. defined.is_same (tree p.0) (tree p.1)) (zip elements.now others.now)) }
{
    elements
        .iter()
        .zip(others)
        .map(|(element, other)| is_same(element, other))
        .collect(alloc)
}
