//! The values of `$in`, `$nin` and `$all`.

ghost use Rattle.std.specs.Prelude.{◌≡◌, IfOk};
ghost use Rattle.std.specs.List.{list_any};
ghost use Rattle.std.specs.Ordering.{is_eq};
ghost use Rattle.dv_value.specs.View.{tree};
ghost use Rattle.dv_order.specs.Order.{order};
ghost use Rattle.dv_match.specs.Inner.Choices.{AreChoicesInOrder};

use crate::ascending::place_of;
use dv_order::compare;
use dv_value::{List, NoMemory, Value};
use std::marker::Model;

/// The values of `$in`, `$nin` or `$all`, in written order. It also has copies in the order of values, only one of those that
/// compare equal, in which a value is looked up.
#[derive(Debug, Drop)]
pub struct Choices {
    values: List,
    ascending: Vec<Value>,
}

impl Model for Choices {
    ghost use Rattle.std.specs.Prelude as prelude;
    ghost use Rattle.std.specs.Coded.{coded_list};
    ghost use Rattle.dv_value.specs.Tree.{Tree};
    ghost use Rattle.dv_value.specs.Inner.TreeCode.{coded_tree};
    ghost use Rattle.dv_match.specs.Inner.Choices.{AreChoicesInOrder};

    ghost Value = { prelude.List Tree };

    ghost coded = { coded_list coded_tree };

    ghost view = { λ c. c.values };

    ghost invariant = { λ c. AreChoicesInOrder c.values c.ascending.items };
}

impl Choices {
    /// These values. Costs comparisons of n log n for n values. Fails with `NoMemory` when memory runs out.
    pub fn of(values: List) -> Result<Self, NoMemory>
        ensures { IfOk result (λ choices. choices ≡ values) }
    {
        let mut ascending = values.try_clone()?.into_inner();
        ascending.sort_by(|first, second| compare(first, second))?;
        ascending.dedup_by(|later, earlier| compare(later, earlier).is_eq());
        Ok(Choices { values, ascending })
    }

    /// The values in written order.
    pub fn values(&self) -> &List
        ensures { result.now ≡ self.now }
    {
        &self.values
    }

    /// Copies of the values in ascending order, only one of those that compare equal.
    pub(crate) fn ascending(&self) -> &[Value]
        ensures { AreChoicesInOrder self.now result.now }
    {
        self.ascending.as_slice()
    }

    /// Whether one of the values compares equal to this one. Takes no memory, and comparisons logarithmic in the number
    /// of values.
    pub fn contains(&self, value: &Value) -> bool
        ensures { result ≡ list_any (λ v. is_eq (order (tree value.now) v)) self.now }
    {
        place_of(self.ascending(), value).is_some()
    }

    /// A copy of its own. Fails with `NoMemory` when memory runs out.
    pub fn try_clone(&self) -> Result<Self, NoMemory>
        ensures { IfOk result (λ copy. copy ≡ self.now) }
    {
        Choices::of(self.values.try_clone()?)
    }
}
