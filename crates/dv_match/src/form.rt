//! Filters as parsed.

ghost use Rattle.std.specs.Prelude.{◌≡◌, map, IfOk};
ghost use Rattle.dv_match.specs.Filter.{members_of, filters_of, conditions_of};
ghost use Rattle.dv_match.specs.View.{member, condition};

use crate::choices::Choices;
use crate::range::Range;
use dv_candidates::Path;
use dv_value::{NoMemory, Value};
use std::marker::Model;

/// What a document has to be in order to match a filter.
#[cycle(form)]
#[derive(Debug, Drop)]
pub enum Member {
    /// `$and`: it matches every filter.
    And(Filters),
    /// `$or`: it matches some filter.
    Or(Filters),
    /// `$nor`: it matches no filter.
    Nor(Filters),
    /// What the path leads to meets all conditions.
    At(Path, Conditions),
}

/// What a path's candidates have to be, or an element by itself. A leaf is a candidate, or an element of one that is an
/// array; a candidate that is missing compares as null.
#[cycle(form)]
#[derive(Debug, Drop)]
pub enum Condition {
    /// `$eq`, or a value in place of operators: some leaf compares equal to the value.
    Eq(Value),
    /// `$ne`: no leaf compares equal to the value.
    Ne(Value),
    /// `$gt`, `$gte`, `$lt`, `$lte`: some leaf is of the value's class and compares to it as the range says.
    Bound(Range, Value),
    /// `$in`: some leaf compares equal to one of the values.
    In(Choices),
    /// `$nin`: no leaf compares equal to one of the values.
    Nin(Choices),
    /// `$not`: not all conditions are met.
    Not(Conditions),
    /// `$all`: there are values, and each of them compares equal to some leaf.
    All(Choices),
    /// `$exists`: whether some candidate isn't missing.
    Exists(bool),
    /// `$size`: some candidate is an array with this number of elements.
    Size(u64),
    /// `$elemMatch`: some candidate is an array with an element that passes.
    ElemMatch(Test),
}

/// What an element of an array has to be.
#[cycle(form)]
#[derive(Debug, Drop)]
pub enum Test {
    /// The element meets all conditions, by itself and not by its items.
    Meets(Conditions),
    /// The element is a document that matches the filter.
    Matches(Filter),
}

/// A filter of documents: its members, all of which have to match.
#[cycle(form)]
#[derive(Debug, Drop)]
pub struct Filter {
    members: Vec<Member>,
}

/// Filters in written order.
#[cycle(form)]
#[derive(Debug, Drop)]
pub struct Filters {
    filters: Vec<Filter>,
}

/// Conditions in written order.
#[cycle(form)]
#[derive(Debug, Drop)]
pub struct Conditions {
    conditions: Vec<Condition>,
}

impl Model for Filter {
    ghost use Rattle.std.specs.Prelude.{map};
    ghost use Rattle.dv_match.specs.Filter.{Members, members_of};
    ghost use Rattle.dv_match.specs.Inner.Filter.{members_weight};
    ghost use Rattle.dv_match.specs.Inner.FilterCode.{coded_members};

    ghost Value = { Members };

    ghost coded = { coded_members };

    ghost use Rattle.dv_match.specs.View.{member};

    ghost view = { λ f. members_of (map member f.members.items) };

    ghost size = { members_weight };

    ghost use Rattle.std.proofs.Common.{arith};
    ghost use Rattle.dv_match.specs.Inner.ViewFalls.{members_fall};

    ghost size_decreases = { λ f h. omega (arith, members_fall f.members.items) };
}

impl Model for Filters {
    ghost use Rattle.dv_match.specs.Filter as form;
    ghost use Rattle.dv_match.specs.Filter.{filters_of};
    ghost use Rattle.dv_match.specs.Inner.Filter.{filters_weight};
    ghost use Rattle.dv_match.specs.Inner.FilterCode.{coded_filters};

    ghost Value = { form.Filters };

    ghost coded = { coded_filters };

    ghost view = { λ f. filters_of f.filters.items };

    ghost size = { filters_weight };

    ghost use Rattle.std.proofs.Common.{arith};
    ghost use Rattle.dv_match.specs.Inner.ViewFalls.{filters_fall};

    ghost size_decreases = { λ f h. omega (arith, filters_fall f.filters.items) };
}

impl Model for Conditions {
    ghost use Rattle.std.specs.Prelude.{map};
    ghost use Rattle.dv_match.specs.Filter as form;
    ghost use Rattle.dv_match.specs.Filter.{conditions_of};
    ghost use Rattle.dv_match.specs.Inner.Filter.{conditions_weight};
    ghost use Rattle.dv_match.specs.Inner.FilterCode.{coded_conditions};

    ghost Value = { form.Conditions };

    ghost coded = { coded_conditions };

    ghost use Rattle.dv_match.specs.View.{condition};

    ghost view = { λ c. conditions_of (map condition c.conditions.items) };

    ghost size = { conditions_weight };

    ghost use Rattle.std.proofs.Common.{arith};
    ghost use Rattle.dv_match.specs.Inner.ViewFalls.{conditions_fall};

    ghost size_decreases = { λ c h. omega (arith, conditions_fall c.conditions.items) };
}

impl Member {
    /// A copy of its own. Fails with `NoMemory` when memory runs out.
    #[cycle(copying)]
    pub fn try_clone(&self) -> Result<Self, NoMemory>
        ensures { IfOk result (λ copy. copy ≡ self.now) }
    {
        match self {
            Member::And(filters) => Ok(Member::And(filters.try_clone()?)),
            Member::Or(filters) => Ok(Member::Or(filters.try_clone()?)),
            Member::Nor(filters) => Ok(Member::Nor(filters.try_clone()?)),
            Member::At(path, conditions) => {
                Ok(Member::At(path.try_clone()?, conditions.try_clone()?))
            }
        }
    }
}

impl Condition {
    /// A copy of its own. Fails with `NoMemory` when memory runs out.
    #[cycle(copying)]
    pub fn try_clone(&self) -> Result<Self, NoMemory>
        ensures { IfOk result (λ copy. copy ≡ self.now) }
    {
        match self {
            Condition::Eq(value) => Ok(Condition::Eq(value.try_clone()?)),
            Condition::Ne(value) => Ok(Condition::Ne(value.try_clone()?)),
            Condition::Bound(range, value) => Ok(Condition::Bound(*range, value.try_clone()?)),
            Condition::In(values) => Ok(Condition::In(values.try_clone()?)),
            Condition::Nin(values) => Ok(Condition::Nin(values.try_clone()?)),
            Condition::Not(conditions) => Ok(Condition::Not(conditions.try_clone()?)),
            Condition::All(values) => Ok(Condition::All(values.try_clone()?)),
            Condition::Exists(wanted) => Ok(Condition::Exists(*wanted)),
            Condition::Size(size) => Ok(Condition::Size(*size)),
            Condition::ElemMatch(test) => Ok(Condition::ElemMatch(test.try_clone()?)),
        }
    }
}

impl Test {
    /// A copy of its own. Fails with `NoMemory` when memory runs out.
    #[cycle(copying)]
    pub fn try_clone(&self) -> Result<Self, NoMemory>
        ensures { IfOk result (λ copy. copy ≡ self.now) }
    {
        match self {
            Test::Meets(conditions) => Ok(Test::Meets(conditions.try_clone()?)),
            Test::Matches(filter) => Ok(Test::Matches(filter.try_clone()?)),
        }
    }
}

impl Filter {
    /// The filter of these members. Takes no memory.
    pub fn of(members: Vec<Member>) -> Self
        ensures { result ≡ members_of (map member members.items) }
    {
        Filter { members }
    }

    /// The members in written order.
    pub fn members(&self) -> &[Member]
        ensures { members_of (map member result.now) ≡ self.now }
    {
        self.members.as_slice()
    }

    /// A copy of its own. Fails with `NoMemory` when memory runs out.
    #[cycle(copying)]
    pub fn try_clone(&self) -> Result<Self, NoMemory>
        ensures { IfOk result (λ copy. copy ≡ self.now) }
    {
        let mut members = Vec::with_capacity(*self.members.allocator(), self.members.len())?;
        for member in &self.members {
            members.push(member.try_clone()?)?;
        }
        Ok(Filter { members })
    }
}

impl Filters {
    /// The list of these filters. Takes no memory.
    pub(crate) fn of(filters: Vec<Filter>) -> Self
        ensures { result ≡ filters_of filters.items }
    {
        Filters { filters }
    }

    /// The filters in written order.
    pub fn as_slice(&self) -> &[Filter]
        ensures { filters_of result.now ≡ self.now }
    {
        self.filters.as_slice()
    }

    /// A copy of its own. Fails with `NoMemory` when memory runs out.
    #[cycle(copying)]
    pub fn try_clone(&self) -> Result<Self, NoMemory>
        ensures { IfOk result (λ copy. copy ≡ self.now) }
    {
        let mut filters = Vec::with_capacity(*self.filters.allocator(), self.filters.len())?;
        for filter in &self.filters {
            filters.push(filter.try_clone()?)?;
        }
        Ok(Filters { filters })
    }
}

impl Conditions {
    /// The list of these conditions. Takes no memory.
    pub fn of(conditions: Vec<Condition>) -> Self
        ensures { result ≡ conditions_of (map condition conditions.items) }
    {
        Conditions { conditions }
    }

    /// The conditions in written order.
    pub fn as_slice(&self) -> &[Condition]
        ensures { conditions_of (map condition result.now) ≡ self.now }
    {
        self.conditions.as_slice()
    }

    /// A copy of its own. Fails with `NoMemory` when memory runs out.
    #[cycle(copying)]
    pub fn try_clone(&self) -> Result<Self, NoMemory>
        ensures { IfOk result (λ copy. copy ≡ self.now) }
    {
        let mut conditions = Vec::with_capacity(
            *self.conditions.allocator(),
            self.conditions.len(),
        )?;
        for condition in &self.conditions {
            conditions.push(condition.try_clone()?)?;
        }
        Ok(Conditions { conditions })
    }
}
