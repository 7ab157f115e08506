//! Filters from documents.

ghost use Rattle.dv_value.specs.Tree.{document as doc, fields_of, elements_of};
ghost use Rattle.dv_value.specs.View.{tree};
ghost use Rattle.dv_value.specs.Results.{Gives};
ghost use Rattle.dv_match.specs.declared.fault.FilterFault.TheVariants.{NoMemory as no_memory};
ghost use Rattle.dv_match.specs.Inner.Parsing.{condition_named};
ghost use Rattle.dv_match.specs.Parsing as defined;
ghost use Rattle.dv_match.specs.View.{member, condition, test};

use crate::fault::FilterFault;
use crate::form::{Condition, Conditions, Filter, Filters, Member, Test};
use crate::operand::{
    choices_of, lists_conditions, lists_operators, plain_choices_of, size_of, truth_of,
};
use crate::operator::{Operator, operator_named};
use crate::range::Range;
use dv_candidates::Path;
use dv_value::{Document, List, Value, begins_with_dollar};
use std::alloc::Global;

impl Filter {
    /// The filter that the document is, or its first fault in written order.
    ///
    /// A name `$and`, `$or` or `$nor` takes an array of filters, which isn't empty (`EmptyList`); any other name that begins with
    /// `$` is refused (`UnknownOperator`), and any other must be a path (`BadPath`). Under a path is an operator list, which is a
    /// document whose first name begins with `$`, or else a value to be equal to. Fails with `NoMemory` when memory runs out.
    #[cycle(parsing)]
    pub fn parse(alloc: Global, document: &Document) -> Result<Filter, FilterFault>
        ensures { Gives no_memory (λ filter. filter) result (defined.filter_in (fields_of document.now)) }
    {
        let mut members = Vec::new(alloc);
        'members: while let Some((name, value)) = document.entry(members.len()) {
            members.push(member_of(alloc, name, value)?)?;
        }
        Ok(Filter::of(members))
    }
}

impl Test {
    /// What `$elemMatch` requires of an element: the document's operators, if its first name begins with `$` and isn't `$and`,
    /// `$or` or `$nor`, otherwise the filter that the document is; or the first fault in written order. Fails with `NoMemory` when
    /// memory runs out.
    #[cycle(parsing)]
    #[tactic(auto, unfolding(crate::specs::Parsing::test_in))]
    pub fn parse(alloc: Global, document: &Document) -> Result<Test, FilterFault>
        ensures { Gives no_memory test result (defined.test_in (doc (fields_of document.now))) }
    {
        if lists_conditions(document) {
            Ok(Test::Meets(operators_of(alloc, document)?))
        } else {
            Ok(Test::Matches(Filter::parse(alloc, document)?))
        }
    }
}

/// The member of this name and value.
#[cycle(parsing)]
#[tactic(auto, unfolding(crate::specs::Parsing::member_named))]
fn member_of(alloc: Global, name: &str, value: &Value) -> Result<Member, FilterFault>
    ensures { Gives no_memory member result (defined.member_named name.now (defined.filters_in (tree value.now)) (defined.conditions_in (tree value.now))) }
{
    match name {
        "$and" => Ok(Member::And(filters_of(alloc, value)?)),
        "$or" => Ok(Member::Or(filters_of(alloc, value)?)),
        "$nor" => Ok(Member::Nor(filters_of(alloc, value)?)),
        _ => {
            if begins_with_dollar(name) {
                return Err(FilterFault::UnknownOperator);
            }
            let path = Path::parse(alloc, name)?;
            Ok(Member::At(path, conditions_of(alloc, value)?))
        }
    }
}

/// The filters of an array, which isn't empty.
#[cycle(parsing)]
#[tactic(auto, unfolding(crate::specs::Parsing::filters_in))]
fn filters_of(alloc: Global, value: &Value) -> Result<Filters, FilterFault>
    ensures { Gives no_memory (λ filters. filters) result (defined.filters_in (tree value.now)) }
{
    let Value::Array(list) = value else {
        return Err(FilterFault::BadOperand);
    };
    if list.as_slice().is_empty() {
        return Err(FilterFault::EmptyList);
    }
    each_filter(alloc, list)
}

#[cycle(parsing)]
fn each_filter(alloc: Global, list: &List) -> Result<Filters, FilterFault>
    ensures { Gives no_memory (λ filters. filters) result (defined.each_filter (elements_of list.now)) }
{
    let mut filters = Vec::new(alloc);
    'filters: for value in list.as_slice() {
        filters.push(filter_of(alloc, value)?)?;
    }
    Ok(Filters::of(filters))
}

#[cycle(parsing)]
#[tactic(auto, unfolding(crate::specs::Parsing::filter_of))]
fn filter_of(alloc: Global, value: &Value) -> Result<Filter, FilterFault>
    ensures { Gives no_memory (λ filter. filter) result (defined.filter_of (tree value.now)) }
{
    match value {
        Value::Doc(document) => Filter::parse(alloc, document),
        _ => Err(FilterFault::BadOperand),
    }
}

/// The conditions under a path.
#[cycle(parsing)]
#[tactic(auto, unfolding(crate::specs::Parsing::conditions_in))]
fn conditions_of(alloc: Global, value: &Value) -> Result<Conditions, FilterFault>
    ensures { Gives no_memory (λ conditions. conditions) result (defined.conditions_in (tree value.now)) }
{
    match value {
        Value::Doc(document) => {
            if lists_operators(document) {
                operators_of(alloc, document)
            } else {
                equality(alloc, value)
            }
        }
        _ => equality(alloc, value),
    }
}

/// The condition to be equal to a value, alone.
fn equality(alloc: Global, value: &Value) -> Result<Conditions, FilterFault>
    ensures { Gives no_memory (λ conditions. conditions) result (defined.equality (tree value.now)) }
{
    let mut conditions = Vec::new(alloc);
    conditions.push(Condition::Eq(value.try_clone()?))?;
    Ok(Conditions::of(conditions))
}

/// The conditions of an operator list.
#[cycle(parsing)]
fn operators_of(alloc: Global, document: &Document) -> Result<Conditions, FilterFault>
    ensures { Gives no_memory (λ conditions. conditions) result (defined.operators_in (fields_of document.now)) }
{
    let mut conditions = Vec::new(alloc);
    'conditions: while let Some((name, value)) = document.entry(conditions.len()) {
        conditions.push(condition_of(alloc, name, value)?)?;
    }
    Ok(Conditions::of(conditions))
}

/// The condition of this operator and operand.
#[cycle(parsing)]
fn condition_of(alloc: Global, name: &str, value: &Value) -> Result<Condition, FilterFault>
    ensures { Gives no_memory condition result (condition_named name.now (tree value.now)) }
{
    let Some(operator) = operator_named(name) else {
        return Err(FilterFault::UnknownOperator);
    };
    match operator {
        Operator::Eq => Ok(Condition::Eq(value.try_clone()?)),
        Operator::Ne => Ok(Condition::Ne(value.try_clone()?)),
        Operator::Gt => Ok(Condition::Bound(Range::Above, value.try_clone()?)),
        Operator::Gte => Ok(Condition::Bound(Range::AtLeast, value.try_clone()?)),
        Operator::Lt => Ok(Condition::Bound(Range::Below, value.try_clone()?)),
        Operator::Lte => Ok(Condition::Bound(Range::AtMost, value.try_clone()?)),
        Operator::In => Ok(Condition::In(choices_of(value)?)),
        Operator::Nin => Ok(Condition::Nin(choices_of(value)?)),
        Operator::Not => Ok(Condition::Not(negated_of(alloc, value)?)),
        Operator::All => Ok(Condition::All(plain_choices_of(value)?)),
        Operator::Exists => Ok(Condition::Exists(truth_of(value)?)),
        Operator::Size => Ok(Condition::Size(size_of(value)?)),
        Operator::ElemMatch => Ok(Condition::ElemMatch(test_of(alloc, value)?)),
    }
}

/// The operator list of `$not`.
#[cycle(parsing)]
#[tactic(auto, unfolding(crate::specs::Parsing::negated_in))]
fn negated_of(alloc: Global, value: &Value) -> Result<Conditions, FilterFault>
    ensures { Gives no_memory (λ conditions. conditions) result (defined.negated_in (tree value.now)) }
{
    let Value::Doc(document) = value else {
        return Err(FilterFault::BadOperand);
    };
    if !lists_operators(document) {
        return Err(FilterFault::BadOperand);
    }
    operators_of(alloc, document)
}

/// The test of `$elemMatch`.
#[cycle(parsing)]
#[tactic(auto, unfolding(crate::specs::Parsing::test_in))]
fn test_of(alloc: Global, value: &Value) -> Result<Test, FilterFault>
    ensures { Gives no_memory test result (defined.test_in (tree value.now)) }
{
    match value {
        Value::Doc(document) => Test::parse(alloc, document),
        _ => Err(FilterFault::BadOperand),
    }
}
