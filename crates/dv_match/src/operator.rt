//! The operators of conditions, by name.

ghost use Rattle.std.specs.Prelude.{◌≡◌};
ghost use Rattle.dv_match.specs.Parsing as defined;

/// An operator of a condition.
#[derive(Clone, Copy)]
pub(crate) enum Operator {
    Eq,
    Ne,
    Gt,
    Gte,
    Lt,
    Lte,
    In,
    Nin,
    Not,
    All,
    Exists,
    Size,
    ElemMatch,
}

/// The operator of this name.
#[tactic(auto, unfolding(crate::specs::Parsing::operator_named))]
pub(crate) fn operator_named(name: &str) -> Option<Operator>
    ensures { result ≡ defined.operator_named name.now }
{
    match name {
        "$eq" => Some(Operator::Eq),
        "$ne" => Some(Operator::Ne),
        "$gt" => Some(Operator::Gt),
        "$gte" => Some(Operator::Gte),
        "$lt" => Some(Operator::Lt),
        "$lte" => Some(Operator::Lte),
        "$in" => Some(Operator::In),
        "$nin" => Some(Operator::Nin),
        "$not" => Some(Operator::Not),
        "$all" => Some(Operator::All),
        "$exists" => Some(Operator::Exists),
        "$size" => Some(Operator::Size),
        "$elemMatch" => Some(Operator::ElemMatch),
        _ => None,
    }
}

/// Whether a name takes a list of filters.
pub(crate) fn takes_filters(name: &str) -> bool
    ensures { result ≡ defined.takes_filters name.now }
{
    name == "$and" || name == "$or" || name == "$nor"
}
