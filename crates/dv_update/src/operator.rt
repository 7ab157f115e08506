//! The operators of updates, by name.

ghost use Rattle.std.specs.Prelude.{◌≡◌};
ghost use Rattle.dv_update.specs.Parsing as defined;

/// An operator of an update.
#[derive(Clone, Copy)]
pub(crate) enum Operator {
    Set,
    Unset,
    Inc,
    Push,
    Pull,
}

/// The operator of this name.
#[tactic(auto, unfolding(crate::specs::Parsing::operator_named))]
pub(crate) fn operator_named(name: &str) -> Option<Operator>
    ensures { result ≡ defined.operator_named name.now }
{
    match name {
        "$set" => Some(Operator::Set),
        "$unset" => Some(Operator::Unset),
        "$inc" => Some(Operator::Inc),
        "$push" => Some(Operator::Push),
        "$pull" => Some(Operator::Pull),
        _ => None,
    }
}
