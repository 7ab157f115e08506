//! How a range operator compares.

/// How a value compares to a bound, within the bound's class.
#[derive(Clone, Copy, Debug, PartialEq, Eq)]
pub enum Range {
    /// `$gt`.
    Above,
    /// `$gte`.
    AtLeast,
    /// `$lt`.
    Below,
    /// `$lte`.
    AtMost,
}
