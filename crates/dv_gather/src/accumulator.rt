//! What is computed from the values of a group's rows.

/// What is computed from the values of a group's rows.
#[derive(Clone, Copy, Debug, PartialEq, Eq)]
pub enum Accumulator {
    /// `$sum`: the sum of the numbers among them.
    Sum,
    /// `$min`: the least value except null, or null if there is none.
    Min,
    /// `$max`: the greatest value except null, or null if there is none.
    Max,
    /// `$push`: all of them, in their order.
    Push,
}
