//! The inputs of a stage.

/// Which of a stage's inputs a change is of.
#[derive(Clone, Copy, Debug, PartialEq, Eq)]
pub enum Input {
    /// The rows of the stage before it, or of the source.
    Left,
    /// One of the lists that the stage reads by `$lookup`, counted from 0.
    Named(usize),
}
