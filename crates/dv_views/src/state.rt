//! Whether a view has rows.

/// Whether a view has its rows.
#[derive(Clone, Copy, Debug, PartialEq, Eq)]
pub enum ViewState {
    /// It has the rows of its pipeline.
    Live,
    /// It has none, and has to be recomputed.
    Stale,
}
