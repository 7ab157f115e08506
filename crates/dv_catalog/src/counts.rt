//! The counts of a statement.

/// How many documents a statement that was carried out counts, and how many changes it made.
#[derive(Clone, Copy, Debug)]
pub struct Counted {
    pub matched: usize,
    pub changed: usize,
}

/// The counts of a statement that does nothing.
pub(crate) const NOTHING: Counted = Counted {
    matched: 0,
    changed: 0,
};
