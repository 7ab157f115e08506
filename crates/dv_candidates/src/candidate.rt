//! Candidates: where a path leads.

use dv_value::Value;

/// Where a path leads in a document.
#[derive(Clone, Copy, Debug)]
pub enum Candidate<'a> {
    /// To a value.
    Found(&'a Value),
    /// To nothing.
    Missing,
}
