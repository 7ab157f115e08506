//! Cursors, which return rows batch by batch.
#![tactic(auto)]

mod cursor;
mod cursors;
pub mod laws;
mod rows;

pub use cursors::Cursors;
pub use rows::Rows;
