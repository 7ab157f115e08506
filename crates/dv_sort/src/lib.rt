//! Sorting of BSON documents.
#![tactic(auto)]

pub mod laws;
mod order;
mod row;
mod sorter;

pub use sorter::Sorter;
