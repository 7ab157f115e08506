//! Files of documents: reading one to its end, checking one, and why one is not loaded.
#![tactic(auto)]

pub mod check;
pub mod fault;
pub mod file;
pub mod laws;
