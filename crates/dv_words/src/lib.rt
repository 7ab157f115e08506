//! The program's arguments, the lines of its scripts, and why it ends.
#![tactic(auto)]

pub mod fault;
pub mod line;
pub mod said;
pub mod words;
