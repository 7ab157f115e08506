//! Scripts: lines with bytes of sessions, and what is printed for them.
#![tactic(auto)]

mod input;
pub mod laws;
mod output;
pub mod script;
mod sessions;

pub use input::run_script;
