//! Why a command is refused.
#![tactic(auto)]

mod refusal;

pub use refusal::Refusal;
