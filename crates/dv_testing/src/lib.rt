//! What tests share: documents by their bytes, messages, and readers and writers that fail.
#![tactic(auto)]

pub mod fakes;
pub mod messages;
pub mod spelled;
