//! Files that are named in the program's arguments: loading their documents into a store, and checking a file.
#![tactic(auto)]

mod load;
mod named;
mod progress;

pub use load::load_file;
pub use named::{check_file, load_all};
