//! The order of BSON values, and keys in this order.
#![tactic(auto)]

mod classes;
mod code;
mod comparison;
mod key;
pub mod laws;
mod lent;
mod padding;
mod placed;
mod same;
mod shown;
mod small;
mod source;

pub use classes::{class_end, class_start};
pub use code::KeyCode;
pub use comparison::{compare, same_class};
pub use key::{Key, key_of, replace_under_first};
pub use lent::LentKey;
pub use padding::{padded, text_in};
pub use same::{is_same, same_documents};
