//! Changes of lists of rows.
#![tactic(auto)]

mod chain;
mod change;
mod handing;
mod head;
mod input;
mod keeping;
pub mod laws;
mod lent;
mod operator;
mod operators;
mod ordered;
mod packed;
mod part_code;
mod place;
mod position;
mod taking;
mod ticks;
mod told_rows;
mod turn;

pub use chain::Chain;
pub use change::Change;
pub use handing::{hand_over, hand_over_at};
pub use input::Input;
pub use keeping::Keeping;
pub use operator::Operator;
pub use operators::Operators;
pub use ordered::Ordered;
pub use position::{Part, Pos};
pub use taking::{Taken, row_alone, take_in};
pub use ticks::Ticks;
pub use told_rows::ToldRows;
pub use turn::Turn;
