//! The operators for `$match`, `$project`, `$unwind`, `$sort` and `$limit`. What all operators have in common is in `dv_change`,
//! which knows no stage, so that other crates can have operators too.
#![tactic(auto)]

mod by_row;
pub mod laws;
mod limit;
mod limit_turn;
mod matching;
mod project;
mod row_turn;
mod sort;
mod unwind;

pub use by_row::{ByRow, RowOperator, RowsApart};
pub use dv_change::{Chain, Change, Input, Part, Pos, Ticks, Turn};
pub use limit::LimitOperator;
pub use limit_turn::LimitTurn;
pub use matching::MatchTurn;
pub use project::ProjectTurn;
pub use row_turn::RowTurn;
pub use sort::SortTurn;
pub use unwind::UnwindTurn;
