//! Stages that take one row at a time: expressions, `$project` and `$unwind`.
#![tactic(auto)]

mod asked;
mod conflict;
mod expr;
mod expr_parsing;
mod fault;
mod field_path;
pub mod laws;
mod level;
mod paths;
mod project;
mod row_value;
mod switch;
mod unwind;
mod unwound_rows;
mod way;
mod ways;

pub use expr::{Computed, ComputedField, Expr, copy_beside, push_field};
pub use fault::PipelineFault;
pub use paths::Paths;
pub use project::Project;
pub use row_value::RowValue;
pub use unwind::Unwind;
pub use unwound_rows::UnwoundRows;
