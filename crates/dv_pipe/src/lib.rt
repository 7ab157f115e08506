//! Aggregation pipelines over BSON documents.
#![tactic(auto)]

mod evaluation;
mod joined;
pub mod laws;
mod namespace;
mod pipeline;
mod run;
mod sources;
mod stage;
mod step;

pub use dv_gather::Lookup;
pub use dv_row::{Expr, Paths, PipelineFault, Project, Unwind};
pub use evaluation::{evaluate, rows_through};
pub use joined::filter_of_joined;
pub use pipeline::Pipeline;
pub use run::references;
pub use sources::Sources;
pub use stage::Stage;
