//! What an event costs: caches that replace the block that was referred to least recently, and predictors of branches.
#![tactic(auto)]

mod cache;
mod caches;
mod geometry;
mod predictors;
mod run_costs;
mod ways;

pub use cache::Cache;
pub use caches::Caches;
pub use geometry::Geometry;
pub use predictors::Predictors;
pub use run_costs::RunCosts;
