//! Caches with least-recently-used replacement, and chains of them.
#![tactic(auto)]

mod cache;
mod caches;
mod level;
mod order;
mod slots;
#[cfg(test)]
mod tests;
mod visit;

pub use cache::Cache;
pub use caches::Caches;
pub use level::{Level, Serves, Shape, Side};
pub use visit::Visit;
