//! The loops of a program's functions and their bounds.
#![tactic(auto)]

mod bodies;
mod bounds;
mod find;
mod irreducible;
mod listing;
mod nest;
mod plan;
mod ranks;
mod recorded;
mod removal;
mod retreats;
mod table;
#[cfg(test)]
mod tests;

pub use find::find_loops;
pub use nest::{Loop, Nests};
