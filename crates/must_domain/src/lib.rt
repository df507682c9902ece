//! Upper ages of the blocks of one cache set, which tell the blocks that are surely there (Ferdinand and Wilhelm 1999).
#![tactic(auto)]

mod change;
mod lattice;
mod state;
#[cfg(test)]
mod tests;
mod touch;

pub use state::Upper;
