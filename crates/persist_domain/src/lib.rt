//! Conflicts of one block in its cache set: the blocks that may have been touched since its last touch. While they are
//! fewer than the ways, the block stays in the set (Mueller 2000; Cullmann 2013).
#![tactic(auto)]

mod lattice;
mod state;
#[cfg(test)]
mod tests;
mod touch;

pub use state::Conflicts;
