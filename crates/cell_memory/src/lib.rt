//! Word cells: what the analysis knows of the words of memory.
#![tactic(auto)]

mod cells;
mod lattice;
mod storing;
mod stretch;
#[cfg(test)]
mod tests;
mod words;

pub use cells::Cells;
pub use stretch::Stretch;
