//! Strided values: what the analysis knows of a register or a word of memory.
#![tactic(auto)]

mod bits;
mod comparisons;
mod divisors;
mod lattice;
mod operations;
mod shifts;
mod strided;
mod sums;
#[cfg(test)]
mod tests;

pub use strided::Strided;
