//! The addresses that the accesses of a net may go to.
#![tactic(auto)]

mod ranges;
#[cfg(test)]
mod tests;

pub use ranges::{Ranges, own_ranges};
