//! The machine: it runs a program's units one after the other and counts their cycles.
#![tactic(auto)]

#[cfg(test)]
mod cache_tests;
mod caches;
mod clash;
mod cost;
mod fill;
mod fillable;
mod index;
mod machine;
mod memory;
mod outcome;
mod region;
#[cfg(test)]
mod tests;
mod unit;

pub use caches::Tally;
pub use clash::clash_place;
pub use fill::Fill;
pub use fillable::are_fillable;
pub use machine::Machine;
pub use mips_decode::{Regs, Touched, TrapKind};
pub use outcome::Outcome;
