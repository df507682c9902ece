//! A run of an image as the machine, from empty caches and zero registers, and how far it keeps the records and
//! returns to its callers.
#![tactic(auto)]

mod course;
mod follow;
mod link;
mod ranges;
mod report;
mod road;
mod run;
mod spots;
#[cfg(test)]
mod tests;
mod turns;

pub use report::{BrokenKind, RunReport, Stop, Verdict};
pub use run::run_image;
