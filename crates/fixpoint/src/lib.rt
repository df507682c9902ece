//! The states before the places of a net: a table closed along its arcs, by a worklist that takes the places deepest in
//! loops first (Cousot and Cousot 1977; Bourdoncle 1993).
#![tactic(auto)]

mod going;
#[cfg(test)]
mod settling_tests;
mod solving;
mod table;
#[cfg(test)]
mod tests;
mod upward;
mod waiting;

pub use solving::solve;
pub use table::Table;
pub use upward::is_upward;
