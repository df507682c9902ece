//! The units of a program's code: what stands at an address, where it goes on, and what it calls.
#![tactic(auto)]

mod content;
mod linked;
mod targets;
#[cfg(test)]
mod tests;
mod transfers;
mod ways;

pub use content::content_at;
pub use linked::unit_at;
pub use targets::{targets_at, targets_of};
pub use transfers::{is_indirect, is_register_call, own_callee, own_ways};
pub use ways::{Ways, is_link_passed, load_of, returns, stops};
