//! Tables of a net that several analyses need, each made in one pass over its arcs or accesses.
#![tactic(auto)]

mod crossings;
mod depths;
mod numbers;
mod tables;

pub use crossings::{arcs_entering, loops_entered, scopes_left};
pub use depths::depths_of;
pub use tables::{accesses_at, arcs_into, arcs_out};
