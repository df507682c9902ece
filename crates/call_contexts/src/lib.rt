//! The net of a program: its functions in their contexts.
#![tactic(auto)]

mod accesses;
mod arcs;
mod around;
mod calls;
mod contexts;
mod fault;
mod index;
mod instances;
mod layout;
mod program;
mod scopes;
mod sizes;
mod spots;
#[cfg(test)]
mod tests;

pub use fault::NetFault;
pub use program::expand;
