//! The net of a program, what its scopes hold, and what is known of its accesses at the caches.
#![tactic(auto)]

mod letter;
mod net;
mod scope;
#[cfg(test)]
mod tests;

pub use letter::{Class, ClassTable, Letter, Level2, letter_after};
pub use net::{Access, Context, LoopInst, Net, NetArc, Place, Role};
