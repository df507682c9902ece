//! The graph of a program's functions: which units are reached, and how each goes on.
#![tactic(auto)]

#[cfg(test)]
mod call_tests;
mod fault;
mod first;
mod flow;
mod graph;
mod inference;
mod node;
mod program;
mod recursion;
mod rows;
mod search;
mod span;
#[cfg(test)]
mod tests;

pub use fault::CodeFault;
pub use first::{Offence, earlier};
pub use graph::{Graph, Graphs, function_graphs};
pub use net_model::CodeKind;
pub use node::Unit;
