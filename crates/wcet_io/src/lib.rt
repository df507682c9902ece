//! The outside as the analyser sees it, files and output, and the list that public types hold.
#![tactic(auto)]

mod delivery;
mod list;
mod memory_shelf;
mod memory_sink;
mod sink;
mod source;
#[cfg(test)]
mod tests;
mod whole;

pub use delivery::deliver;
pub use list::List;
pub use memory_shelf::MemShelf;
pub use memory_sink::MemSink;
pub use sink::Sink;
pub use source::{Failed, Shelf};
pub use whole::{GatherFault, gather};
