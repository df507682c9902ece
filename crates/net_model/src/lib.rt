//! What an image's code means as a graph: the units that stand at its addresses, how they go on, and
//! which of them are reached. Several crates cite these definitions; they stand under `specs/`.
#![tactic(auto)]

mod unit;

pub use unit::{CodeKind, CodeUnit, Content};
