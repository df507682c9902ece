//! Lists of items by number, kept by links: each item stands in at most one of them.
#![tactic(auto)]

mod rings;
mod table;
#[cfg(test)]
mod tests;

pub use table::LinkTable;
