//! Letters and classes of the accesses of a net at the caches of their chains (Hardy and Puaut 2008).
#![tactic(auto)]

mod classes;
mod rows;
#[cfg(test)]
mod tests;

pub use classes::classify;
