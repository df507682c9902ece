//! The greatest value of the program of a nested net, and the counts and the multipliers that show it.
#![tactic(auto)]

mod arrivals;
mod base;
mod bound;
mod counts;
mod depths;
mod entered;
mod groups;
mod headers;
mod leaf;
mod order;
mod put_back;
mod raise;
mod reads;
mod scopes;
mod solve;
mod sweep;
mod tables;
#[cfg(test)]
mod tests;
mod turns;
mod up;
mod values;
mod walk;

pub use bound::nest_bound;
pub use counts::nest_counts;
