//! Tables of steps between positions: searches, orders and cycles.
#![tactic(auto)]

mod cycles;
mod finishing;
mod listing;
mod rings;
mod search;
mod table;
#[cfg(test)]
mod tests;

pub use cycles::first_cyclic;
pub use finishing::order_of;
pub use listing::list_met;
pub use rings::cyclic_positions;
pub use search::{met_from, steps_at};
pub use table::{position_of, reverse_of, steps_to};
