//! The integer program of a net, its crude bound, and what a certificate of a bound is.
#![tactic(auto)]

mod adding;
mod arc_rows;
mod arcs;
mod assemble;
mod certificate;
#[cfg(test)]
mod class_rows;
mod counts;
mod crude;
mod fault;
#[cfg(test)]
mod forward;
mod growing;
mod leaf;
#[cfg(test)]
mod leaf_tests;
mod leaves;
mod loops;
mod places;
mod price;
mod prices;
mod program;
mod rows;
mod rules;
mod shows;
mod split;
mod stage_rows;
#[cfg(test)]
mod stage_tests;
mod stages;
mod staging;
#[cfg(test)]
mod standing;
#[cfg(test)]
mod tests;
mod turns;

pub use assemble::build;
pub use certificate::{Certificate, Count, Node};
pub use counts::are_counts;
pub use fault::BuildFault;
pub use leaf::{Leaf, LeafFault, Side2, Weight};
pub use leaves::{leaf_fault, least_bound, shows_leaf};
pub use program::{Program, Row, Stage, Term};
pub use split::{Range, first_part, is_parted, is_split, narrowed, second_part, whole_range};
