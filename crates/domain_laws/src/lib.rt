//! Lattices of state: the laws that a domain of an analysis owes, and the ways to put domains together.
//!
//! A domain is a type of abstract states, ordered by what they know: one state is under another one where it
//! knows at least as much. Analyses join the states of several ways to a place, and widen where a join would
//! rise too slowly (Cousot and Cousot 1977). What a domain means stands in ghost functions: its shapes `has`,
//! its order `leq`, `joined`, `widened` and `rank`. The methods equal these functions, and the laws below the
//! methods speak of the functions alone. A new domain gives the functions, the methods and a proof of each law.
#![tactic(auto)]

mod capped;
mod entries;
mod keyed;
mod lattice;
mod option;
mod pair;
mod rising;
#[cfg(test)]
mod tests;
mod transfer;
mod uncertain;

pub use capped::Capped;
pub use entries::{put_in, value_in};
pub use keyed::Keyed;
pub use lattice::{Height, Lattice, Widen};
pub use transfer::Transfer;
pub use uncertain::maybe;
