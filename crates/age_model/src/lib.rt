//! What the accesses of a run do to caches, moment after moment, and to the blocks of one cache set, and what a class table
//! says of it: the ground of all analyses of caches. Several crates cite these definitions; they stand under `specs/`.
#![tactic(auto)]

mod candidates;
mod kinds;

pub use candidates::Candidates;
pub use kinds::kind_of;
