//! Profiles: what a machine's instructions and memory cost, and where a program's data may lie.
#![tactic(auto)]

mod arrays;
mod caches;
mod chains;
mod checks;
mod costs;
mod fault;
mod first;
mod keys;
mod limits;
mod paths;
mod profile;
mod read;
mod spans;
mod values;

pub use fault::ConfigFault;
pub use limits::AREA_ABOVE;
pub use profile::{Cycles, Profile, Region};
pub use read::read_profile;

#[cfg(test)]
mod cache_tests;
#[cfg(test)]
mod fault_tests;
#[cfg(test)]
mod limit_tests;
#[cfg(test)]
mod region_tests;
#[cfg(test)]
mod test_texts;
#[cfg(test)]
mod tests;
#[cfg(test)]
mod value_tests;
