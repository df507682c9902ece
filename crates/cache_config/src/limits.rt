//! The limits of a profile's numbers.

use mips_decode::RETURN_ADDRESS;

/// The most cycles of an access of memory, of a store and of an instruction.
pub(crate) const MOST_CYCLES: u64 = 1_000_000;

/// The most splits that the search for a bound may make.
pub(crate) const MOST_SPLITS: u64 = 1_000_000;

/// The most steps that a run may make.
pub(crate) const MOST_STEPS: u64 = 100_000_000;

/// The fewest bytes of the stack.
pub(crate) const LEAST_STACK: u64 = 64;

/// The most bytes of the stack, and of a region.
pub(crate) const MOST_BYTES: u64 = 16_777_216;

/// The bytes above the stack's top that belong to the stack: the area of its caller's arguments (System V ABI, MIPS
/// processor supplement).
pub const AREA_ABOVE: u64 = 64;

/// The end of all memory: the place of return.
pub(crate) const MEMORY_END: u64 = RETURN_ADDRESS as u64;

/// The most regions.
pub(crate) const MOST_REGIONS: usize = 16;

/// The most caches.
pub(crate) const MOST_CACHES: usize = 6;

/// The most caches that an access may go through.
pub(crate) const MOST_CHAIN: usize = 3;

/// The most sets of a cache.
pub(crate) const MOST_SETS: u64 = 1024;

/// The most blocks of a set.
pub(crate) const MOST_WAYS: u64 = 16;

/// The fewest and the most bytes of a block.
pub(crate) const LEAST_LINE: u64 = 4;

pub(crate) const MOST_LINE: u64 = 256;

/// The most cycles of a visit of a cache.
pub(crate) const MOST_LATENCY: u64 = 1_000_000;
