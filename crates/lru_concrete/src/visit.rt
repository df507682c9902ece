//! What an access visits.

/// What one access visited.
#[derive(Clone, Copy, Debug, PartialEq, Eq)]
pub struct Visit {
    /// How many caches, in the order of its chain.
    pub caches: u32,
    /// Whether the last of them held the block; if not, memory was visited too.
    pub hit: bool,
    /// The latencies of all that was visited.
    pub cycles: u64,
}
