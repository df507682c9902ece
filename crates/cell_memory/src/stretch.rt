//! Stretches of memory.

/// The addresses from a first one to a last one.
#[derive(Clone, Copy, Debug, PartialEq, Eq)]
pub struct Stretch {
    /// The first address.
    pub first: u32,
    /// The last address.
    pub last: u32,
}
