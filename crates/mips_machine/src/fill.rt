//! What a start puts into memory.

use wcet_io::List;

/// Bytes that a start puts into one writable region, from an address on.
#[derive(Debug, Drop)]
pub struct Fill {
    /// The address of the first byte.
    pub address: u32,
    /// The bytes, in the order of their addresses; none change nothing.
    pub bytes: List<u8>,
}
