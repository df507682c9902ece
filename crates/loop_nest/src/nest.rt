//! Loops and nests of loops.

use wcet_io::List;

/// A loop of a function.
#[derive(Debug, Drop)]
pub struct Loop {
    /// The address of the unit that each way into the loop comes to first.
    pub header: u32,
    /// The addresses of its units, the header's among them, rising.
    pub body: List<u32>,
    /// How many times the header is done at most in one stay, by the records that name the loop.
    pub bound: u32,
}

/// For each function its loops, by rising header.
#[derive(Debug, Drop)]
pub struct Nests {
    pub nests: List<List<Loop>>,
}
