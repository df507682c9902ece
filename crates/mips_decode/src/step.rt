//! What a unit step tells besides the new state.

/// The place of return, where the entry's caller goes on: the entry has returned when the next unit would be here.
pub const RETURN_ADDRESS: u32 = 0xFFFF_FFF0;

/// Why a unit traps. The order is that in which several causes of one instruction are looked for.
#[derive(Clone, Copy, Debug, PartialEq, Eq)]
pub enum TrapKind {
    /// A sum or difference of ADD, ADDI or SUB doesn't fit 32 signed bits.
    Overflow,
    /// The address of a load or store isn't a multiple of its size.
    Misaligned,
    /// No one region holds all bytes of a load or store.
    Outside,
    /// A store goes to a region that can't be written.
    ReadOnly,
    /// No executable word stands at the address.
    Fetch,
    /// The word is no instruction, or a jump or branch in a delay slot.
    Unknown,
    /// SYSCALL.
    Syscall,
    /// BREAK.
    Break,
}

/// The load or store of a unit: its address, its size in bytes, and whether it stores.
/// That of LWL, LWR, SWL and SWR is the whole aligned word.
#[derive(Clone, Copy, Debug, PartialEq, Eq)]
pub struct Touched {
    /// The address of the first byte.
    pub address: u32,
    /// How many bytes: 1, 2 or 4.
    pub size: u32,
    /// Whether it is a store; else it is a load.
    pub store: bool,
}

/// What an access of memory is for.
#[derive(Clone, Copy, Debug, PartialEq, Eq)]
pub enum AccessKind {
    /// The fetch of the unit's instruction.
    Fetch,
    /// The fetch of the instruction in the delay slot.
    Slot,
    /// The load that the unit makes.
    Load,
    /// The store that the unit makes.
    Store,
}

/// The registers: the 32 general ones, and HI and LO. No instruction writes register 0.
#[derive(Clone, Copy, Debug, PartialEq, Eq)]
pub struct Regs {
    /// The general registers, by their numbers.
    pub general: [u32; 32],
    /// The upper half of a product, or the remainder of a division.
    pub hi: u32,
    /// The lower half of a product, or the quotient of a division.
    pub lo: u32,
}
