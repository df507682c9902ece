//! How a unit ended.

use mips_decode::TrapKind;

/// The program goes on, its entry has returned, or the unit trapped at an address.
#[derive(Clone, Copy, Debug, PartialEq, Eq)]
pub enum Outcome {
    /// The unit was done, and the next one stands at the program counter.
    Going,
    /// The unit was done, and the program counter is at the place of return: the entry's caller goes on.
    Returned,
    /// The unit was not done, and nothing changed: why, and the address of the instruction that trapped, that of the slot
    /// where its instruction did.
    Trap { kind: TrapKind, address: u32 },
}
