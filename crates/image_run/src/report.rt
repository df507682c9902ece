//! What is told of a run.

use mips_machine::{Tally, TrapKind};
use wcet_io::List;

/// How a run came to its end.
#[derive(Clone, Copy, Debug, PartialEq, Eq)]
pub enum Stop {
    /// Its entry returned.
    Returned,
    /// A unit trapped at an address.
    Trap { kind: TrapKind, address: u32 },
    /// The profile's number of units was done without a return or a trap.
    Steps,
}

/// Which rule a unit breaks. Of several rules the first one in this order is told.
#[derive(Clone, Copy, Debug, PartialEq, Eq)]
pub enum BrokenKind {
    /// The header of a loop is visited more often than its bound from one entering to the next.
    Loop,
    /// A JALR, or a JR of another register than 31, went to a target that isn't recorded for it.
    Target,
    /// A load or store touched a byte outside a range recorded for it.
    Range,
    /// A `jr $31` didn't go to where the innermost open call belongs.
    Return,
}

/// Whether a run keeps the records and returns to its callers, as far as it went.
#[derive(Clone, Copy, Debug, PartialEq, Eq)]
pub enum Verdict {
    Kept,
    /// The first unit that breaks a rule: the address of the loop's header, of the transfer, or of the load or store.
    Broken { kind: BrokenKind, address: u32 },
}

/// What is told of a run.
#[derive(Debug, Drop)]
pub struct RunReport {
    pub stop: Stop,
    pub cycles: u64,
    /// How many units were done, without one that trapped.
    pub steps: u64,
    /// The tally of each cache, in the profile's order.
    pub caches: List<Tally>,
    pub verdict: Verdict,
}
