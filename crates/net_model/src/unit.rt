//! Units of code, and why an address holds none.

use mips_decode::Instr;

/// Why a program's code is refused, in the order in which faults are answered.
#[derive(Clone, Copy, Debug, PartialEq, Eq)]
pub enum CodeKind {
    /// A reached word lies in a segment that can be executed and written. The place is its address.
    WritableCode,
    /// A reached address holds no executable word, or one of no instruction. The place is the address.
    UnknownWord,
    /// A delay slot holds a jump or branch. The place is the slot's address.
    TransferInSlot,
    /// A reached indirect jump or call has no recorded target. The place is its address.
    UnknownTarget,
    /// A reached JALR links to another register than 31. The place is its address.
    LinkRegister,
    /// A function calls itself, directly or through others. The place is its entry.
    Recursion,
    /// A unit lies on a cycle that has no back arc. The place is its address.
    Irreducible,
    /// A loop has no recorded bound. The place is its header's address.
    NoBound,
}

/// What one step of the machine does: a plain instruction, or a jump or branch with the instruction
/// in its delay slot.
#[derive(Clone, Copy, Debug, PartialEq, Eq)]
pub struct CodeUnit {
    /// The instruction at its address.
    pub instr: Instr,
    /// The instruction in the delay slot; just a jump or branch has one.
    pub slot: Option<Instr>,
}

/// What stands at an address: a unit, or the first fault that keeps one from standing there, with its
/// place.
#[derive(Clone, Copy, Debug, PartialEq, Eq)]
pub enum Content {
    /// A unit.
    Unit(CodeUnit),
    /// A fault: its kind, and its place as `CodeKind` says it.
    Fault { kind: CodeKind, place: u32 },
}
