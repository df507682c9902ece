//! What branches and units may do: which branches are taken or passed, and which units stop, return
//! or load.

ghost use Rattle.std.specs.Prelude.{◌≡◌, ◌∷◌, [], ◌+◌, ◌<◌, ◌^◌};

use mips_decode::{BranchOp, Instr, branch_links, branch_target};
use net_model::CodeUnit;

/// A set of at most two addresses, rising.
#[derive(Clone, Copy, Debug, PartialEq, Eq)]
pub enum Ways {
    /// No address.
    Nowhere,
    /// One address.
    One(u32),
    /// Two addresses, the lesser one first.
    Two(u32, u32),
}

ghost use Rattle.net_model.specs.Onward.{branch_ways, is_link_passed, is_load, is_return, is_stop, load_of, may_be_passed, may_be_taken, returns, stops};
ghost use Rattle.code_units.specs.Sets.{IsSetOf};
ghost use Rattle.code_units.specs.Ways.{listed};

/// Whether a branch may be taken: a register equals itself, and register 0 is zero.
pub fn may_be_taken(op: BranchOp, rs: u32, rt: u32) -> bool
    ensures { result ≡ may_be_taken op rs rt }
{
    match op {
        BranchOp::Bne => !(rs == rt),
        BranchOp::Bgtz => !(rs == 0),
        BranchOp::Bltz => !(rs == 0),
        BranchOp::Bltzal => !(rs == 0),
        _ => true,
    }
}

/// Whether a branch may be not taken.
pub fn may_be_passed(op: BranchOp, rs: u32, rt: u32) -> bool
    ensures { result ≡ may_be_passed op rs rt }
{
    match op {
        BranchOp::Beq => !(rs == rt),
        BranchOp::Blez => !(rs == 0),
        BranchOp::Bgez => !(rs == 0),
        BranchOp::Bgezal => !(rs == 0),
        _ => true,
    }
}

fn is_stop(instr: &Instr) -> bool
    ensures { result ≡ is_stop instr.now }
{
    match *instr {
        Instr::Stop { .. } => true,
        _ => false,
    }
}

/// Whether the unit's instruction or its slot is SYSCALL or BREAK, which end a run.
pub fn stops(unit: &CodeUnit) -> bool
    ensures { result ≡ stops unit.now }
{
    match unit.slot {
        Some(slot) => is_stop(&unit.instr) || is_stop(&slot),
        None => is_stop(&unit.instr),
    }
}

fn is_return(instr: &Instr) -> bool
    ensures { result ≡ is_return instr.now }
{
    match *instr {
        Instr::JumpReg { rs } => rs.number() == 31,
        _ => false,
    }
}

/// Whether a unit returns from its function, by `jr $31`.
pub fn returns(unit: &CodeUnit) -> bool
    ensures { result ≡ returns unit.now }
{
    !stops(unit) && is_return(&unit.instr)
}

/// Whether an instruction is BLTZAL or BGEZAL that may be not taken.
pub fn is_link_passed(instr: &Instr) -> bool
    ensures { result ≡ is_link_passed instr.now }
{
    match *instr {
        Instr::Branch { op, rs, rt, .. } => {
            branch_links(op) && may_be_passed(op, rs.number(), rt.number())
        }
        _ => false,
    }
}

fn is_load(instr: &Instr) -> bool
    ensures { result ≡ is_load instr.now }
{
    match *instr {
        Instr::Load { .. } => true,
        _ => false,
    }
}

/// The address of the unit's instruction or slot that loads.
pub fn load_of(unit: &CodeUnit, address: u32) -> Option<u32>
    requires { address + 8 < 2 ^ 32 }
    ensures { result ≡ load_of unit.now address }
{
    if is_load(&unit.instr) {
        return Some(address);
    }
    match unit.slot {
        Some(slot) if is_load(&slot) => Some(address + 4),
        _ => None,
    }
}

/// The set of two addresses.
fn pair(first: u32, second: u32) -> Ways
    ensures { IsSetOf (first ∷ second ∷ []) (listed result) }
{
    if first < second {
        Ways::Two(first, second)
    } else if second < first {
        Ways::Two(second, first)
    } else {
        Ways::One(first)
    }
}

/// The ways of a branch: to its target where it may be taken, behind its slot where it may be not
/// taken.
pub fn branch_ways(op: BranchOp, rs: u32, rt: u32, offset: u16, address: u32) -> Ways
    requires { address + 8 < 2 ^ 32 }
    ensures { IsSetOf (branch_ways op rs rt offset address) (listed result) }
{
    let target = branch_target(address, offset);
    let behind = address + 8;
    match (may_be_taken(op, rs, rt), may_be_passed(op, rs, rt)) {
        (true, true) => pair(target, behind),
        (true, false) => Ways::One(target),
        (false, true) => Ways::One(behind),
        (false, false) => Ways::Nowhere,
    }
}
