//! Where instructions go on and what they call by themselves, and which of them need recorded targets.

ghost use Rattle.std.specs.Prelude.{◌≡◌, ◌+◌, ◌<◌, ◌^◌, ◌&&◌, ◌∷◌, [], false, if◌then◌else◌};
ghost use Rattle.elf_mips.specs.declared.image.Image.{Image};
ghost use Rattle.mips_decode.specs.Table.{IsValid};
ghost use Rattle.mips_decode.specs.Transfer.{branch_links, branch_target};
ghost use Rattle.net_model.specs.Flow.{callees, own_ways, passed_way};
ghost use Rattle.net_model.specs.Onward.{branch_ways, may_be_taken};
ghost use Rattle.code_units.specs.Sets.{IsSetOf};
ghost use Rattle.code_units.specs.Transfers.{is_indirect, is_register_call};
ghost use Rattle.code_units.specs.Ways.{listed};

use crate::ways::{Ways, branch_ways, may_be_passed, may_be_taken};
use mips_decode::{BranchOp, Instr, branch_links, branch_target, jump_target};

/// Whether an instruction is JR of another register than 31, which goes to recorded targets.
pub fn is_indirect(instr: &Instr) -> bool
    ensures { result ≡ is_indirect instr.now }
{
    match *instr {
        Instr::JumpReg { rs } => !(rs.number() == 31),
        _ => false,
    }
}

/// Whether an instruction is JALR, which calls recorded targets.
pub fn is_register_call(instr: &Instr) -> bool
    ensures { result ≡ is_register_call instr.now }
{
    match *instr {
        Instr::JumpLink { .. } => true,
        _ => false,
    }
}

/// BLTZAL and BGEZAL go on behind their slot where they may be not taken.
fn passed_way(op: BranchOp, rs: u32, rt: u32, address: u32) -> Ways
    requires { address + 8 < 2 ^ 32 }
    ensures { IsSetOf (passed_way op rs rt address) (listed result) }
{
    if may_be_passed(op, rs, rt) {
        Ways::One(address + 8)
    } else {
        Ways::Nowhere
    }
}

/// Where a branch goes on without waiting for a call.
fn branch_on(op: BranchOp, rs: u32, rt: u32, offset: u16, address: u32) -> Ways
    requires { address + 8 < 2 ^ 32 }
    ensures { IsSetOf (if branch_links op then passed_way op rs rt address else branch_ways op rs rt offset address)
        (listed result) }
{
    if branch_links(op) {
        passed_way(op, rs, rt, address)
    } else {
        branch_ways(op, rs, rt, offset, address)
    }
}

/// Where an instruction goes on without waiting for a call, if it needs no recorded target to do so.
pub fn own_ways(instr: &Instr, address: u32) -> Ways
    requires valid { IsValid instr.now }
    requires low { address + 8 < 2 ^ 32 }
    requires own { is_indirect instr.now ≡ false }
    ensures { (image : Image) → IsSetOf (own_ways image instr.now address) (listed result) }
{
    match *instr {
        Instr::Branch { op, rs, rt, offset } => {
            branch_on(op, rs.number(), rt.number(), offset, address)
        }
        Instr::Jump { link: false, index } => Ways::One(jump_target(address, index)),
        Instr::Jump { link: true, .. } => Ways::Nowhere,
        Instr::JumpReg { rs } if rs.number() == 31 => Ways::Nowhere,
        Instr::JumpReg { .. } => unreachable!(),
        Instr::JumpLink { .. } => Ways::Nowhere,
        _ => Ways::One(address + 4),
    }
}

/// What a branch calls.
fn branch_callee(op: BranchOp, rs: u32, rt: u32, offset: u16, address: u32) -> Ways
    ensures { IsSetOf (if branch_links op && may_be_taken op rs rt then branch_target address offset ∷ [] else [])
        (listed result) }
{
    if branch_links(op) && may_be_taken(op, rs, rt) {
        Ways::One(branch_target(address, offset))
    } else {
        Ways::Nowhere
    }
}

/// What an instruction calls, if it needs no recorded target to do so.
pub fn own_callee(instr: &Instr, address: u32) -> Ways
    requires valid { IsValid instr.now }
    requires low { address + 8 < 2 ^ 32 }
    requires own { is_register_call instr.now ≡ false }
    ensures { (image : Image) → IsSetOf (callees image instr.now address) (listed result) }
{
    match *instr {
        Instr::Branch { op, rs, rt, offset } => {
            branch_callee(op, rs.number(), rt.number(), offset, address)
        }
        Instr::Jump { link: true, index } => Ways::One(jump_target(address, index)),
        Instr::JumpLink { .. } => unreachable!(),
        _ => Ways::Nowhere,
    }
}
