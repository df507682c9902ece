//! From an instruction to its word.

ghost use Rattle.mips_decode.specs.Decoded.{decoded};
ghost use Rattle.mips_decode.specs.Table.{HasSecond, IsValid, immediate_word, jump_word, register_word, stop_word, word_of};
ghost use Rattle.std.specs.Prelude.{◌≡◌, ◌↔◌, ◌<◌, ◌^◌, IsTrue, Option, ℕ};

use crate::instr::{BranchOp, HiLoOp, Instr, Reg};
use crate::numbers::{
    imm_number, load_number, mul_number, shift_number, stop_number, store_number, three_number,
};

/// A word of the register format whose op is 0.
fn register_word(rs: Reg, rt: Reg, rd: Reg, sa: u8, function: u32) -> u32
    requires shift { sa < 32 }
    requires function { function < 2 ^ 6 }
    ensures { result ≡ register_word 0 rs rt rd sa function }
{
    (rs.number() << 21)
        + (rt.number() << 16)
        + (rd.number() << 11)
        + (u32::from(sa) << 6)
        + function
}

/// A word of the immediate format.
fn immediate_word(op: u32, rs: Reg, rt: Reg, imm: u16) -> u32
    requires { op < 2 ^ 6 }
    ensures { result ≡ immediate_word op rs rt imm }
{
    (op << 26) + (rs.number() << 21) + (rt.number() << 16) + u32::from(imm)
}

/// The word of a move from or to HI or LO.
fn hi_lo_word(op: HiLoOp, reg: Reg) -> u32
    ensures { result ≡ word_of (Instr.HiLo op reg) }
{
    let zero = Reg::low(0);
    match op {
        HiLoOp::Mfhi => register_word(zero, zero, reg, 0, 16),
        HiLoOp::Mthi => register_word(reg, zero, zero, 0, 17),
        HiLoOp::Mflo => register_word(zero, zero, reg, 0, 18),
        HiLoOp::Mtlo => register_word(reg, zero, zero, 0, 19),
    }
}

/// The word of a branch.
fn branch_word(op: BranchOp, rs: Reg, rt: Reg, offset: u16) -> u32
    ensures { result ≡ word_of (Instr.Branch op rs rt offset) }
{
    match op {
        BranchOp::Bltz => immediate_word(1, rs, Reg::low(0), offset),
        BranchOp::Bgez => immediate_word(1, rs, Reg::low(1), offset),
        BranchOp::Bltzal => immediate_word(1, rs, Reg::low(16), offset),
        BranchOp::Bgezal => immediate_word(1, rs, Reg::low(17), offset),
        BranchOp::Beq => immediate_word(4, rs, rt, offset),
        BranchOp::Bne => immediate_word(5, rs, rt, offset),
        BranchOp::Blez => immediate_word(6, rs, Reg::low(0), offset),
        BranchOp::Bgtz => immediate_word(7, rs, Reg::low(0), offset),
    }
}

/// The word of J and JAL.
fn jump_word(link: bool, index: u32) -> u32
    requires { index < 2 ^ 26 }
    ensures { result ≡ word_of (Instr.Jump link index) }
{
    if link {
        (3 << 26) + index
    } else {
        (2 << 26) + index
    }
}

/// An instruction's fields put together.
fn word_of(instr: &Instr) -> u32
    requires { IsValid instr.now }
    ensures { result ≡ word_of instr.now }
{
    let zero = Reg::low(0);
    match *instr {
        Instr::Three { op, rd, rs, rt } => register_word(rs, rt, rd, 0, three_number(op)),
        Instr::Shift { op, rd, rt, by } => register_word(zero, rt, rd, by, shift_number(op)),
        Instr::HiLo { op, reg } => hi_lo_word(op, reg),
        Instr::MulDiv { op, rs, rt } => register_word(rs, rt, zero, 0, mul_number(op)),
        Instr::Imm { op, rt, rs, imm } => immediate_word(imm_number(op), rs, rt, imm),
        Instr::Lui { rt, imm } => immediate_word(15, zero, rt, imm),
        Instr::Load {
            op,
            rt,
            base,
            offset,
        } => immediate_word(load_number(op), base, rt, offset),
        Instr::Store {
            op,
            rt,
            base,
            offset,
        } => immediate_word(store_number(op), base, rt, offset),
        Instr::Branch { op, rs, rt, offset } => branch_word(op, rs, rt, offset),
        Instr::Jump { link, index } => jump_word(link, index),
        Instr::JumpReg { rs } => register_word(rs, zero, zero, 0, 8),
        Instr::JumpLink { rd, rs } => register_word(rs, zero, rd, 0, 9),
        Instr::Stop { op, code } => (code << 6) + stop_number(op),
    }
}

/// The word that the table has for an instruction whose fields are in their ranges (MIPS RISC Architecture, Kane and
/// Heinrich 1992, appendix A); `decode` gives the instruction back.
pub fn encode(instr: &Instr) -> u32
    requires { IsValid instr.now }
    ensures word { result ≡ word_of instr.now }
    ensures back { decoded result ≡ Some instr.now }
{
    word_of(instr)
}

/// Whether a branch that has no second register has register 0 there.
fn has_second(op: BranchOp, rt: Reg) -> bool
    ensures { IsTrue result ↔ HasSecond op rt }
{
    match op {
        BranchOp::Beq => true,
        BranchOp::Bne => true,
        BranchOp::Blez => rt.number() == 0,
        BranchOp::Bgtz => rt.number() == 0,
        BranchOp::Bltz => rt.number() == 0,
        BranchOp::Bgez => rt.number() == 0,
        BranchOp::Bltzal => rt.number() == 0,
        BranchOp::Bgezal => rt.number() == 0,
    }
}

impl Instr {
    /// Whether every field is in its range.
    pub fn valid(&self) -> bool
        ensures { IsTrue result ↔ IsValid self.now }
    {
        match *self {
            Instr::Three { rd, rs, rt, .. } => rd.in_range() && rs.in_range() && rt.in_range(),
            Instr::Shift { rd, rt, by, .. } => rd.in_range() && rt.in_range() && by < 32,
            Instr::HiLo { reg, .. } => reg.in_range(),
            Instr::MulDiv { rs, rt, .. } => rs.in_range() && rt.in_range(),
            Instr::Imm { rt, rs, imm, .. } => rt.in_range() && rs.in_range() && imm <= 0xffff,
            Instr::Lui { rt, imm } => rt.in_range() && imm <= 0xffff,
            Instr::Load {
                rt,
                base,
                offset,
                ..
            } => { rt.in_range() && base.in_range() && offset <= 0xffff }
            Instr::Store {
                rt,
                base,
                offset,
                ..
            } => { rt.in_range() && base.in_range() && offset <= 0xffff }
            Instr::Branch { op, rs, rt, offset } => {
                rs.in_range() && rt.in_range() && offset <= 0xffff && has_second(op, rt)
            }
            Instr::Jump { index, .. } => index < 1 << 26,
            Instr::JumpReg { rs } => rs.in_range(),
            Instr::JumpLink { rd, rs } => rd.in_range() && rs.in_range(),
            Instr::Stop { code, .. } => code < 1 << 20,
        }
    }
}
