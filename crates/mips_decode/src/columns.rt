//! The places that an instruction reads and writes, and its cost class.

ghost use Rattle.mips_decode.specs.Columns.{bits_of, class_of, places_read, places_written, register};
ghost use Rattle.mips_decode.specs.Places.{ReadsOnly, WritesOnly};
ghost use Rattle.mips_decode.specs.Table.{IsValid};
ghost use Rattle.std.specs.Prelude.{◌≡◌, ◌<◌, ◌^◌, List, ℕ};

use crate::instr::{BranchOp, HiLoOp, Instr, LoadOp, MulOp, Op3, Reg};

/// What the cost of an instruction depends on.
#[derive(Clone, Copy, Debug, PartialEq, Eq)]
pub enum CostClass {
    /// Sums, differences, comparisons and logical operations, on registers and on immediates, and LUI.
    Alu,
    /// Shifts, by a fixed number of bits or by a register.
    Shift,
    /// MULT and MULTU.
    Mult,
    /// DIV and DIVU.
    Div,
    /// MFHI, MTHI, MFLO and MTLO.
    Move,
    /// LB, LBU, LH, LHU, LW, LWL and LWR.
    Load,
    /// SB, SH, SW, SWL and SWR.
    Store,
    /// BEQ, BNE, BLEZ, BGTZ, BLTZ, BGEZ, BLTZAL and BGEZAL, taken or not.
    Branch,
    /// J, JAL, JR and JALR.
    Jump,
    /// SYSCALL and BREAK.
    Stop,
}

/// The bit of HI.
const HI: u64 = 1 << 32;

/// The bit of LO.
const LO: u64 = 1 << 33;

/// The bit of a register.
fn bit(reg: Reg) -> u64
    ensures { result ≡ 2 ^ reg }
{
    1 << reg.number()
}

/// The bit of a register that is written; register 0 never is.
fn written(reg: Reg) -> u64
    ensures { result ≡ bits_of (register reg) }
{
    if reg.number() == 0 { 0 } else { bit(reg) }
}

/// The bits of an instruction's operands.
fn operand_bits(instr: &Instr) -> u64
    ensures { result ≡ bits_of (places_read instr.now) }
{
    match *instr {
        Instr::Three { rs, rt, .. } => bit(rs) | bit(rt),
        Instr::Shift { rt, .. } => bit(rt),
        Instr::HiLo {
            op: HiLoOp::Mfhi,
            ..
        } => HI,
        Instr::HiLo {
            op: HiLoOp::Mflo,
            ..
        } => LO,
        Instr::HiLo { reg, .. } => bit(reg),
        Instr::MulDiv { rs, rt, .. } => bit(rs) | bit(rt),
        Instr::Imm { rs, .. } => bit(rs),
        Instr::Load {
            op: LoadOp::Lwl,
            rt,
            base,
            ..
        } => bit(base) | bit(rt),
        Instr::Load {
            op: LoadOp::Lwr,
            rt,
            base,
            ..
        } => bit(base) | bit(rt),
        Instr::Load { base, .. } => bit(base),
        Instr::Store { rt, base, .. } => bit(base) | bit(rt),
        Instr::Branch {
            op: BranchOp::Beq,
            rs,
            rt,
            ..
        } => bit(rs) | bit(rt),
        Instr::Branch {
            op: BranchOp::Bne,
            rs,
            rt,
            ..
        } => bit(rs) | bit(rt),
        Instr::Branch { rs, .. } => bit(rs),
        Instr::JumpReg { rs } => bit(rs),
        Instr::JumpLink { rs, .. } => bit(rs),
        Instr::Lui { .. } => 0,
        Instr::Jump { .. } => 0,
        Instr::Stop { .. } => 0,
    }
}

/// The places that an instruction reads: bit n for register n, bit 32 for HI, bit 33 for LO. They are enough:
/// where registers agree on them, the instruction traps, goes on, loads and stores alike (operands by MIPS RISC
/// Architecture, Kane and Heinrich 1992, appendix A).
pub fn reads(instr: &Instr) -> u64
    ensures exact { result ≡ bits_of (places_read instr.now) }
    ensures enough { IsValid instr.now → ReadsOnly result instr.now }
{
    operand_bits(instr)
}

/// The bits of an instruction's results.
fn result_bits(instr: &Instr) -> u64
    ensures { result ≡ bits_of (places_written instr.now) }
{
    match *instr {
        Instr::Three { rd, .. } => written(rd),
        Instr::Shift { rd, .. } => written(rd),
        Instr::HiLo {
            op: HiLoOp::Mthi,
            ..
        } => HI,
        Instr::HiLo {
            op: HiLoOp::Mtlo,
            ..
        } => LO,
        Instr::HiLo { reg, .. } => written(reg),
        Instr::MulDiv { .. } => HI | LO,
        Instr::Imm { rt, .. } => written(rt),
        Instr::Lui { rt, .. } => written(rt),
        Instr::Load { rt, .. } => written(rt),
        Instr::Branch {
            op: BranchOp::Bltzal,
            ..
        } => 1 << 31,
        Instr::Branch {
            op: BranchOp::Bgezal,
            ..
        } => 1 << 31,
        Instr::Jump { link: true, .. } => 1 << 31,
        Instr::JumpLink { rd, .. } => written(rd),
        Instr::Store { .. } => 0,
        Instr::Branch { .. } => 0,
        Instr::Jump { .. } => 0,
        Instr::JumpReg { .. } => 0,
        Instr::Stop { .. } => 0,
    }
}

/// The places that an instruction writes, as in `reads`; bit 0 never is among them. All others keep what they hold,
/// also where a jump or branch links (results by MIPS RISC Architecture, Kane and Heinrich 1992, appendix A).
pub fn writes(instr: &Instr) -> u64
    ensures exact { result ≡ bits_of (places_written instr.now) }
    ensures only { WritesOnly result instr.now }
{
    result_bits(instr)
}

/// The class that an instruction's cost is taken from. Shifts by a register cost as other shifts do.
pub fn cost_class(instr: &Instr) -> CostClass
    ensures { result ≡ class_of instr.now }
{
    match *instr {
        Instr::Three { op: Op3::Sllv, .. } => CostClass::Shift,
        Instr::Three { op: Op3::Srlv, .. } => CostClass::Shift,
        Instr::Three { op: Op3::Srav, .. } => CostClass::Shift,
        Instr::Three { .. } => CostClass::Alu,
        Instr::Shift { .. } => CostClass::Shift,
        Instr::HiLo { .. } => CostClass::Move,
        Instr::MulDiv {
            op: MulOp::Mult,
            ..
        } => CostClass::Mult,
        Instr::MulDiv {
            op: MulOp::Multu,
            ..
        } => CostClass::Mult,
        Instr::MulDiv { .. } => CostClass::Div,
        Instr::Imm { .. } => CostClass::Alu,
        Instr::Lui { .. } => CostClass::Alu,
        Instr::Load { .. } => CostClass::Load,
        Instr::Store { .. } => CostClass::Store,
        Instr::Branch { .. } => CostClass::Branch,
        Instr::Jump { .. } => CostClass::Jump,
        Instr::JumpReg { .. } => CostClass::Jump,
        Instr::JumpLink { .. } => CostClass::Jump,
        Instr::Stop { .. } => CostClass::Stop,
    }
}
