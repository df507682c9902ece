//! What the instructions but loads and stores do to the registers.

ghost use Rattle.mips_decode.specs.Effect.{arithmetic, multiplied, reg, with_hi_lo, with_product, with_reg};
ghost use Rattle.mips_decode.specs.Table.{IsValid};
ghost use Rattle.std.specs.Bool.{OnFalse, OnTrue};
ghost use Rattle.std.specs.Prelude.{◌≡◌, ◌<◌, Option, option_map, ℕ};

use crate::arithmetic::{
    imm_value, shift_value, signed_product, signed_quotient, signed_remainder, three_value,
};
use crate::instr::{HiLoOp, Instr, MulOp, Reg};
use crate::step::Regs;

impl Regs {
    /// The number in a register.
    pub fn get(&self, register: Reg) -> u32
        ensures { result ≡ reg self.now register }
    {
        self.general[register.number() as usize]
    }

    /// Writes a register; register 0 stays as it is.
    pub fn set(&mut self, register: Reg, value: u32)
        ensures { self.new ≡ with_reg self.old register value }
    {
        if register.number() != 0 {
            self.general[register.number() as usize] = value;
        }
    }
}

/// Leaves a product in HI and LO.
fn put_product(regs: &mut Regs, product: u64)
    ensures { regs.new ≡ with_product regs.old product }
{
    regs.hi = (product >> 32) as u32;
    regs.lo = (product & 0xffff_ffff) as u32;
}

/// Multiplies or divides two numbers into HI and LO.
fn multiply(op: MulOp, s: u32, t: u32, regs: &mut Regs)
    ensures { regs.new ≡ multiplied op s t regs.old }
{
    match op {
        MulOp::Mult => put_product(regs, signed_product(s, t)),
        MulOp::Multu => put_product(regs, u64::from(s) * u64::from(t)),
        MulOp::Div => put_quotient(regs, s, t),
        MulOp::Divu => put_unsigned_quotient(regs, s, t),
    }
}

/// Divides two signed numbers into HI and LO.
fn put_quotient(regs: &mut Regs, s: u32, t: u32)
    ensures { regs.new ≡ multiplied MulOp.Div s t regs.old }
{
    if t == 0 {
        regs.hi = 0;
        regs.lo = 0;
    } else {
        regs.hi = signed_remainder(s, t);
        regs.lo = signed_quotient(s, t);
    }
}

/// Divides two unsigned numbers into HI and LO.
fn put_unsigned_quotient(regs: &mut Regs, s: u32, t: u32)
    ensures { regs.new ≡ multiplied MulOp.Divu s t regs.old }
{
    if t == 0 {
        regs.hi = 0;
        regs.lo = 0;
    } else {
        regs.hi = s % t;
        regs.lo = s / t;
    }
}

/// Moves a number from or to HI or LO.
fn move_hi_lo(op: HiLoOp, register: Reg, regs: &mut Regs)
    ensures { arithmetic (Instr.HiLo op register) regs.old ≡ Some regs.new }
{
    match op {
        HiLoOp::Mfhi => regs.set(register, regs.hi),
        HiLoOp::Mthi => regs.hi = regs.get(register),
        HiLoOp::Mflo => regs.set(register, regs.lo),
        HiLoOp::Mtlo => regs.lo = regs.get(register),
    }
}

/// Writes a result into a register, and tells whether there is one.
fn put(regs: &mut Regs, reg: Reg, value: Option<u32>) -> bool
    ensures done { OnTrue result (option_map (with_reg regs.old reg) value ≡ Some regs.new) }
    ensures trap { OnFalse result (option_map (with_reg regs.old reg) value ≡ None) }
    ensures kept { OnFalse result (regs.new ≡ regs.old) }
{
    match value {
        Some(number) => {
            regs.set(reg, number);
            true
        }
        None => false,
    }
}

/// Does an arithmetic instruction; `false` where its signed result overflows, and then the
/// registers stay. Loads, stores, jumps, branches and stops change nothing here. The operations are those of MIPS RISC
/// Architecture, Kane and Heinrich 1992, appendix A; a division by zero, which it leaves open, gives HI = LO = 0.
pub fn apply(instr: &Instr, regs: &mut Regs) -> bool
    requires { IsValid instr.now }
    ensures done { OnTrue result (arithmetic instr.now regs.old ≡ Some regs.new) }
    ensures trap { OnFalse result (arithmetic instr.now regs.old ≡ None) }
    ensures kept { OnFalse result (regs.new ≡ regs.old) }
{
    match *instr {
        Instr::Three { op, rd, rs, rt } => {
            let value = three_value(op, regs.get(rs), regs.get(rt));
            put(regs, rd, value)
        }
        Instr::Shift { op, rd, rt, by } => {
            let value = shift_value(op, regs.get(rt), u32::from(by));
            put(regs, rd, Some(value))
        }
        Instr::HiLo { op, reg } => {
            move_hi_lo(op, reg, regs);
            true
        }
        Instr::MulDiv { op, rs, rt } => {
            multiply(op, regs.get(rs), regs.get(rt), regs);
            true
        }
        Instr::Imm { op, rt, rs, imm } => {
            let value = imm_value(op, regs.get(rs), imm);
            put(regs, rt, value)
        }
        Instr::Lui { rt, imm } => put(regs, rt, Some(u32::from(imm) << 16)),
        Instr::Load { .. } => true,
        Instr::Store { .. } => true,
        Instr::Branch { .. } => true,
        Instr::Jump { .. } => true,
        Instr::JumpReg { .. } => true,
        Instr::JumpLink { .. } => true,
        Instr::Stop { .. } => true,
    }
}
