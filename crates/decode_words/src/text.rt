//! Instructions as text: the operation, then its operands in the assembler's order.

ghost use Rattle.decode_words.specs.Text.{access_operands, address_text, all, branch_registers, hexadecimal, imm_text, one, operands_of, signed_half, text_of, three_operands, two};
ghost use Rattle.mips_decode.specs.Decoded.{decoded};
ghost use Rattle.std.specs.Fmt.{decimal};
ghost use Rattle.std.specs.Prelude.{◌≡◌, ◌++◌, IfOk, codes};
ghost use Rattle.std.specs.String.{string_bytes};

use crate::names::name_of;
use mips_decode::{BranchOp, ImmOp, Instr, Op3, Reg, decode};
use std::alloc::{AllocError, Global};

/// The text of a word's instruction: `none` where the table has no row for the word.
pub fn describe(alloc: Global, word: u32) -> Result<String, AllocError>
    ensures { IfOk result (λ text. string_bytes text ≡ text_of (decoded word)) }
{
    let Some(instr) = decode(word) else {
        return format!(in alloc; "none");
    };
    let operands = operands_of(alloc, &instr)?;
    format!(in alloc; "{} {operands}", name_of(&instr))
}

/// Sixteen bits as a signed number.
fn signed_half(alloc: Global, half: u16) -> Result<String, AllocError>
    ensures { IfOk result (λ text. string_bytes text ≡ signed_half half) }
{
    let number = half.cast_signed();
    format!(in alloc; "{number}")
}

/// A number in hexadecimal.
fn hexadecimal(alloc: Global, number: u32) -> Result<String, AllocError>
    ensures { IfOk result (λ text. string_bytes text ≡ hexadecimal number) }
{
    format!(in alloc; "0x{number:x}")
}

/// A number of bits in decimal.
fn decimal(alloc: Global, number: u8) -> Result<String, AllocError>
    ensures { IfOk result (λ text. string_bytes text ≡ decimal number) }
{
    format!(in alloc; "{number}")
}

fn one(alloc: Global, a: Reg) -> Result<String, AllocError>
    ensures { IfOk result (λ text. string_bytes text ≡ one a) }
{
    format!(in alloc; "${}", a.number())
}

fn two(alloc: Global, a: Reg, b: Reg) -> Result<String, AllocError>
    ensures { IfOk result (λ text. string_bytes text ≡ two a b) }
{
    let first = one(alloc, a)?;
    let last = one(alloc, b)?;
    listed(alloc, first.as_str(), last.as_str())
}

fn all(alloc: Global, a: Reg, b: Reg, c: Reg) -> Result<String, AllocError>
    ensures { IfOk result (λ text. string_bytes text ≡ all a b c) }
{
    let front = two(alloc, a, b)?;
    let last = one(alloc, c)?;
    listed(alloc, front.as_str(), last.as_str())
}

/// Variable shifts name the register that is shifted before the one that says how far.
fn three_operands(alloc: Global, op: Op3, rd: Reg, rs: Reg, rt: Reg) -> Result<String, AllocError>
    ensures { IfOk result (λ text. string_bytes text ≡ three_operands op rd rs rt) }
{
    match op {
        Op3::Sllv => all(alloc, rd, rt, rs),
        Op3::Srlv => all(alloc, rd, rt, rs),
        Op3::Srav => all(alloc, rd, rt, rs),
        _ => all(alloc, rd, rs, rt),
    }
}

/// The logical operations have bits as their immediate, the others signed numbers.
fn imm_text(alloc: Global, op: ImmOp, imm: u16) -> Result<String, AllocError>
    ensures { IfOk result (λ text. string_bytes text ≡ imm_text op imm) }
{
    match op {
        ImmOp::Andi => hexadecimal(alloc, u32::from(imm)),
        ImmOp::Ori => hexadecimal(alloc, u32::from(imm)),
        ImmOp::Xori => hexadecimal(alloc, u32::from(imm)),
        _ => signed_half(alloc, imm),
    }
}

/// Only BEQ and BNE name a second register.
fn branch_registers(alloc: Global, op: BranchOp, rs: Reg, rt: Reg) -> Result<String, AllocError>
    ensures { IfOk result (λ text. string_bytes text ≡ branch_registers op rs rt) }
{
    match op {
        BranchOp::Beq => two(alloc, rs, rt),
        BranchOp::Bne => two(alloc, rs, rt),
        _ => one(alloc, rs),
    }
}

/// A text in brackets.
fn bracketed(alloc: Global, inner: &str) -> Result<String, AllocError>
    ensures { IfOk result (λ text. string_bytes text ≡ codes "(" ++ inner.now ++ codes ")") }
{
    format!(in alloc; "({inner})")
}

/// An address: the offset, and the base in brackets.
fn address_text(alloc: Global, base: Reg, offset: u16) -> Result<String, AllocError>
    ensures { IfOk result (λ text. string_bytes text ≡ address_text base offset) }
{
    let number = signed_half(alloc, offset)?;
    let register = one(alloc, base)?;
    let place = bracketed(alloc, register.as_str())?;
    format!(in alloc; "{number}{place}")
}

fn access_operands(alloc: Global, rt: Reg, base: Reg, offset: u16) -> Result<String, AllocError>
    ensures { IfOk result (λ text. string_bytes text ≡ access_operands rt base offset) }
{
    let register = one(alloc, rt)?;
    let address = address_text(alloc, base, offset)?;
    listed(alloc, register.as_str(), address.as_str())
}

/// Two texts with a comma between.
fn listed(alloc: Global, first: &str, last: &str) -> Result<String, AllocError>
    ensures { IfOk result (λ text. string_bytes text ≡ first.now ++ codes "," ++ last.now) }
{
    format!(in alloc; "{first},{last}")
}

/// The operands of an instruction.
fn operands_of(alloc: Global, instr: &Instr) -> Result<String, AllocError>
    ensures { IfOk result (λ text. string_bytes text ≡ operands_of instr.now) }
{
    match *instr {
        Instr::Three { op, rd, rs, rt } => three_operands(alloc, op, rd, rs, rt),
        Instr::Shift { rd, rt, by, .. } => {
            let registers = two(alloc, rd, rt)?;
            let number = decimal(alloc, by)?;
            listed(alloc, registers.as_str(), number.as_str())
        }
        Instr::HiLo { reg, .. } => one(alloc, reg),
        Instr::MulDiv { rs, rt, .. } => two(alloc, rs, rt),
        Instr::Imm { op, rt, rs, imm } => {
            let registers = two(alloc, rt, rs)?;
            let number = imm_text(alloc, op, imm)?;
            listed(alloc, registers.as_str(), number.as_str())
        }
        Instr::Lui { rt, imm } => {
            let register = one(alloc, rt)?;
            let number = hexadecimal(alloc, u32::from(imm))?;
            listed(alloc, register.as_str(), number.as_str())
        }
        Instr::Load {
            rt,
            base,
            offset,
            ..
        } => access_operands(alloc, rt, base, offset),
        Instr::Store {
            rt,
            base,
            offset,
            ..
        } => access_operands(alloc, rt, base, offset),
        Instr::Branch { op, rs, rt, offset } => {
            let registers = branch_registers(alloc, op, rs, rt)?;
            let number = signed_half(alloc, offset)?;
            listed(alloc, registers.as_str(), number.as_str())
        }
        Instr::Jump { index, .. } => hexadecimal(alloc, index),
        Instr::JumpReg { rs } => one(alloc, rs),
        Instr::JumpLink { rd, rs } => two(alloc, rd, rs),
        Instr::Stop { code, .. } => hexadecimal(alloc, code),
    }
}
