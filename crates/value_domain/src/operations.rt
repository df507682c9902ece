//! What the operations of instructions make of values.

ghost use Rattle.mips_decode.specs.Arithmetic.{imm_value, shift_value, sign_extended, three_value};
ghost use Rattle.std.specs.Prelude.{◌≡◌, ℕ, ◌<◌, ◌^◌, Some, true};
ghost use Rattle.value_domain.specs.Order.{leq};
ghost use Rattle.value_domain.specs.Results.{imm_span, shift_span, three_span};
ghost use Rattle.value_domain.specs.Spans.{Holds, IsStrided, Span, single};

use crate::bits::{and, nor, or, xor};
use crate::comparisons::{less, less_signed};
use crate::shifts::{shifted, varied};
use crate::strided::Strided;
use crate::sums::{difference, sum};
use mips_decode::{ImmOp, Op3, ShiftOp};

/// Sixteen bits with their highest one repeated above them.
fn sign_extended(imm: u16) -> Strided
    ensures { result ≡ single (sign_extended imm) }
{
    let number = u32::from(imm);
    if imm < 0x8000 {
        return Strided::one(number);
    }
    Strided::one(number + 0xffff_0000)
}

/// The span of an operation on two values.
fn three_span(op: Op3, a: &Strided, b: &Strided) -> Strided
    ensures { result ≡ three_span op a.now b.now }
{
    match op {
        Op3::Sllv => varied(ShiftOp::Sll, b, a),
        Op3::Srlv => varied(ShiftOp::Srl, b, a),
        Op3::Srav => varied(ShiftOp::Sra, b, a),
        Op3::Add | Op3::Addu => sum(a, b),
        Op3::Sub | Op3::Subu => difference(a, b),
        Op3::And => and(a, b),
        Op3::Or => or(a, b),
        Op3::Xor => xor(a, b),
        Op3::Nor => nor(a, b),
        Op3::Slt => less_signed(a, b),
        Op3::Sltu => less(a, b),
    }
}

/// The span of an operation on a value and an immediate.
fn imm_span(op: ImmOp, a: &Strided, imm: u16) -> Strided
    ensures { result ≡ imm_span op a.now imm }
{
    let signed = sign_extended(imm);
    let number = Strided::one(u32::from(imm));
    match op {
        ImmOp::Addi | ImmOp::Addiu => sum(a, &signed),
        ImmOp::Slti => less_signed(a, &signed),
        ImmOp::Sltiu => less(a, &signed),
        ImmOp::Andi => and(a, &number),
        ImmOp::Ori => or(a, &number),
        ImmOp::Xori => xor(a, &number),
    }
}

impl Strided {
    /// What an operation on two registers makes of two values (MIPS I manual: arithmetic, logical operations, shifts
    /// and comparisons). Where it wraps for some held numbers alone, it answers every number. ADD and SUB answer as
    /// ADDU and SUBU do, which holds each result that doesn't trap.
    pub fn three(op: Op3, a: &Strided, b: &Strided) -> Strided
        ensures value { result ≡ three_span op a.now b.now }
        ensures holds { (x y n : ℕ) → Holds a.now x → Holds b.now y → three_value op x y ≡ Some n → Holds result n }
        ensures single { (x y n : ℕ) → a.now ≡ single x → b.now ≡ single y → three_value op x y ≡ Some n
            → result ≡ single n }
        ensures rises { (c d : Span) → IsStrided c → IsStrided d → leq a.now c ≡ true → leq b.now d ≡ true
            → leq result (three_span op c d) ≡ true }
        ensures shape { IsStrided result }
    {
        let _shape = (a.step(), b.step());
        three_span(op, a, b)
    }

    /// What a shift by fewer than 32 bits makes of a value.
    pub fn shift(op: ShiftOp, a: &Strided, by: u8) -> Strided
        requires { by < 32 }
        ensures value { result ≡ shift_span op a.now by }
        ensures holds { (x : ℕ) → Holds a.now x → Holds result (shift_value op x by) }
        ensures single { (x : ℕ) → a.now ≡ single x → result ≡ single (shift_value op x by) }
        ensures rises { (c : Span) → IsStrided c → leq a.now c ≡ true → leq result (shift_span op c by) ≡ true }
        ensures shape { IsStrided result }
    {
        let _shape = a.step();
        shifted(op, a, u32::from(by))
    }

    /// What an operation on a register and an immediate makes of a value. ADDI answers as ADDIU does.
    pub fn imm(op: ImmOp, a: &Strided, imm: u16) -> Strided
        ensures value { result ≡ imm_span op a.now imm }
        ensures holds { (x n : ℕ) → Holds a.now x → imm_value op x imm ≡ Some n → Holds result n }
        ensures single { (x n : ℕ) → a.now ≡ single x → imm_value op x imm ≡ Some n → result ≡ single n }
        ensures rises { (c : Span) → IsStrided c → leq a.now c ≡ true → leq result (imm_span op c imm) ≡ true }
        ensures shape { IsStrided result }
    {
        let _shape = a.step();
        imm_span(op, a, imm)
    }
}
