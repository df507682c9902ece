//! The number that each operation computes.

ghost use Rattle.mips_decode.specs.Arithmetic.{imm_value, shift_value, sign_extended, signed, signed_result, three_value};
ghost use Rattle.std.specs.Int.{cast_unsigned, w32, w64};
ghost use Rattle.std.specs.Prelude.{◌≡◌, ◌≢◌, ◌*◌, ◌/◌, ◌%◌, ◌+ℤ◌, ◌-ℤ◌, ◌*ℤ◌, ◌<◌, int_div, int_rem, Option, ℕ};

use crate::instr::{ImmOp, Op3, ShiftOp};

/// Sixteen bits with their highest one repeated above them.
pub fn sign_extended(imm: u16) -> u32
    ensures { result ≡ sign_extended imm }
{
    let number = u32::from(imm);
    if imm < 0x8000 {
        number
    } else {
        number + 0xffff_0000
    }
}

/// The sum of two signed numbers; none where it overflows.
fn signed_sum(s: u32, t: u32) -> Option<u32>
    ensures { result ≡ signed_result (signed s +ℤ signed t) }
{
    let sum = s.cast_signed().checked_add(t.cast_signed())?;
    Some(sum.cast_unsigned())
}

/// The difference of two signed numbers; none where it overflows.
fn signed_difference(s: u32, t: u32) -> Option<u32>
    ensures { result ≡ signed_result (signed s -ℤ signed t) }
{
    let difference = s.cast_signed().checked_sub(t.cast_signed())?;
    Some(difference.cast_unsigned())
}

/// A number shifted by fewer than 32 bits.
pub fn shift_value(op: ShiftOp, number: u32, by: u32) -> u32
    requires { by < 32 }
    ensures { result ≡ shift_value op number by }
{
    match op {
        ShiftOp::Sll => number << by,
        ShiftOp::Srl => number >> by,
        ShiftOp::Sra => (number.cast_signed() >> by).cast_unsigned(),
    }
}

/// What an operation on two registers computes; none where it overflows.
pub fn three_value(op: Op3, s: u32, t: u32) -> Option<u32>
    ensures { result ≡ three_value op s t }
{
    match op {
        Op3::Sllv => Some(shift_value(ShiftOp::Sll, t, s % 32)),
        Op3::Srlv => Some(shift_value(ShiftOp::Srl, t, s % 32)),
        Op3::Srav => Some(shift_value(ShiftOp::Sra, t, s % 32)),
        Op3::Add => signed_sum(s, t),
        Op3::Addu => Some(s.wrapping_add(t)),
        Op3::Sub => signed_difference(s, t),
        Op3::Subu => Some(s.wrapping_sub(t)),
        Op3::And => Some(s & t),
        Op3::Or => Some(s | t),
        Op3::Xor => Some(s ^ t),
        Op3::Nor => Some(!(s | t)),
        Op3::Slt => Some(u32::from(s.cast_signed() < t.cast_signed())),
        Op3::Sltu => Some(u32::from(s < t)),
    }
}

/// What an operation on a register and an immediate computes; none where it overflows.
pub fn imm_value(op: ImmOp, s: u32, imm: u16) -> Option<u32>
    ensures { result ≡ imm_value op s imm }
{
    let signed = sign_extended(imm);
    let number = u32::from(imm);
    match op {
        ImmOp::Addi => signed_sum(s, signed),
        ImmOp::Addiu => Some(s.wrapping_add(signed)),
        ImmOp::Slti => Some(u32::from(s.cast_signed() < signed.cast_signed())),
        ImmOp::Sltiu => Some(u32::from(s < signed)),
        ImmOp::Andi => Some(s & number),
        ImmOp::Ori => Some(s | number),
        ImmOp::Xori => Some(s ^ number),
    }
}

/// The product of two signed numbers, which fits 64 bits.
fn whole_product(s: i32, t: i32) -> i64
    ensures { result ≡ s *ℤ t }
{
    i64::from(s) * i64::from(t)
}

/// The product of two signed numbers, as 64 bits.
pub fn signed_product(s: u32, t: u32) -> u64
    ensures { result ≡ cast_unsigned w64 (signed s *ℤ signed t) }
{
    whole_product(s.cast_signed(), t.cast_signed()).cast_unsigned()
}

/// The quotient of two signed numbers, rounded to zero.
pub fn signed_quotient(s: u32, t: u32) -> u32
    requires { 0 < t }
    ensures { result ≡ cast_unsigned w32 (int_div (signed s) (signed t)) }
{
    s.cast_signed()
        .wrapping_div(t.cast_signed())
        .cast_unsigned()
}

/// The remainder of two signed numbers, with the dividend's sign.
pub fn signed_remainder(s: u32, t: u32) -> u32
    requires { 0 < t }
    ensures { result ≡ cast_unsigned w32 (int_rem (signed s) (signed t)) }
{
    s.cast_signed()
        .wrapping_rem(t.cast_signed())
        .cast_unsigned()
}
